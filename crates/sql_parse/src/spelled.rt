//! The one statement that lexemes spell.
ghost use Rattle.std.specs.Prelude.{◌≡◌, IfOk, MatchResult};
ghost use Rattle.sql_tree.specs.Statements.{StatementTree, statement_tree};
ghost use Rattle.sql_read.specs.Lexemes.{seen};
ghost use Rattle.sql_parse.specs.Statements.{IsSpelled};

use bumpalo::Bump;
use sql_read::{DescentFault, Lexeme, read_statement};
use sql_tree::Stmt;
use std::alloc::Global;

/// The statement that all the lexemes spell. `Syntax` exactly where they spell none, unless memory
/// runs out first.
pub fn parse_lexemes<'a>(
    alloc: Global,
    arena: &'a Bump,
    lexemes: &'a [Lexeme<'a>],
) -> Result<Stmt<'a>, DescentFault>
    // What is read is spelled so.
    ensures found { IfOk result (λ s. IsSpelled (seen lexemes.now) (statement_tree s)) }
    // What is spelled is read, unless memory runs out.
    ensures only { (t : StatementTree) → IsSpelled (seen lexemes.now) t →
        MatchResult result (λ s. statement_tree s ≡ t) (λ e. e ≡ DescentFault.Memory) }
{
    match read_statement(alloc, arena, lexemes) {
        Ok(statement) => Ok(statement),
        Err(fault) => Err(fault),
    }
}
