//! A statement's tree, or why it is refused.
ghost use Rattle.std.specs.Prelude.{◌≡◌, ◌<◌, ◌^◌, length, None, Some, IfOk, IfErr, MatchResult};
ghost use Rattle.std.specs.Prelude.{◌⊎◌};
ghost use Rattle.sql_tree.specs.Statements.{StatementTree, statement_tree};
ghost use Rattle.sql_parse.specs.Refusals.{is_bad, has_bad_token, first_refusal};
ghost use Rattle.sql_parse.specs.Statements.{IsSpelled};
ghost use Rattle.sql_lexemes.specs.TokenLexemes.{lexemes_of};

use crate::numbers::has_number_outside;
use crate::spelled::parse_lexemes;
use bumpalo::Bump;
use sql_lex::{Foreign, foreign, too_deep};
use sql_lexemes::lexemes;
use sql_read::DescentFault;
use sql_tokens::{Token, TokenKind};
use sql_tree::Stmt;
use sql_value::Memory;
use std::alloc::Global;

/// Why a statement has no tree. The first that holds is answered, in this order.
#[derive(Clone, Copy, Debug)]
pub enum ParseFault {
    /// A token is none of the language.
    Lexical,
    /// The statement has a part that this profile doesn't read.
    Foreign(Foreign),
    /// A number is outside of what is read.
    NumberOutOfProfile,
    /// The statement nests deeper than 200.
    TooDeep,
    /// The grammar spells no such statement.
    Syntax,
    /// Want of memory.
    Memory,
}

impl From<Memory> for ParseFault {
    ghost use Rattle.std.specs.Prelude.{◌≡◌};
    ghost use Rattle.sql_parse.specs.declared.refusals.ParseFault.TheVariants.{Memory as memory_fault};

    ghost from_gives = { λ _ fault. fault ≡ memory_fault };

    fn from(_: Memory) -> ParseFault {
        ParseFault::Memory
    }
}

#[tactic(auto, unfolding(crate::specs::Refusals::is_bad))]
fn is_bad(kind: TokenKind) -> bool
    ensures { result ≡ is_bad kind }
{
    match kind {
        TokenKind::Bad => true,
        TokenKind::Word
        | TokenKind::Quoted
        | TokenKind::Text
        | TokenKind::Blob
        | TokenKind::Number
        | TokenKind::Parameter
        | TokenKind::Symbol => false,
    }
}

fn has_bad_token(tokens: &[Token]) -> bool
    ensures { result ≡ has_bad_token tokens.now }
{
    for token in tokens {
        if is_bad(token.kind) {
            return true;
        }
    }
    false
}

#[tactic(auto, unfolding(crate::specs::Refusals::first_refusal))]
fn refusal(text: &[u8], tokens: &[Token]) -> Option<ParseFault>
    requires { length tokens.now < 2 ^ 32 }
    ensures { result ≡ first_refusal text.now tokens.now }
{
    if has_bad_token(tokens) {
        return Some(ParseFault::Lexical);
    }
    if let Some(found) = foreign(text, tokens) {
        return Some(ParseFault::Foreign(found));
    }
    if has_number_outside(text, tokens) {
        return Some(ParseFault::NumberOutOfProfile);
    }
    if too_deep(text, tokens) {
        return Some(ParseFault::TooDeep);
    }
    None
}

/// The one statement that a run of tokens spells, all of them. Refusals are tested in the order of
/// `ParseFault`; `Syntax` is answered exactly where none of those before it holds and no tree is
/// spelled, and `Memory` only where the statement isn't refused before.
///
/// <https://www.sqlite.org/lang_select.html>, <https://www.sqlite.org/lang_update.html>,
/// <https://www.sqlite.org/lang_delete.html>, <https://www.sqlite.org/lang_expr.html>
pub fn parse<'a>(
    alloc: Global,
    arena: &'a Bump,
    text: &'a [u8],
    tokens: &[Token],
) -> Result<Stmt<'a>, ParseFault>
    requires { length tokens.now < 2 ^ 32 }
    // A statement that is refused before its grammar is asked.
    ensures refused { (fault : ParseFault) → first_refusal text.now tokens.now ≡ Some fault →
        result ≡ Err fault }
    // What is read is spelled so.
    ensures found { IfOk result (λ s. IsSpelled (lexemes_of text.now tokens.now)
        (statement_tree s)) }
    // What is spelled is read, unless memory runs out.
    ensures only { first_refusal text.now tokens.now ≡ None → (t : StatementTree) →
        IsSpelled (lexemes_of text.now tokens.now) t →
        MatchResult result (λ s. statement_tree s ≡ t) (λ e. e ≡ ParseFault.Memory) }
    // Where it isn't refused before, there is a tree, a syntax error or want of memory.
    ensures otherwise { first_refusal text.now tokens.now ≡ None →
        IfErr result (λ e. (e ≡ ParseFault.Syntax) ⊎ (e ≡ ParseFault.Memory)) }
{
    if let Some(fault) = refusal(text, tokens) {
        return Err(fault);
    }
    let list = lexemes(alloc, arena, text, tokens)?;
    match parse_lexemes(alloc, arena, list) {
        Ok(statement) => Ok(statement),
        Err(DescentFault::Syntax) => Err(ParseFault::Syntax),
        Err(DescentFault::Memory) => Err(ParseFault::Memory),
    }
}
