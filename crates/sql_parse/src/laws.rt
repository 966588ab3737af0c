//! Laws of the grammar. Nothing runs here.
ghost use Rattle.std.specs.Prelude.{◌≡◌, List, Some};
ghost use Rattle.sql_tree.specs.Statements.{StatementTree};
ghost use Rattle.sql_read.specs.Lexemes.{Lexeme};
ghost use Rattle.sql_read.specs.Statements.{whole_at};
ghost use Rattle.sql_parse.specs.Statements.{IsSpelled};

/// A run of lexemes spells at most one statement.
#[tactic(auto, using(crate::proofs::Whole::one_tree))]
pub fn at_most_one_tree()
    ensures { (run : List Lexeme) (one other : StatementTree) →
        IsSpelled run one → IsSpelled run other → one ≡ other }
{}

/// Descending once from left to right reads the statement that the grammar, which may split a run
/// at any place, spells; and nothing else.
pub fn spelled_where_read()
    ensures read { (run : List Lexeme) (one : StatementTree) →
        whole_at run ≡ Some one → IsSpelled run one }
    ensures spelled { (run : List Lexeme) (one : StatementTree) →
        IsSpelled run one → whole_at run ≡ Some one }
{}
