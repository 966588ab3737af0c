//! What SQLite reads and this program doesn't, by name.
ghost use Rattle.std.specs.Prelude.{◌≡◌};
ghost use Rattle.sql_lex.specs.Constructs.{foreign_name};

/// Something that SQLite reads and this program doesn't, in the order in which they are tried.
#[derive(Clone, Copy, Debug, PartialEq, Eq)]
pub enum Foreign {
    Insert,
    With,
    Values,
    OtherStatement,
    Subquery,
    CompoundSelect,
    WindowFunction,
    Case,
    Cast,
    LikeEscape,
    Glob,
    Regexp,
    Match,
    CurrentTime,
    Function,
    GroupBy,
    Distinct,
    Is,
    Concatenation,
    BitOperator,
    JsonOperator,
    Arithmetic,
    RightJoin,
    FullJoin,
    NaturalJoin,
    Using,
    ParenthesizedJoin,
    RowValue,
    IndexedBy,
    Returning,
    UpdateFrom,
    UpdateOr,
    LimitOnChange,
    NullsFirstOrLast,
    QualifiedTable,
    SelectWithoutFrom,
}

/// The name of a construct, as refusals print it.
#[tactic(auto, unfolding(crate::specs::Constructs::foreign_name))]
pub fn foreign_name(which: Foreign) -> &'static str
    ensures { result.now ≡ foreign_name which }
{
    match which {
        Foreign::Insert => "INSERT",
        Foreign::With => "WITH",
        Foreign::Values => "VALUES",
        Foreign::OtherStatement => "OTHER STATEMENT",
        Foreign::Subquery => "SUBQUERY",
        Foreign::CompoundSelect => "COMPOUND SELECT",
        Foreign::WindowFunction => "WINDOW FUNCTION",
        Foreign::Case => "CASE",
        Foreign::Cast => "CAST",
        Foreign::LikeEscape => "LIKE ESCAPE",
        Foreign::Glob => "GLOB",
        Foreign::Regexp => "REGEXP",
        Foreign::Match => "MATCH",
        Foreign::CurrentTime => "CURRENT TIME",
        Foreign::Function => "FUNCTION",
        Foreign::GroupBy => "GROUP BY",
        Foreign::Distinct => "DISTINCT",
        Foreign::Is => "IS",
        Foreign::Concatenation => "CONCATENATION",
        Foreign::BitOperator => "BIT OPERATOR",
        Foreign::JsonOperator => "JSON OPERATOR",
        Foreign::Arithmetic => "ARITHMETIC",
        Foreign::RightJoin => "RIGHT JOIN",
        Foreign::FullJoin => "FULL JOIN",
        Foreign::NaturalJoin => "NATURAL JOIN",
        Foreign::Using => "USING",
        Foreign::ParenthesizedJoin => "PARENTHESIZED JOIN",
        Foreign::RowValue => "ROW VALUE",
        Foreign::IndexedBy => "INDEXED BY",
        Foreign::Returning => "RETURNING",
        Foreign::UpdateFrom => "UPDATE FROM",
        Foreign::UpdateOr => "UPDATE OR",
        Foreign::LimitOnChange => "LIMIT ON UPDATE OR DELETE",
        Foreign::NullsFirstOrLast => "NULLS FIRST OR LAST",
        Foreign::QualifiedTable => "QUALIFIED TABLE",
        Foreign::SelectWithoutFrom => "SELECT WITHOUT FROM",
    }
}
