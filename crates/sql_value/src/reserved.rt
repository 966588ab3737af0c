//! Which words are reserved.
ghost use Rattle.std.specs.Prelude.{◌≡◌};
ghost use Rattle.sql_value.specs.Reserved.{is_reserved_word, is_reserved_name};

use crate::keywords::{Keyword, find_keyword};

/// Whether a keyword is reserved: unquoted it is no name in a statement.
#[tactic(auto, unfolding(crate::specs::Reserved::is_reserved_word))]
pub fn is_reserved_keyword(keyword: Keyword) -> bool
    ensures { result ≡ is_reserved_word keyword }
{
    match keyword {
        // Words of whole statements.
        Keyword::Analyze
        | Keyword::Attach
        | Keyword::Begin
        | Keyword::Detach
        | Keyword::End
        | Keyword::Explain
        | Keyword::Pragma
        | Keyword::Reindex
        | Keyword::Release
        | Keyword::Replace
        | Keyword::Rollback
        | Keyword::Savepoint
        | Keyword::Vacuum => false,
        // Words within a statement.
        Keyword::Asc
        | Keyword::Cast
        | Keyword::Desc
        | Keyword::Filter
        | Keyword::Generated
        | Keyword::If
        | Keyword::Key
        | Keyword::Over
        | Keyword::Rowid
        | Keyword::Strict
        | Keyword::Temp
        | Keyword::Temporary
        | Keyword::Trigger
        | Keyword::View
        | Keyword::Virtual
        | Keyword::Without => false,
        Keyword::Add
        | Keyword::All
        | Keyword::Alter
        | Keyword::And
        | Keyword::As
        | Keyword::Autoincrement
        | Keyword::Between
        | Keyword::By
        | Keyword::Case
        | Keyword::Check
        | Keyword::Collate
        | Keyword::Commit
        | Keyword::Constraint
        | Keyword::Create
        | Keyword::Cross
        | Keyword::CurrentDate
        | Keyword::CurrentTime
        | Keyword::CurrentTimestamp
        | Keyword::Default
        | Keyword::Deferrable
        | Keyword::Delete
        | Keyword::Distinct
        | Keyword::Drop
        | Keyword::Else
        | Keyword::Escape
        | Keyword::Except
        | Keyword::Exists
        | Keyword::Foreign
        | Keyword::From
        | Keyword::Full
        | Keyword::Glob
        | Keyword::Group
        | Keyword::Having
        | Keyword::In
        | Keyword::Index
        | Keyword::Indexed
        | Keyword::Inner
        | Keyword::Insert
        | Keyword::Intersect
        | Keyword::Into
        | Keyword::Is
        | Keyword::Isnull
        | Keyword::Join
        | Keyword::Left
        | Keyword::Like
        | Keyword::Limit
        | Keyword::Match
        | Keyword::Natural
        | Keyword::Not
        | Keyword::Nothing
        | Keyword::Notnull
        | Keyword::Null
        | Keyword::Nulls
        | Keyword::Offset
        | Keyword::On
        | Keyword::Or
        | Keyword::Order
        | Keyword::Outer
        | Keyword::Primary
        | Keyword::References
        | Keyword::Regexp
        | Keyword::Returning
        | Keyword::Right
        | Keyword::Select
        | Keyword::Set
        | Keyword::Table
        | Keyword::Then
        | Keyword::To
        | Keyword::Transaction
        | Keyword::Union
        | Keyword::Unique
        | Keyword::Update
        | Keyword::Using
        | Keyword::Values
        | Keyword::When
        | Keyword::Where
        | Keyword::Window
        | Keyword::With => true,
    }
}

/// Whether a name is written as a reserved word, and so is quoted where it is printed.
pub fn is_reserved(name: &[u8]) -> bool
    ensures { result ≡ is_reserved_name name.now }
{
    match find_keyword(name) {
        Some(keyword) => is_reserved_keyword(keyword),
        None => false,
    }
}
