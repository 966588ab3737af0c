//! The first construct of a statement that isn't read.
ghost use Rattle.std.specs.Prelude.{◌≡◌, ◌<◌, ◌≤◌, ◌^◌, length, map, slice_get};
ghost use Rattle.std.specs.List.{find, list_any, position_or_len};
ghost use Rattle.std.specs.Option.{option_or};
ghost use Rattle.sql_tokens.specs.Terminals.{terminal_of};
ghost use Rattle.sql_lex.specs.Constructs.{first_foreign};
ghost use Rattle.sql_lex.specs.Looks.{is_keyword};
ghost use Rattle.sql_lex.specs.Patterns.{fits, lacks_from};
ghost use Rattle.sql_lex.specs.Contexts.{somewhere};

use crate::constructs::Foreign;
use crate::contexts::{Context, context_behind, first_context};
use crate::looks::{is_keyword, peek};
use crate::patterns::fits;
use crate::row_values::has_row_value;
use sql_tokens::{Token, terminal_at};
use sql_value::Keyword;

/// The constructs that are tried before rows of values.
const EARLY: [Foreign; 27] = [
    Foreign::Insert,
    Foreign::With,
    Foreign::Values,
    Foreign::OtherStatement,
    Foreign::Subquery,
    Foreign::CompoundSelect,
    Foreign::WindowFunction,
    Foreign::Case,
    Foreign::Cast,
    Foreign::LikeEscape,
    Foreign::Glob,
    Foreign::Regexp,
    Foreign::Match,
    Foreign::CurrentTime,
    Foreign::Function,
    Foreign::GroupBy,
    Foreign::Distinct,
    Foreign::Is,
    Foreign::Concatenation,
    Foreign::BitOperator,
    Foreign::JsonOperator,
    Foreign::Arithmetic,
    Foreign::RightJoin,
    Foreign::FullJoin,
    Foreign::NaturalJoin,
    Foreign::Using,
    Foreign::ParenthesizedJoin,
];

/// And those behind.
const LATE: [Foreign; 7] = [
    Foreign::IndexedBy,
    Foreign::Returning,
    Foreign::UpdateFrom,
    Foreign::UpdateOr,
    Foreign::LimitOnChange,
    Foreign::NullsFirstOrLast,
    Foreign::QualifiedTable,
];

/// How many constructs stand before the first that stands at a place.
fn first_fitting(constructs: &[Foreign], context: Context) -> usize
    ensures inside { result ≤ length constructs.now }
    ensures same { result ≡ position_or_len (λ f. fits f context) constructs.now }
{
    for (number, construct) in constructs.iter().enumerate() {
        if fits(*construct, context) {
            return number;
        }
    }
    constructs.len()
}

/// The construct of this number; what was found before, where there is none.
fn construct_or(constructs: &[Foreign], number: usize, found: Option<Foreign>) -> Option<Foreign>
    ensures { result ≡ option_or (slice_get constructs.now number) found }
{
    if number < constructs.len() {
        Some(constructs[number])
    } else {
        found
    }
}

/// The first of these constructs that stands at some place. One pass: behind a place, only those
/// before the first that stands there are still asked for.
fn first_standing(constructs: &[Foreign], text: &[u8], tokens: &[Token]) -> Option<Foreign>
    requires { length tokens.now < 2 ^ 32 }
    ensures { result ≡
        find (λ f. somewhere (fits f) (map (terminal_of text.now) tokens.now)) constructs.now }
{
    let mut found = None;
    let mut wanted = constructs;
    let mut context = first_context(text, tokens);
    for (number, _) in tokens.iter().enumerate() {
        let fitting = first_fitting(wanted, context);
        found = construct_or(wanted, fitting, found);
        wanted = &wanted[..fitting];
        context = context_behind(context, peek(text, tokens, number + 5));
    }
    found
}

/// Whether FROM stands anywhere.
fn has_from(text: &[u8], tokens: &[Token]) -> bool
    ensures { result ≡ list_any (λ t. is_keyword Keyword.From (Some t))
        (map (terminal_of text.now) tokens.now) }
{
    for token in tokens {
        if is_keyword(Keyword::From, Some(terminal_at(text, *token))) {
            return true;
        }
    }
    false
}

/// Whether the statement is a query without a FROM.
fn lacks_from(text: &[u8], tokens: &[Token]) -> bool
    ensures { result ≡ lacks_from (map (terminal_of text.now) tokens.now) }
{
    is_keyword(Keyword::Select, peek(text, tokens, 0)) && !has_from(text, tokens)
}

/// The first construct that a statement has of those that SQLite reads and this program doesn't.
/// The tokens are those of one statement. A few passes, and no memory.
///
/// <https://www.sqlite.org/lang_select.html>, <https://www.sqlite.org/lang_update.html>,
/// <https://www.sqlite.org/lang_delete.html> and <https://www.sqlite.org/lang_expr.html>
pub fn foreign(text: &[u8], tokens: &[Token]) -> Option<Foreign>
    requires { length tokens.now < 2 ^ 32 }
    ensures { result ≡ first_foreign text.now tokens.now }
{
    if let Some(early) = first_standing(&EARLY, text, tokens) {
        return Some(early);
    }
    if has_row_value(text, tokens) {
        return Some(Foreign::RowValue);
    }
    if let Some(late) = first_standing(&LATE, text, tokens) {
        return Some(late);
    }
    if lacks_from(text, tokens) {
        Some(Foreign::SelectWithoutFrom)
    } else {
        None
    }
}
