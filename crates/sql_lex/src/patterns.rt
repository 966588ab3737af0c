//! Where each construct stands that isn't read.
ghost use Rattle.std.specs.Prelude.{◌≡◌};
ghost use Rattle.sql_lex.specs.Patterns.{fits, fits_other_statement, fits_subquery};
ghost use Rattle.sql_lex.specs.Patterns.{fits_window_function, fits_is, fits_arithmetic};
ghost use Rattle.sql_lex.specs.Patterns.{fits_qualified_table};

use crate::constructs::Foreign;
use crate::contexts::Context;
use crate::looks::{
    is_free_word, is_keyword, is_keyword_among, is_name, is_number, is_operand_end, is_symbol,
    is_symbol_among,
};
use sql_tokens::Symbol;
use sql_value::Keyword;

/// The statement is none of a query, an UPDATE and a DELETE.
#[tactic(auto, unfolding(crate::specs::Patterns::fits_other_statement))]
fn fits_other_statement(context: Context) -> bool
    ensures { result ≡ fits_other_statement context }
{
    is_keyword_among(
        &[
            Keyword::Create,
            Keyword::Drop,
            Keyword::Alter,
            Keyword::Pragma,
            Keyword::Begin,
            Keyword::Commit,
            Keyword::End,
            Keyword::Rollback,
            Keyword::Savepoint,
            Keyword::Release,
            Keyword::Attach,
            Keyword::Detach,
            Keyword::Analyze,
            Keyword::Reindex,
            Keyword::Vacuum,
            Keyword::Explain,
        ],
        context.first,
    )
}

/// A query in parentheses, EXISTS, or IN without a list.
#[tactic(auto, unfolding(crate::specs::Patterns::fits_subquery))]
fn fits_subquery(context: Context) -> bool
    ensures { result ≡ fits_subquery context }
{
    (is_symbol(Symbol::OpenParenthesis, context.here)
        && is_keyword_among(
            &[Keyword::Select, Keyword::With, Keyword::Values],
            context.next,
        ))
        || is_keyword(Keyword::Exists, context.here)
        || (is_keyword(Keyword::In, context.here)
            && !is_symbol(Symbol::OpenParenthesis, context.next))
}

/// A window, or a function over one or with a filter.
#[tactic(auto, unfolding(crate::specs::Patterns::fits_window_function))]
fn fits_window_function(context: Context) -> bool
    ensures { result ≡ fits_window_function context }
{
    is_keyword(Keyword::Window, context.here)
        || (is_symbol(Symbol::CloseParenthesis, context.here)
            && is_keyword_among(&[Keyword::Over, Keyword::Filter], context.next)
            && is_symbol(Symbol::OpenParenthesis, context.second))
}

/// IS with neither NULL nor NOT NULL behind it.
#[tactic(auto, unfolding(crate::specs::Patterns::fits_is))]
fn fits_is(context: Context) -> bool
    ensures { result ≡ fits_is context }
{
    is_keyword(Keyword::Is, context.here)
        && !(is_keyword(Keyword::Null, context.next)
            || (is_keyword(Keyword::Not, context.next)
                && is_keyword(Keyword::Null, context.second)))
}

/// An operator on numbers: not the `*` of a result, nor a sign before a number or an operand.
#[tactic(auto, unfolding(crate::specs::Patterns::fits_arithmetic))]
fn fits_arithmetic(context: Context) -> bool
    ensures { result ≡ fits_arithmetic context }
{
    let is_result_star = is_keyword_among(&[Keyword::Select, Keyword::All], context.before)
        || is_symbol_among(
            &[Symbol::Comma, Symbol::Point, Symbol::OpenParenthesis],
            context.before,
        );
    is_symbol_among(&[Symbol::Slash, Symbol::Percent], context.here)
        || (is_symbol(Symbol::Star, context.here) && !is_result_star)
        || (is_symbol_among(&[Symbol::Plus, Symbol::Minus], context.here)
            && is_operand_end(context.before))
        || (is_symbol(Symbol::Minus, context.here) && !is_number(context.next))
}

/// A table's name behind that of its database; or a column's behind both.
#[tactic(auto, unfolding(crate::specs::Patterns::fits_qualified_table))]
fn fits_qualified_table(context: Context) -> bool
    ensures { result ≡ fits_qualified_table context }
{
    (is_keyword_among(
        &[Keyword::From, Keyword::Join, Keyword::Update],
        context.here,
    ) && is_name(context.next)
        && is_symbol(Symbol::Point, context.second))
        || (is_name(context.here)
            && is_symbol(Symbol::Point, context.next)
            && is_name(context.second)
            && is_symbol(Symbol::Point, context.third)
            && is_name(context.fourth))
}

/// Whether a construct stands at a place. Rows of values and the want of a FROM are asked of the
/// whole statement.
#[tactic(auto, unfolding(crate::specs::Patterns::fits))]
pub(crate) fn fits(construct: Foreign, context: Context) -> bool
    ensures { result ≡ fits construct context }
{
    match construct {
        Foreign::Insert => is_keyword_among(&[Keyword::Insert, Keyword::Replace], context.first),
        Foreign::With => is_keyword(Keyword::With, context.first),
        Foreign::Values => is_keyword(Keyword::Values, context.first),
        Foreign::OtherStatement => fits_other_statement(context),
        Foreign::Subquery => fits_subquery(context),
        Foreign::CompoundSelect => is_keyword_among(
            &[Keyword::Union, Keyword::Intersect, Keyword::Except],
            context.here,
        ),
        Foreign::WindowFunction => fits_window_function(context),
        Foreign::Case => is_keyword(Keyword::Case, context.here),
        Foreign::Cast => {
            is_keyword(Keyword::Cast, context.here)
                && is_symbol(Symbol::OpenParenthesis, context.next)
        }
        Foreign::LikeEscape => is_keyword(Keyword::Escape, context.here),
        Foreign::Glob => is_keyword(Keyword::Glob, context.here),
        Foreign::Regexp => is_keyword(Keyword::Regexp, context.here),
        Foreign::Match => is_keyword(Keyword::Match, context.here),
        Foreign::CurrentTime => is_keyword_among(
            &[
                Keyword::CurrentDate,
                Keyword::CurrentTime,
                Keyword::CurrentTimestamp,
            ],
            context.here,
        ),
        Foreign::Function => is_free_word(context.here)
            && is_symbol(Symbol::OpenParenthesis, context.next),
        Foreign::GroupBy => is_keyword_among(&[Keyword::Group, Keyword::Having], context.here),
        Foreign::Distinct => {
            is_keyword(Keyword::Select, context.here) && is_keyword(Keyword::Distinct, context.next)
        }
        Foreign::Is => fits_is(context),
        Foreign::Concatenation => is_symbol(Symbol::Concatenation, context.here),
        Foreign::BitOperator => is_symbol_among(
            &[
                Symbol::BitOr,
                Symbol::BitAnd,
                Symbol::ShiftLeft,
                Symbol::ShiftRight,
                Symbol::BitNot,
            ],
            context.here,
        ),
        Foreign::JsonOperator => is_symbol_among(&[Symbol::Arrow, Symbol::LongArrow], context.here),
        Foreign::Arithmetic => fits_arithmetic(context),
        Foreign::RightJoin => is_keyword(Keyword::Right, context.here),
        Foreign::FullJoin => is_keyword(Keyword::Full, context.here),
        Foreign::NaturalJoin => is_keyword(Keyword::Natural, context.here),
        Foreign::Using => is_keyword(Keyword::Using, context.here),
        Foreign::ParenthesizedJoin => {
            is_keyword_among(&[Keyword::From, Keyword::Join], context.here)
                && is_symbol(Symbol::OpenParenthesis, context.next)
        }
        Foreign::IndexedBy => is_keyword(Keyword::Indexed, context.here),
        Foreign::Returning => is_keyword(Keyword::Returning, context.here),
        Foreign::UpdateFrom => {
            is_keyword(Keyword::Update, context.first) && is_keyword(Keyword::From, context.here)
        }
        Foreign::UpdateOr => {
            context.before.is_none()
                && is_keyword(Keyword::Update, context.here)
                && is_keyword(Keyword::Or, context.next)
        }
        Foreign::LimitOnChange => {
            is_keyword_among(&[Keyword::Update, Keyword::Delete], context.first)
                && is_keyword_among(&[Keyword::Order, Keyword::Limit], context.here)
        }
        Foreign::NullsFirstOrLast => is_keyword(Keyword::Nulls, context.here),
        Foreign::QualifiedTable => fits_qualified_table(context),
        Foreign::RowValue | Foreign::SelectWithoutFrom => false,
    }
}
