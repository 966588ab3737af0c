//! OFFSET and LIMIT (<https://sqlite.org/lang_select.html>, section 2.8).
ghost use Rattle.std.specs.Prelude.{◌≡◌, map, option_map, slice_index_or};
ghost use Rattle.sql_meaning.specs.Evaluation.{param_value};
ghost use Rattle.sql_meaning.specs.Statements as meant;
ghost use Rattle.sql_meaning.specs.Values as plain;
ghost use Rattle.sql_value.specs.View.{plain_value};
ghost use Rattle.index_lists.specs.Lent.{value_or_null};
ghost use Rattle.sql_bound.specs.Statements.{bound_of, cut_of};

use sql_bound::Bound;
use sql_eval::Place;
use sql_tree::Cut;
use sql_value::{Value, Values};

/// The value of a number, if it is there.
pub(crate) fn value_at(values: &[Value], number: usize) -> Option<&Value>
    ensures { value_or_null result ≡ slice_index_or (map plain_value values.now) number plain.Null }
{
    values.get(number)
}

/// A parameter, if it is given.
fn param_at(params: &[Value], number: u32) -> Option<&Value>
    ensures { value_or_null result ≡ param_value (map plain_value params.now) number }
{
    if number == 0 {
        return None;
    }
    value_at(params, number as usize - 1)
}

/// The integer that a value is, if it is one.
fn integer_of(value: Option<&Value>) -> Option<i64>
    ensures { result ≡ meant.int_of (value_or_null value.entry) }
{
    match value {
        Some(Value::Int(number)) => Some(*number),
        _ => None,
    }
}

/// The count of an OFFSET or LIMIT.
fn cut_value(params: &Values, cut: Option<Cut>) -> Option<i64>
    ensures { result ≡ meant.cut_value (map plain_value params.now) (option_map cut_of cut) }
{
    match cut {
        Some(Cut::Count(count)) => Some(count),
        Some(Cut::Param(number)) => integer_of(param_at(params.as_slice(), number)),
        None => None,
    }
}

/// The rows behind the first ones of a count; a negative count counts as 0.
fn behind<'s, 'r>(count: Option<i64>, rows: &'s [&'r [Place]]) -> &'s [&'r [Place]]
    ensures { result.now ≡ meant.drop_cut count rows.now }
{
    match count {
        Some(count) if count >= 0 => &rows[rows.len().min(count as usize)..],
        _ => rows,
    }
}

/// The first rows of a count; a negative count makes no cut.
fn first<'s, 'r>(count: Option<i64>, rows: &'s [&'r [Place]]) -> &'s [&'r [Place]]
    ensures { result.now ≡ meant.take_cut count rows.now }
{
    match count {
        Some(count) if count >= 0 => &rows[..rows.len().min(count as usize)],
        _ => rows,
    }
}

/// The rows that the statement's OFFSET and LIMIT leave.
pub fn cut_rows<'s, 'r>(
    bound: &Bound,
    params: &Values,
    rows: &'s [&'r [Place]],
) -> &'s [&'r [Place]]
    ensures { result.now ≡ meant.cut (bound_of bound.now) (map plain_value params.now) rows.now }
{
    let rest = behind(cut_value(params, bound.offset), rows);
    first(cut_value(params, bound.limit), rest)
}
