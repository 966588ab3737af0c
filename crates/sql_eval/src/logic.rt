//! Conditions of three values: true, false and unknown, where `None` is unknown.
ghost use Rattle.std.specs.Prelude.{◌≡◌};
ghost use Rattle.sql_meaning.specs.Evaluation as meant;
ghost use Rattle.sql_meaning.specs.Values as values;
ghost use Rattle.sql_value.specs.View.{plain_value, plain_collation};
ghost use Rattle.sql_bound.specs.Expressions.{plain_op};

use sql_tree::Op;
use sql_value::{Collation, Value, compare};
use std::cmp::Ordering;

/// AND.
pub(crate) fn both(left: Option<bool>, right: Option<bool>) -> Option<bool>
    ensures { result ≡ meant.and3 left right }
{
    match (left, right) {
        (Some(false), _) => Some(false),
        (Some(true), other) => other,
        (None, Some(false)) => Some(false),
        (None, _) => None,
    }
}

/// OR.
pub(crate) fn either(left: Option<bool>, right: Option<bool>) -> Option<bool>
    ensures { result ≡ meant.or3 left right }
{
    match (left, right) {
        (Some(true), _) => Some(true),
        (Some(false), other) => other,
        (None, Some(true)) => Some(true),
        (None, _) => None,
    }
}

/// NOT.
pub(crate) fn opposite(truth: Option<bool>) -> Option<bool>
    ensures { result ≡ meant.not3 truth }
{
    match truth {
        Some(known) => Some(!known),
        None => None,
    }
}

/// The form with NOT, where the flag is true.
pub(crate) fn negated_if(negated: bool, truth: Option<bool>) -> Option<bool>
    ensures { result ≡ meant.negated_if negated truth }
{
    if negated { opposite(truth) } else { truth }
}

/// A condition as a value: 1, 0 or NULL.
pub(crate) fn from_truth(truth: Option<bool>) -> Value
    ensures { plain_value result ≡ meant.from_truth truth }
{
    match truth {
        None => Value::Null,
        Some(true) => Value::Int(1),
        Some(false) => Value::Int(0),
    }
}

/// Whether the value is NULL.
pub(crate) fn is_null(value: &Value) -> bool
    ensures { result ≡ values.is_null (plain_value value.now) }
{
    matches!(value, Value::Null)
}

fn op_holds(op: Op, order: Ordering) -> bool
    ensures { result ≡ meant.op_holds (plain_op op) order }
{
    match op {
        Op::Eq => order.is_eq(),
        Op::Ne => order.is_ne(),
        Op::Lt => order.is_lt(),
        Op::Le => order.is_le(),
        Op::Gt => order.is_gt(),
        Op::Ge => order.is_ge(),
    }
}

/// A comparison, unknown where a side is NULL.
pub(crate) fn compare3(op: Op, coll: Collation, left: &Value, right: &Value) -> Option<bool>
    ensures { result
        ≡ meant.compare3 (plain_op op) (plain_collation coll) (plain_value left.now)
        (plain_value right.now) }
{
    if is_null(left) || is_null(right) {
        return None;
    }
    Some(op_holds(op, compare(coll, left, right)))
}
