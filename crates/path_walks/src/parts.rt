//! Equality parts, and the keys whose stretches they take.
ghost use Rattle.std.specs.Prelude.{◌≡◌, ◌≤◌, ◌<◌, [], ◌∷◌, length, map, slice_get, Some, IfOk};
ghost use Rattle.sql_meaning.specs.Values as plain;
ghost use Rattle.sql_value.specs.View.{plain_value};
ghost use Rattle.path_walks.specs.Columns.{plain_sort_column};
ghost use Rattle.path_walks.specs.Keys.{keys_of, keys_for, lent_values, lent_keys};
ghost use Rattle.path_walks.specs.Parts.{plain_part};

use crate::columns::{SortColumn, column_at, is_null};
use crate::in_keys::walked_keys;
use sql_value::{Memory, Value, Values, push};
use std::alloc::Global;

/// An equality part, its keys already values.
#[derive(Drop)]
pub enum Part {
    /// `= key`
    One(Value),
    /// `IN (keys)`
    Many(Values),
    /// `IS NULL`
    Null,
}

fn one_key<'k>(alloc: Global, key: &'k Value) -> Result<Vec<&'k Value>, Memory>
    ensures { IfOk result (λ keys. lent_values keys.items ≡ plain_value key.now ∷ []) }
{
    let mut keys = Vec::new(alloc);
    push(&mut keys, key)?;
    Ok(keys)
}

/// The keys whose stretches a part takes; `null` is NULL, for the stretch of IS NULL.
fn part_keys<'k>(
    alloc: Global,
    column: SortColumn,
    part: &'k Part,
    null: &'k Value,
) -> Result<Vec<&'k Value>, Memory>
    requires { plain_value null.now ≡ plain.Null }
    ensures { IfOk result (λ keys. lent_values keys.items
        ≡ keys_of (plain_sort_column column) (plain_part part.now)) }
{
    match part {
        Part::One(key) => {
            if is_null(key) {
                return Ok(Vec::new(alloc));
            }
            let keys = one_key(alloc, key)?;
            Ok(keys)
        }
        Part::Many(keys) => {
            let walked = walked_keys(alloc, column, keys.as_slice())?;
            Ok(walked)
        }
        Part::Null => {
            let keys = one_key(alloc, null)?;
            Ok(keys)
        }
    }
}

/// For each column that a part stands on, the keys whose stretches are taken; `null` is NULL.
pub(crate) fn keys_of_parts<'k>(
    alloc: Global,
    columns: &[SortColumn],
    parts: &'k [Part],
    null: &'k Value,
) -> Result<Vec<Vec<&'k Value>>, Memory>
    requires few { length parts.now ≤ length columns.now }
    requires null { plain_value null.now ≡ plain.Null }
    ensures counted { IfOk result (λ keys. length keys.items ≡ length parts.now) }
    ensures keys { IfOk result (λ keys. lent_keys keys.items
        ≡ keys_for (map plain_sort_column columns.now) (map plain_part parts.now)) }
{
    let mut keys = Vec::new(alloc);
    for (number, part) in parts.iter().enumerate() {
        let column = column_at(columns, number);
        let list = part_keys(alloc, column, part, null)?;
        keys.push(list)?;
    }
    Ok(keys)
}
