//! Rows in the order of ORDER BY's keys, each of which is evaluated once for a row.
ghost use Rattle.std.specs.Prelude.{◌≡◌, map, IfOk};
ghost use Rattle.std.specs.List.{AllByRecursion};
ghost use Rattle.list_laws.specs.Order.{sort_by};
ghost use Rattle.sql_meaning.specs.Orders.{by_keys};
ghost use Rattle.sql_value.specs.View.{plain_value};
ghost use Rattle.schema_model.specs.PlainSchemas.{plain_database};
ghost use Rattle.sql_bound.specs.Statements.{bound_of, sort_key_of};
ghost use Rattle.sql_eval.specs.Environments.{GivesRows, assignment_of, params_of, placed};
ghost use Rattle.bound_rows.specs.Keys as meant;
ghost use Rattle.bound_rows.specs.Keyed.{pair_of};
ghost use Rattle.bound_rows.specs.Places.{AllFit, FitPlaces, assignments, lent};
ghost use Rattle.bound_rows.specs.Readable.{IsReadableBound};

use crate::cuts::value_at;
use crate::places::Source;
use index_lists::compare_or_null;
use sql_bound::{BKey, Bound};
use sql_eval::{Env, Place, eval};
use sql_value::{Memory, Value, Values, push};
use std::alloc::Global;
use std::cmp::Ordering;

/// Places, with the value of each key where the items have these rows.
#[derive(Drop)]
struct Keyed<'r> {
    values: Values,
    places: &'r [Place],
}

/// The order of two lists of values in their values of a number, under a key and in its direction;
/// a value that isn't there is NULL.
fn compare_at(key: &BKey, number: usize, left: &[Value], right: &[Value]) -> Ordering
    ensures { result ≡ meant.value_cmp_at (sort_key_of key.now) number
        (map plain_value left.now) (map plain_value right.now) }
{
    let (left, right) = (value_at(left, number), value_at(right, number));
    if key.desc {
        compare_or_null(key.coll, right, left)
    } else {
        compare_or_null(key.coll, left, right)
    }
}

/// The order of two lists of values: the first key under which they differ decides. Takes no memory.
fn compare_by_keys(keys: &[BKey], left: &[Value], right: &[Value]) -> Ordering
    ensures { result ≡ meant.values_cmp (map sort_key_of keys.now) (map plain_value left.now)
        (map plain_value right.now) }
{
    for (number, key) in keys.iter().enumerate() {
        let order = compare_at(key, number, left, right);
        if order != Ordering::Equal {
            return order;
        }
    }
    Ordering::Equal
}

/// The value of each key.
fn key_values(alloc: Global, keys: &[BKey], env: &Env) -> Result<Values, Memory>
    requires { AllByRecursion (λ k. GivesRows env.now k.expr) (map sort_key_of keys.now) }
    ensures { IfOk result (λ values. map plain_value values
        ≡ meant.key_values (map sort_key_of keys.now) (params_of env.now)
        (assignment_of env.now)) }
{
    let mut values = Values::new(alloc);
    for key in keys {
        let value = eval(alloc, key.expr, env)?;
        values.push(value)?;
    }
    Ok(values)
}

/// The value of each key of the statement where each item has the row at its place.
fn key_values_at(
    alloc: Global,
    source: &Source,
    bound: &Bound,
    places: &[Place],
) -> Result<Values, Memory>
    requires readable { IsReadableBound (plain_database source.now.tables.now) (bound_of bound.now) }
    requires fit { FitPlaces (plain_database source.now.tables.now) (bound_of bound.now).items
        places.now }
    ensures { IfOk result (λ values. map plain_value values
        ≡ meant.key_values (bound_of bound.now).keys (map plain_value source.now.params.now)
        (placed (plain_database source.now.tables.now) places.now)) }
{
    let env = Env {
        tables: source.tables,
        places,
        params: source.params,
    };
    let values = key_values(alloc, bound.keys, &env)?;
    Ok(values)
}

/// Each row with the values of its keys.
fn with_keys<'r>(
    alloc: Global,
    source: &Source,
    bound: &Bound,
    rows: &[&'r [Place]],
) -> Result<Vec<Keyed<'r>>, Memory>
    requires readable { IsReadableBound (plain_database source.now.tables.now) (bound_of bound.now) }
    requires fit { AllFit (plain_database source.now.tables.now) (bound_of bound.now).items
        (lent rows.now) }
    ensures { IfOk result (λ keyed. map pair_of keyed.items
        ≡ map (meant.keyed_by (plain_database source.now.tables.now)
        (bound_of bound.now).keys (map plain_value source.now.params.now)) (lent rows.now)) }
{
    let mut keyed = Vec::new(alloc);
    for places in rows {
        let values = key_values_at(alloc, source, bound, places)?;
        keyed.push(Keyed {
            values,
            places: *places,
        })?;
    }
    Ok(keyed)
}

/// The rows without their keys.
fn without_keys<'r>(alloc: Global, keyed: &[Keyed<'r>]) -> Result<Vec<&'r [Place]>, Memory>
    ensures { IfOk result (λ rows. lent rows.items ≡ map (λ each. each.places.now) keyed.now) }
{
    let mut rows = Vec::new(alloc);
    for each in keyed {
        push(&mut rows, each.places)?;
    }
    Ok(rows)
}

fn sorted_keyed<'r>(keys: &[BKey], mut keyed: Vec<Keyed<'r>>) -> Result<Vec<Keyed<'r>>, Memory>
    ensures { IfOk result (λ sorted. map pair_of sorted.items
        ≡ sort_by (meant.pairs_cmp (map sort_key_of keys.now)) (map pair_of keyed.entry.items)) }
{
    keyed.sort_by(|left, right| {
        compare_by_keys(keys, left.values.as_slice(), right.values.as_slice())
    })?;
    Ok(keyed)
}

/// The rows in the order of the statement's keys; rows that tie keep their order.
pub fn sorted_by_keys<'r>(
    alloc: Global,
    source: &Source,
    bound: &Bound,
    rows: &[&'r [Place]],
) -> Result<Vec<&'r [Place]>, Memory>
    requires readable { IsReadableBound (plain_database source.now.tables.now) (bound_of bound.now) }
    requires fit { AllFit (plain_database source.now.tables.now) (bound_of bound.now).items
        (lent rows.now) }
    ensures fit { IfOk result (λ sorted. AllFit (plain_database source.now.tables.now)
        (bound_of bound.now).items (lent sorted.items)) }
    ensures sorted { IfOk result (λ sorted.
        assignments (plain_database source.now.tables.now) (lent sorted.items)
        ≡ sort_by (by_keys (map plain_value source.now.params.now) (bound_of bound.now).keys)
        (assignments (plain_database source.now.tables.now) (lent rows.now))) }
{
    let keyed = with_keys(alloc, source, bound, rows)?;
    let sorted = sorted_keyed(bound.keys, keyed)?;
    let rows = without_keys(alloc, sorted.as_slice())?;
    Ok(rows)
}
