//! What an expression reads: columns, rowids and parameters, without copies.
ghost use Rattle.std.specs.Prelude.{◌≡◌, IfOk, IsSomeAnd, option_map, slice_get};
ghost use Rattle.sql_meaning.specs.Evaluation.{param_value};
ghost use Rattle.sql_meaning.specs.Conversions.{converted_by};
ghost use Rattle.sql_meaning.specs.Rows.{AtRowid, AtColumn, cell};
ghost use Rattle.sql_tree.specs.Trees.{literal_value};
ghost use Rattle.sql_value.specs.View.{plain_value, plain_affinity};
ghost use Rattle.schema_model.specs.PlainSchemas.{plain_database};
ghost use Rattle.schema_model.specs.PlainSchemas.{plain_row};
ghost use Rattle.sql_eval.specs.Environments.{assignment_of, params_of, placed_row};
ghost use Rattle.sql_eval.specs.Environments.{IsPlace, HasColumn};
ghost use Rattle.sql_eval.specs.Seen.{seen_value};

use crate::{Env, Place};
use schema_model::Row;
use sql_tree::Lit;
use sql_value::{Affinity, Bytes, Memory, Value, apply, convert};
use std::alloc::Global;

/// A value: one that the tables or the parameters hold, or a new one.
#[derive(Drop)]
pub(crate) enum Seen<'e> {
    Held(&'e Value),
    Made(Value),
}

impl<'e> Seen<'e> {
    pub(crate) fn as_value(&self) -> &Value
        ensures { plain_value result.now ≡ seen_value self.now }
    {
        match self {
            Seen::Held(value) => value,
            Seen::Made(value) => value,
        }
    }

    /// The value as its own, copied where it is held elsewhere.
    pub(crate) fn into_value(self, alloc: Global) -> Result<Value, Memory>
        ensures { IfOk result (λ value. plain_value value ≡ seen_value self.entry) }
    {
        match self {
            Seen::Held(value) => value.try_copy(alloc),
            Seen::Made(value) => Ok(value),
        }
    }

    /// The value under a conversion; it stays as it is where there is none.
    pub(crate) fn converted(self, alloc: Global, conv: Option<Affinity>) -> Result<Self, Memory>
        ensures { IfOk result (λ made.
            seen_value made ≡ converted_by (option_map plain_affinity conv)
            (seen_value self.entry)) }
    {
        let Some(aff) = conv else {
            return Ok(self);
        };
        Ok(Seen::Made(match self {
            Seen::Held(value) => apply(alloc, aff, value)?,
            Seen::Made(value) => convert(alloc, aff, value)?,
        }))
    }
}

/// The value of a constant.
pub(crate) fn literal(alloc: Global, lit: Lit) -> Result<Value, Memory>
    ensures { IfOk result (λ value. plain_value value ≡ literal_value lit.entry) }
{
    Ok(match lit {
        Lit::Null => Value::Null,
        Lit::Int(number) => Value::Int(number),
        Lit::Dec(units) => Value::Dec(units),
        Lit::Text(bytes) => Value::Text(Bytes::copy(alloc, bytes)?),
        Lit::Blob(bytes) => Value::Blob(Bytes::copy(alloc, bytes)?),
    })
}

/// A parameter, NULL where it isn't given.
pub(crate) fn param<'e>(env: &Env<'e>, number: u32) -> Seen<'e>
    ensures { seen_value result ≡ param_value (params_of env.now) number }
{
    if number == 0 {
        return Seen::Made(Value::Null);
    }
    match env.params.as_slice().get(number as usize - 1) {
        Some(value) => Seen::Held(value),
        None => Seen::Made(Value::Null),
    }
}

/// The row at a place, `None` where there is none.
fn row_at<'e>(env: &Env<'e>, place: &Place) -> Option<&'e Row>
    requires { IsPlace (plain_database env.now.tables.now) place.now }
    ensures { option_map (λ row. plain_row row.now) result
        ≡ placed_row (plain_database env.now.tables.now) place.now }
{
    let number = place.row?;
    let rows = &env.tables.as_slice()[place.table as usize];
    Some(&rows.as_slice()[number as usize])
}

/// What a column of an item holds, NULL where the item has no row.
pub(crate) fn column<'e>(env: &Env<'e>, item: u32, column: u32) -> Seen<'e>
    requires { let database = plain_database env.now.tables.now in
        IsSomeAnd (slice_get env.now.places.now item)
        (λ place. IsPlace database place × HasColumn database column place) }
    ensures { seen_value result ≡ cell (assignment_of env.now) item (AtColumn column) }
{
    match row_at(env, &env.places[item as usize]) {
        Some(row) => Seen::Held(&row.values.as_slice()[column as usize]),
        None => Seen::Made(Value::Null),
    }
}

/// The rowid of an item's row, NULL where the item has no row.
pub(crate) fn rowid(env: &Env, item: u32) -> Value
    requires { IsSomeAnd (slice_get env.now.places.now item)
        (IsPlace (plain_database env.now.tables.now)) }
    ensures { plain_value result ≡ cell (assignment_of env.now) item AtRowid }
{
    match row_at(env, &env.places[item as usize]) {
        Some(row) => Value::Int(row.rowid),
        None => Value::Null,
    }
}
