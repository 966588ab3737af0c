//! Whether rows are a database of a schema. No call here takes memory.
ghost use Rattle.std.specs.Prelude.{◌≡◌, ◌↔◌, true, map, option_map, slice_index_or};
ghost use Rattle.std.specs.List.{AllByRecursion};
ghost use Rattle.sql_meaning.specs.Conversions.{IsFixed, narrowed, widened, written};
ghost use Rattle.sql_meaning.specs.Conversions.{with_text_read};
ghost use Rattle.sql_meaning.specs.Schemas.{AliasHolds, RisingRows};
ghost use Rattle.sql_meaning.specs.Values as plain;
ghost use Rattle.sql_meaning.specs.Values.{IsBytes, IsI64, IsValue};
ghost use Rattle.sql_value.specs.View.{plain_affinity, plain_value};
ghost use Rattle.schema_model.specs.Databases.{IsDatabase};
ghost use Rattle.schema_model.specs.HeldRows.{AreHeld, AreRows, AreRowsOf, IsHeld, IsHeldRow};
ghost use Rattle.schema_model.specs.PlainSchemas.{plain_database, plain_row, plain_rows};
ghost use Rattle.schema_model.specs.RisingRowids as meant;

use crate::columns::Column;
use crate::rows::{Row, RowList, Tables};
use crate::schema::Schema;
use crate::tables::Table;
use sql_value::{Affinity, Value, read_number};

/// A law: a number of 64 bits is within them.
fn number_is_within(number: i64)
    ensures { IsI64 number }
{}

/// A law: a byte is below 256.
fn bytes_are_within(bytes: &[u8])
    ensures { IsBytes bytes.now }
{}

/// Whether a value is within its bounds, which only a decimal can pass.
fn is_within(value: &Value) -> bool
    ensures { (result ≡ true) ↔ IsValue (plain_value value.now) }
{
    match value {
        Value::Null => true,
        Value::Int(number) => {
            number_is_within(*number);
            true
        }
        Value::Dec(units) => units.unsigned_abs() < 1_000_000_000_000_000,
        Value::Text(bytes) => {
            bytes_are_within(bytes.as_slice());
            true
        }
        Value::Blob(bytes) => {
            bytes_are_within(bytes.as_slice());
            true
        }
    }
}

/// Whether affinity INTEGER or NUMERIC leaves a value as it is.
fn is_narrow(value: &Value) -> bool
    ensures { (result ≡ true) ↔ (narrowed (with_text_read (plain_value value.now))
        ≡ plain_value value.now) }
{
    match value {
        Value::Dec(units) => *units % 10000 != 0,
        Value::Text(text) => read_number(text.as_slice()).is_none(),
        _ => true,
    }
}

/// Whether affinity REAL leaves a value as it is.
fn is_wide(value: &Value) -> bool
    ensures { (result ≡ true) ↔ (widened (with_text_read (plain_value value.now))
        ≡ plain_value value.now) }
{
    match value {
        Value::Int(number) => number.unsigned_abs() >= 100_000_000_000,
        Value::Text(text) => read_number(text.as_slice()).is_none(),
        _ => true,
    }
}

/// Whether affinity TEXT leaves a value as it is.
fn is_no_number(value: &Value) -> bool
    ensures { (result ≡ true) ↔ (written (plain_value value.now) ≡ plain_value value.now) }
{
    !matches!(value, Value::Int(_) | Value::Dec(_))
}

/// Whether an affinity leaves a value as it is.
fn is_fixed(aff: Affinity, value: &Value) -> bool
    ensures { (result ≡ true) ↔ IsFixed (plain_affinity aff) (plain_value value.now) }
{
    match aff {
        Affinity::Integer | Affinity::Numeric => is_narrow(value),
        Affinity::Real => is_wide(value),
        Affinity::Text => is_no_number(value),
        Affinity::Blob => true,
    }
}

fn is_held(column: &Column, value: &Value) -> bool
    ensures { (result ≡ true) ↔ IsHeld column.now (plain_value value.now) }
{
    is_within(value) && is_fixed(column.affinity, value)
}

/// Whether there is a value for each column, which may hold it.
fn are_held(columns: &[Column], values: &[Value]) -> bool
    ensures { (result ≡ true) ↔ AreHeld columns.now (map plain_value values.now) }
{
    if columns.len() != values.len() {
        return false;
    }
    for (number, column) in columns.iter().enumerate() {
        if !is_held(column, &values[number]) {
            return false;
        }
    }
    true
}

/// Whether the alias column, if there is one, holds the rowid.
fn alias_holds(alias: Option<u32>, row: &Row) -> bool
    ensures { (result ≡ true) ↔ AliasHolds alias (plain_row row.now) }
{
    match alias {
        None => true,
        Some(number) => is_rowid(row.values.as_slice(), number as usize, row.rowid),
    }
}

fn is_rowid(values: &[Value], number: usize, rowid: i64) -> bool
    ensures { (result ≡ true) ↔ (slice_index_or (map plain_value values.now) number plain.Null
        ≡ plain.Int rowid) }
{
    match values.get(number) {
        Some(Value::Int(held)) => *held == rowid,
        _ => false,
    }
}

fn is_held_row(table: &Table, row: &Row) -> bool
    ensures { (result ≡ true) ↔ IsHeldRow table.now (plain_row row.now) }
{
    number_is_within(row.rowid);
    are_held(table.columns.as_slice(), row.values.as_slice()) && alias_holds(table.alias, row)
}

fn are_held_rows(table: &Table, rows: &[Row]) -> bool
    ensures { (result ≡ true) ↔ AllByRecursion (IsHeldRow table.now) (plain_rows rows.now) }
{
    for row in rows {
        if !is_held_row(table, row) {
            return false;
        }
    }
    true
}

fn follows(last: Option<&Row>, row: &Row) -> bool
    ensures { result ≡ meant.follows (option_map (λ before. before.now.rowid) last.entry)
        row.now.rowid }
{
    match last {
        Some(before) => before.rowid < row.rowid,
        None => true,
    }
}

/// Whether rowids rise from one row to the next.
fn are_rising(rows: &[Row]) -> bool
    ensures { (result ≡ true) ↔ RisingRows (plain_rows rows.now) }
{
    let mut last = None;
    for row in rows {
        if !follows(last, row) {
            return false;
        }
        last = Some(row);
    }
    true
}

fn are_rows_of(table: &Table, rows: &[Row]) -> bool
    ensures { (result ≡ true) ↔ AreRowsOf table.now (plain_rows rows.now) }
{
    are_rising(rows) && are_held_rows(table, rows)
}

/// Whether there is a list of rows for each table, which may stand in it.
fn are_rows(tables: &[Table], lists: &[RowList]) -> bool
    ensures { (result ≡ true) ↔ AreRows tables.now (plain_database lists.now) }
{
    if tables.len() != lists.len() {
        return false;
    }
    for (number, table) in tables.iter().enumerate() {
        if !are_rows_of(table, lists[number].as_slice()) {
            return false;
        }
    }
    true
}

/// Whether rows are a database of a schema: a list for each table, by rising rowid, of values
/// within their bounds that the affinities of their columns leave as they are
/// (<https://sqlite.org/datatype3.html>, section 3), with the rowid in the column that is its
/// alias. UNIQUE and NOT NULL are not asked. Takes no memory.
pub fn conforms(schema: &Schema, tables: &Tables) -> bool
    ensures { (result ≡ true) ↔ IsDatabase schema.now tables.now }
{
    are_rows(schema.tables.as_slice(), tables.as_slice())
}
