//! Columns of items, and the affinity and collation that a column has of its own.
ghost use Rattle.std.specs.Prelude.{◌≡◌, map, option_map, slice_get};
ghost use Rattle.sql_meaning.specs.Expressions as meant;
ghost use Rattle.sql_meaning.specs.Items.{own_column, table_column};
ghost use Rattle.sql_meaning.specs.Orders.{same_site};
ghost use Rattle.sql_meaning.specs.Schemas.{column_or};
ghost use Rattle.schema_model.specs.PlainSchemas.{plain_schema, plain_column};
ghost use Rattle.sql_bound.specs.Columns.{column_ref_of, site_of, table_column_of};
ghost use Rattle.sql_bound.specs.Expressions.{expr_of};
ghost use Rattle.sql_bound.specs.Statements.{item_of};

use crate::{BExpr, BItem};
use schema_model::{Column, Schema, Table};
use sql_value::{Affinity, Collation};

/// A column of an item. `None` is the item's rowid.
#[derive(Clone, Copy)]
pub struct ColumnRef {
    pub item: u32,
    pub column: Option<u32>,
}

/// Whether two numbers are of the same column of an item; none is the rowid.
pub fn is_same_column(left: Option<u32>, right: Option<u32>) -> bool
    ensures { result ≡ same_site (site_of left) (site_of right) }
{
    match (left, right) {
        (None, None) => true,
        (Some(left), Some(right)) => left == right,
        (None, Some(_)) => false,
        (Some(_), None) => false,
    }
}

/// What a column owns: what is applied to its values, and the collation that they compare by.
#[derive(Clone, Copy)]
pub struct TableColumn {
    pub affinity: Affinity,
    pub coll: Collation,
}

/// The column that an expression is. Takes no memory.
pub fn plain_column(expr: &BExpr) -> Option<ColumnRef>
    ensures { option_map column_ref_of result ≡ meant.plain_column (expr_of expr.now) }
{
    match expr {
        BExpr::Column { item, column } => Some(ColumnRef {
            item: *item,
            column: Some(*column),
        }),
        BExpr::Rowid { item } => Some(ColumnRef {
            item: *item,
            column: None,
        }),
        _ => None,
    }
}

/// The column that an expression is, alone or directly under COLLATE. Takes no memory.
pub fn bare_column(expr: &BExpr) -> Option<ColumnRef>
    ensures { option_map column_ref_of result ≡ meant.bare_column (expr_of expr.now) }
{
    match expr {
        BExpr::Collate(inner, _) => plain_column(inner),
        _ => plain_column(expr),
    }
}

fn table_at<'s>(schema: &'s Schema, number: u32) -> Option<&'s Table>
    ensures { option_map (λ table. table.now) result ≡ slice_get schema.now.tables number }
{
    if number < schema.table_count() {
        Some(schema.table(number))
    } else {
        None
    }
}

fn column_at<'s>(schema: &'s Schema, items: &[BItem], item: u32, column: u32) -> Option<&'s Column>
    ensures { column_or (option_map (λ found. plain_column found.now) result)
        ≡ table_column (plain_schema schema.now) (slice_get (map item_of items.now) item) column }
{
    let table = table_at(schema, items.get(item as usize)?.table)?;
    table.columns.as_slice().get(column as usize)
}

/// What is declared of a column; one that isn't there has no affinity and compares as bytes.
fn declared(schema: &Schema, items: &[BItem], item: u32, column: u32) -> TableColumn
    ensures { table_column_of result
        ≡ table_column (plain_schema schema.now) (slice_get (map item_of items.now) item) column }
{
    match column_at(schema, items, item, column) {
        Some(found) => TableColumn {
            affinity: found.affinity,
            coll: found.coll,
        },
        None => TableColumn {
            affinity: Affinity::Blob,
            coll: Collation::Binary,
        },
    }
}

/// What a column owns. The rowid has affinity INTEGER and compares as bytes
/// (<https://sqlite.org/datatype3.html>, sections 3.1 and 7.1). Takes no memory.
pub fn own_column(schema: &Schema, items: &[BItem], of: ColumnRef) -> TableColumn
    ensures { table_column_of result
        ≡ own_column (plain_schema schema.now) (map item_of items.now) (column_ref_of of) }
{
    match of.column {
        Some(column) => declared(schema, items, of.item, column),
        None => TableColumn {
            affinity: Affinity::Integer,
            coll: Collation::Binary,
        },
    }
}
