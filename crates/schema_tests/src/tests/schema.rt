//! Each public call once where memory is ample: a schema of a table, an unread table and an index.
ghost use Rattle.std.specs.Prelude.{◌≡◌, ◌<◌, ◌^◌, false, true, IfOk};
ghost use Rattle.sql_meaning.specs.Letters.{folded_bytes};
ghost use Rattle.schema_model.specs.Schemas.{IsTable, IsIndexOf, is_taken, size};

use schema_model::{
    COLUMN_LIMIT, Column, Columns, Found, Index, IndexColumn, IndexColumns, Row, RowList, Schema,
    Table, Tables, add_index, add_table, add_unread, conforms, find_column, find_table, name_taken,
    print_create,
};
use sql_value::{Affinity, Bytes, Collation, Memory, Value, Values, fold};
use std::alloc::Global;
use std::test::Fail;

fn column(alloc: Global, name: &[u8], affinity: Affinity, coll: Collation) -> Result<Column, Memory>
    ensures { IfOk result (λ column. column.name ≡ name.now) }
{
    Ok(Column {
        name: Bytes::copy(alloc, name)?,
        affinity,
        coll,
    })
}

/// `item(id INTEGER PRIMARY KEY, Title TEXT COLLATE NOCASE, price REAL)`
fn item(alloc: Global) -> Result<Table, Memory>
    ensures { IfOk result IsTable }
{
    let mut columns = Columns::new(alloc);
    columns.push(column(alloc, b"id", Affinity::Integer, Collation::Binary)?)?;
    columns.push(column(alloc, b"Title", Affinity::Text, Collation::Nocase)?)?;
    columns.push(column(alloc, b"price", Affinity::Real, Collation::Binary)?)?;
    Ok(Table {
        name: Bytes::copy(alloc, b"Item")?,
        columns,
        alias: Some(0),
    })
}

fn is_free(alloc: Global, schema: &Schema, name: &[u8]) -> Result<bool, Memory>
    ensures free { IfOk result (λ free. free ≡ true
        → is_taken schema.now (folded_bytes name.now) ≡ false) }
    ensures room { IfOk result (λ free. free ≡ true → size schema.now < 2 ^ 31) }
{
    let folded = fold(alloc, name)?;
    let count = schema.table_count() as u64 + schema.unread_count() as u64;
    Ok(count + (schema.index_count() as u64) < 1 << 31 && !name_taken(schema, folded.as_slice()))
}

fn add_item(alloc: Global, schema: &mut Schema) -> Result<(), Memory> {
    let table = item(alloc)?;
    if !is_free(alloc, schema, table.name.as_slice())? {
        return Err(Memory);
    }
    add_table(alloc, schema, table)
}

fn add_view(alloc: Global, schema: &mut Schema) -> Result<(), Memory> {
    let name = Bytes::copy(alloc, b"v")?;
    if !is_free(alloc, schema, name.as_slice())? {
        return Err(Memory);
    }
    add_unread(alloc, schema, name)
}

/// The table `Item`, the unread table `v`, and an index `by_title` on the falling title.
fn shop(alloc: Global) -> Result<Schema, Memory> {
    let mut schema = Schema::new(alloc)?;
    add_item(alloc, &mut schema)?;
    add_view(alloc, &mut schema)?;
    add_by_title(alloc, &mut schema)?;
    schema.try_copy(alloc)
}

/// An index on the falling titles of the first table, if there is one of two columns.
fn by_title(alloc: Global, schema: &Schema) -> Result<Index, Memory>
    ensures { IfOk result (IsIndexOf schema.now.tables) }
{
    if schema.table_count() == 0 || schema.table(0).columns.as_slice().len() < 2 {
        return Err(Memory);
    }
    let mut columns = IndexColumns::new(alloc);
    columns.push(IndexColumn {
        column: 1,
        coll: Collation::Binary,
        desc: true,
    })?;
    Ok(Index {
        name: Bytes::copy(alloc, b"by_title")?,
        table: 0,
        columns,
        unique: false,
        usable: true,
    })
}

fn add_by_title(alloc: Global, schema: &mut Schema) -> Result<(), Memory> {
    let index = by_title(alloc, schema)?;
    if !is_free(alloc, schema, index.name.as_slice())? {
        return Err(Memory);
    }
    add_index(alloc, schema, index)
}

fn finds_names(schema: &Schema) -> bool {
    find_table(schema, b"item") == Found::Read(0)
        && find_table(schema, b"v") == Found::Unread
        && find_table(schema, b"by_title") == Found::Missing
        && find_table(schema, b"title") == Found::Missing
        && name_taken(schema, b"item")
        && name_taken(schema, b"v")
        && name_taken(schema, b"by_title")
        && !name_taken(schema, b"title")
}

fn has_one_of_each(schema: &Schema) -> bool {
    schema.table_count() == 1 && schema.unread_count() == 1 && schema.index_count() == 1
}

/// The number of a column of the first table.
fn place_of(schema: &Schema, name: &[u8]) -> Option<u32> {
    if schema.table_count() == 0 || schema.table(0).columns.as_slice().len() > COLUMN_LIMIT {
        return None;
    }
    find_column(schema.table(0), name)
}

fn first_is_usable(schema: &Schema) -> bool {
    schema.index_count() > 0 && schema.index(0).usable
}

fn prints_an_index(alloc: Global, schema: &Schema) -> Result<bool, Memory> {
    let index = by_title(alloc, schema)?;
    let text = print_create(alloc, schema, &index)?;
    let want: &[u8] = b"CREATE INDEX by_title ON Item(Title COLLATE BINARY DESC)";
    Ok(text.as_slice() == want)
}

#[test]
fn parts_are_found(rt: HostRuntime) -> Result<(), Fail> {
    let schema = shop(rt.alloc())?;
    assert!(rt; finds_names(&schema));
    assert!(rt; has_one_of_each(&schema));
    assert!(rt; place_of(&schema, b"title") == Some(1) && place_of(&schema, b"item").is_none());
    assert!(rt; first_is_usable(&schema));
    assert!(rt; prints_an_index(rt.alloc(), &schema)?);
    Ok(())
}

/// A price as a row holds it.
#[derive(Clone, Copy)]
enum Price<'a> {
    Missing,
    Whole(i64),
    Decimal(i64),
    Written(&'a [u8]),
}

fn priced(alloc: Global, from: Price<'_>) -> Result<Value, Memory> {
    Ok(match from {
        Price::Missing => Value::Null,
        Price::Whole(number) => Value::Int(number),
        Price::Decimal(units) => Value::Dec(units),
        Price::Written(text) => Value::Text(Bytes::copy(alloc, text)?),
    })
}

fn row(alloc: Global, rowid: i64, id: i64, from: Price<'_>) -> Result<Row, Memory> {
    let mut values = Values::new(alloc);
    values.push(Value::Int(id))?;
    values.push(Value::Null)?;
    values.push(priced(alloc, from)?)?;
    Ok(Row { rowid, values })
}

/// Row 1, and a row behind it.
fn two_rows(alloc: Global, next: Row) -> Result<RowList, Memory> {
    let mut rows = RowList::new(alloc);
    rows.push(row(alloc, 1, 1, Price::Decimal(45000))?)?;
    rows.push(next)?;
    Ok(rows)
}

/// The rows of one table.
fn one_table(alloc: Global, rows: RowList) -> Result<Tables, Memory> {
    let mut tables = Tables::new(alloc);
    tables.push(rows)?;
    Ok(tables)
}

/// Whether a row may stand in the table behind row 1.
fn may_follow(
    alloc: Global,
    schema: &Schema,
    rowid: i64,
    id: i64,
    price: Price<'_>,
) -> Result<bool, Memory> {
    let next = row(alloc, rowid, id, price)?;
    let tables = one_table(alloc, two_rows(alloc, next)?)?;
    Ok(conforms(schema, &tables))
}

fn rows_may_follow(alloc: Global, schema: &Schema) -> Result<bool, Memory> {
    Ok(
        may_follow(alloc, schema, 2, 2, Price::Decimal(45000))?
            && may_follow(alloc, schema, 2, 2, Price::Missing)?
            && may_follow(alloc, schema, 2, 2, Price::Whole(100_000_000_000))?
            && may_follow(alloc, schema, 2, 2, Price::Written(b"dear"))?,
    )
}

/// Whether a rowid stands again or falls, an alias differs from it, or a price isn't converted or
/// past its range.
fn a_row_may_follow_in_spite(alloc: Global, schema: &Schema) -> Result<bool, Memory> {
    Ok(
        may_follow(alloc, schema, 1, 1, Price::Missing)?
            || may_follow(alloc, schema, 0, 0, Price::Missing)?
            || may_follow(alloc, schema, 2, 3, Price::Missing)?
            || may_follow(alloc, schema, 2, 2, Price::Whole(4))?
            || may_follow(alloc, schema, 2, 2, Price::Written(b"4.5"))?
            || may_follow(alloc, schema, 2, 2, Price::Decimal(1_000_000_000_000_000))?,
    )
}

#[test]
fn rows_conform(rt: HostRuntime) -> Result<(), Fail> {
    let schema = shop(rt.alloc())?;
    assert!(rt; rows_may_follow(rt.alloc(), &schema)?);
    assert!(rt; !a_row_may_follow_in_spite(rt.alloc(), &schema)?);
    Ok(())
}
