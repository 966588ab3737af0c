//! The indexes that PRIMARY KEY and UNIQUE make (<https://sqlite.org/fileformat2.html>,
//! "Representation Of SQL Indices").
ghost use Rattle.std.specs.Prelude.{◌≡◌, ◌+◌, ◌<◌, ◌++◌, ◌∷◌, [], length, false, true, OnOk, IfOk};
ghost use Rattle.std.specs.List.{AllByRecursion};
ghost use Rattle.sql_meaning.specs.Letters.{folded_bytes};
ghost use Rattle.schema_model.specs.Schemas.{is_taken, with_index};
ghost use Rattle.schema_read.specs.Autoindexes as meant;

use crate::state::has_room;
use indexmap::IndexSet;
use schema_model::{Column, Index, IndexColumn, IndexColumns, Schema, add_index, name_taken};
use schema_text::{KeyColumn, KeyConstraint};
use sql_value::{Bytes, Collation, Items, Memory, fold};
use std::alloc::Global;
use std::marker::Model;

/// The collation of a column's own table, where a key names none.
fn collation_of(columns: &[Column], column: KeyColumn) -> Collation
    ensures { result ≡ meant.collation_of columns.now column }
{
    match column.coll {
        Some(coll) => coll,
        None => match columns.get(column.column as usize) {
            Some(own) => own.coll,
            None => Collation::Binary,
        },
    }
}

/// The columns of a key as those of an index.
pub(crate) fn index_columns(
    alloc: Global,
    columns: &[Column],
    key: &[KeyColumn],
) -> Result<IndexColumns, Memory>
    ensures { IfOk result (λ found. found ≡ meant.index_columns columns.now key.now) }
{
    let mut found = Items::new(alloc);
    for column in key {
        found.push(IndexColumn {
            column: column.column,
            coll: collation_of(columns, *column),
            desc: column.desc,
        })?;
    }
    Ok(found)
}

fn collation_number(coll: Collation) -> u32
    ensures { result ≡ meant.collation_number coll }
{
    match coll {
        Collation::Binary => 0,
        Collation::Nocase => 1,
        Collation::Rtrim => 2,
    }
}

/// The columns of an index and their collations, as numbers: what tells two keys apart.
fn shape_of(alloc: Global, columns: &[IndexColumn]) -> Result<Vec<u32>, Memory>
    ensures { IfOk result (λ shape. shape.items ≡ meant.shape_of columns.now) }
{
    let mut shape = Vec::new(alloc);
    for column in columns {
        append_shape(&mut shape, *column)?;
    }
    Ok(shape)
}

fn append_shape(shape: &mut Vec<u32>, column: IndexColumn) -> Result<(), Memory>
    ensures { OnOk result (shape.new.items ≡ shape.old.items ++ meant.column_shape column) }
{
    shape.push(column.column)?;
    Ok(shape.push(collation_number(column.coll))?)
}

/// The shapes of the keys so far, each found by one hash.
#[derive(Drop)]
pub(crate) struct Shapes {
    held: IndexSet<Vec<u32>>,
}

impl Model for Shapes {
    ghost use Rattle.std.specs.Prelude.{List, ℕ, map};

    ghost Value = { List (List ℕ) };

    ghost view = { λ shapes. map (λ key. key.items) shapes.held.keys };
}

impl Shapes {
    fn new(alloc: Global) -> Self
        ensures { result ≡ [] }
    {
        Shapes {
            held: IndexSet::new(alloc),
        }
    }

    fn has(&self, shape: &[u32]) -> bool
        ensures { result ≡ meant.has_shape shape.now self.now }
    {
        self.held.contains(shape)
    }

    fn add(&mut self, shape: Vec<u32>) -> Result<(), Memory>
        requires { meant.has_shape shape.items self.old ≡ false }
        ensures { OnOk result (self.new ≡ self.old ++ shape.items ∷ []) }
    {
        self.held.insert(shape)?;
        Ok(())
    }
}

/// The name of an index that a key makes.
fn autoindex_name(alloc: Global, table: &[u8], number: u64) -> Result<Bytes, Memory>
    ensures { IfOk result (λ name. name ≡ meant.autoindex_name table.now number) }
{
    let mut name = Bytes::copy(alloc, b"sqlite_autoindex_")?;
    name.append(table)?;
    name.append(b"_")?;
    let digits = format!(in alloc; "{number}")?;
    name.append(digits.as_bytes())?;
    Ok(name)
}

/// Whether the columns are among so many.
pub(crate) fn are_within(columns: &[IndexColumn], count: usize) -> bool
    ensures { result ≡ true → AllByRecursion (λ c. c.column < count) columns.now }
{
    for column in columns {
        if column.column as usize >= count {
            return false;
        }
    }
    true
}

/// Adds an index whose columns are there, under a name that isn't taken. The guards never hold: a
/// list of columns is shorter than the text, and its columns were found.
pub(crate) fn add_sound_index(
    alloc: Global,
    schema: &mut Schema,
    index: Index,
) -> Result<(), Memory>
    requires free { is_taken schema.old (folded_bytes index.name) ≡ false }
    requires table { index.table < length schema.old.tables }
    ensures { OnOk result (schema.new ≡ with_index schema.old index) }
{
    let count = schema.table(index.table).columns.as_slice().len();
    let columns = index.columns.as_slice();
    if !has_room(schema) || columns.len() >= 1 << 32 || !are_within(columns, count) {
        return Err(Memory);
    }
    add_index(alloc, schema, index)
}

/// Adds the index that a key makes, unless its name is taken.
fn add_autoindex(
    alloc: Global,
    schema: &mut Schema,
    table: u32,
    name: Bytes,
    columns: IndexColumns,
) -> Result<(), Memory>
    requires { table < length schema.old.tables }
    ensures same { OnOk result (schema.new ≡ meant.with_autoindex schema.old table name columns) }
    ensures tables { OnOk result (schema.new.tables ≡ schema.old.tables) }
{
    let folded = fold(alloc, name.as_slice())?;
    if name_taken(schema, folded.as_slice()) {
        return Ok(());
    }
    let index = Index {
        name,
        table,
        columns,
        unique: true,
        usable: true,
    };
    add_sound_index(alloc, schema, index)
}

/// Whether a key is on the rowid alone, so that it makes no index.
fn is_on_rowid(alias: Option<u32>, columns: &[KeyColumn]) -> bool
    ensures { result ≡ meant.is_on_rowid alias columns.now }
{
    match (alias, columns) {
        (Some(number), [only]) => only.column == number,
        _ => false,
    }
}

/// Adds the index of a key that has this shape, unless an earlier one has it.
fn add_shape(
    alloc: Global,
    schema: &mut Schema,
    number: u32,
    columns: IndexColumns,
    shapes: &mut Shapes,
    count: u64,
) -> Result<u64, Memory>
    requires { number < length schema.old.tables }
    ensures tables { OnOk result (schema.new.tables ≡ schema.old.tables) }
    ensures same { IfOk result (λ more. meant.autoindexes schema.new shapes.new more
        ≡ meant.add_shape number (meant.name_at schema.old number) columns
        (meant.shape_of columns) (meant.autoindexes schema.old shapes.old count)) }
{
    let shape = shape_of(alloc, columns.as_slice())?;
    if shapes.has(shape.as_slice()) {
        return Ok(count);
    }
    let Some(more) = count.checked_add(1) else {
        return Err(Memory);
    };
    shapes.add(shape)?;
    let name = autoindex_name(alloc, schema.table(number).name.as_slice(), more)?;
    add_autoindex(alloc, schema, number, name, columns)?;
    Ok(more)
}

/// Adds the index of a key to a table's, and answers how many there are, those too whose names were
/// taken: none on the rowid alone, and none where an earlier key has the same columns under the
/// same collations.
fn add_key(
    alloc: Global,
    schema: &mut Schema,
    number: u32,
    key: &KeyConstraint,
    shapes: &mut Shapes,
    count: u64,
) -> Result<u64, Memory>
    requires { number < length schema.old.tables }
    ensures tables { OnOk result (schema.new.tables ≡ schema.old.tables) }
    ensures same { IfOk result (λ more. meant.autoindexes schema.new shapes.new more
        ≡ meant.add_key number key.now (meant.autoindexes schema.old shapes.old count)) }
{
    let table = schema.table(number);
    if is_on_rowid(table.alias, key.columns.as_slice()) {
        return Ok(count);
    }
    let columns = index_columns(alloc, table.columns.as_slice(), key.columns.as_slice())?;
    add_shape(alloc, schema, number, columns, shapes, count)
}

/// Adds the indexes that the keys of a table make, in the order of the text.
pub(crate) fn add_autoindexes(
    alloc: Global,
    schema: &mut Schema,
    number: u32,
    keys: &[KeyConstraint],
) -> Result<(), Memory>
    requires { number < length schema.old.tables }
    ensures { OnOk result (schema.new ≡ meant.with_autoindexes schema.old number keys.now) }
{
    let mut shapes = Shapes::new(alloc);
    let mut count = 0;
    for key in keys {
        count = add_key(alloc, schema, number, key, &mut shapes, count)?;
    }
    Ok(())
}
