//! The text of CREATE INDEX.
ghost use Rattle.std.specs.Prelude.{◌≡◌, ◌<◌, ◌++◌, length, IfOk, OnOk, OnErr};
ghost use Rattle.std.specs.List.{list_all};
ghost use Rattle.schema_model.specs.CreateTexts as text;
ghost use Rattle.schema_model.specs.Schemas.{columns_at};

use crate::columns::Column;
use crate::indexes::{Index, IndexColumn};
use crate::schema::Schema;
use sql_value::{Bytes, Collation, Memory, is_reserved, is_same_collation};
use std::alloc::Global;

fn is_name_start(byte: u8) -> bool
    ensures { result ≡ text.is_name_start byte }
{
    byte.is_ascii_alphabetic() || byte == b'_'
}

fn is_name_byte(byte: u8) -> bool
    ensures { result ≡ text.is_name_byte byte }
{
    byte.is_ascii_alphanumeric() || byte == b'_'
}

fn are_name_bytes(bytes: &[u8]) -> bool
    ensures { result ≡ list_all text.is_name_byte bytes.now }
{
    for byte in bytes {
        if !is_name_byte(*byte) {
            return false;
        }
    }
    true
}

/// Whether a name is printed without quotes: a letter or `_`, then letters, digits and `_`, and no
/// reserved word.
fn is_plain_name(name: &[u8]) -> bool
    ensures { result ≡ text.is_plain_name name.now }
{
    match name {
        [first, rest @ ..] => {
            is_name_start(*first) && are_name_bytes(rest) && !is_reserved(name)
        }
        [] => false,
    }
}

fn append_doubled(written: &mut Bytes, name: &[u8]) -> Result<(), Memory>
    ensures { OnOk result (written.new ≡ written.old ++ text.doubled name.now) }
{
    for byte in name {
        if *byte == b'"' {
            written.append(b"\"\"")?;
        } else {
            written.push(*byte)?;
        }
    }
    Ok(())
}

/// A name in double quotes, with those inside doubled.
fn quoted_name(alloc: Global, name: &[u8]) -> Result<Bytes, Memory>
    ensures { IfOk result (λ quoted. quoted ≡ text.quoted name.now) }
{
    let mut quoted = Bytes::new(alloc);
    quoted.append(b"\"")?;
    append_doubled(&mut quoted, name)?;
    quoted.append(b"\"")?;
    Ok(quoted)
}

/// Appends a name as it is written in SQL: bare, or in double quotes with those inside doubled
/// (<https://sqlite.org/lang_keywords.html>). After `Memory` the text is as it was.
pub fn append_name(written: &mut Bytes, name: &[u8]) -> Result<(), Memory>
    ensures ok { OnOk result (written.new ≡ written.old ++ text.printed_name name.now) }
    ensures err { OnErr result (written.new ≡ written.old) }
{
    if is_plain_name(name) {
        return written.append(name);
    }
    let quoted = quoted_name(written.allocator(), name)?;
    written.append(quoted.as_slice())
}

fn collation_name(coll: Collation) -> &'static [u8]
    ensures { result.now ≡ text.collation_name coll }
{
    match coll {
        Collation::Binary => b"BINARY",
        Collation::Nocase => b"NOCASE",
        Collation::Rtrim => b"RTRIM",
    }
}

/// Appends a column of an index: its name, its collation where that isn't the table's, and its
/// direction where it falls.
fn append_entry(written: &mut Bytes, column: &Column, entry: IndexColumn) -> Result<(), Memory>
    ensures { OnOk result (written.new ≡ written.old ++ text.entry_of_column column.now entry) }
{
    append_name(written, column.name.as_slice())?;
    append_collation(written, column.coll, entry.coll)?;
    append_direction(written, entry.desc)
}

fn append_collation(written: &mut Bytes, own: Collation, coll: Collation) -> Result<(), Memory>
    ensures { OnOk result (written.new ≡ written.old ++ text.collation_text own coll) }
{
    if is_same_collation(own, coll) {
        return Ok(());
    }
    written.append(b" COLLATE ")?;
    written.append(collation_name(coll))
}

fn append_direction(written: &mut Bytes, desc: bool) -> Result<(), Memory>
    ensures { OnOk result (written.new ≡ written.old ++ text.direction_text desc) }
{
    if desc {
        written.append(b" DESC")
    } else {
        Ok(())
    }
}

/// Appends an entry by the column that it names.
fn append_named(written: &mut Bytes, columns: &[Column], entry: IndexColumn) -> Result<(), Memory>
    requires { entry.column < length columns.now }
    ensures { OnOk result (written.new ≡ written.old ++ text.entry_text columns.now entry) }
{
    append_entry(written, &columns[entry.column as usize], entry)
}

fn append_further(
    written: &mut Bytes,
    columns: &[Column],
    entries: &[IndexColumn],
) -> Result<(), Memory>
    requires { text.AreInTable columns.now entries.now }
    ensures { OnOk result (written.new ≡ written.old
        ++ text.further_entries columns.now entries.now) }
{
    for entry in entries {
        written.append(b", ")?;
        append_named(written, columns, *entry)?;
    }
    Ok(())
}

/// The columns of an index, with a comma and a space between.
fn column_text(alloc: Global, columns: &[Column], entries: &[IndexColumn]) -> Result<Bytes, Memory>
    requires { text.AreInTable columns.now entries.now }
    ensures { IfOk result (λ written. written ≡ text.column_text columns.now entries.now) }
{
    let mut written = Bytes::new(alloc);
    if let [first, rest @ ..] = entries {
        append_named(&mut written, columns, *first)?;
        append_further(&mut written, columns, rest)?;
    }
    Ok(written)
}

/// Appends the columns of an index, with a comma and a space between. After `Memory` the text is
/// as it was.
pub fn append_columns(
    written: &mut Bytes,
    columns: &[Column],
    entries: &[IndexColumn],
) -> Result<(), Memory>
    requires { text.AreInTable columns.now entries.now }
    ensures ok { OnOk result (written.new ≡ written.old
        ++ text.column_text columns.now entries.now) }
    ensures err { OnErr result (written.new ≡ written.old) }
{
    let list = column_text(written.allocator(), columns, entries)?;
    written.append(list.as_slice())
}

/// The text of CREATE INDEX for an index whose table and columns are there, without a semicolon
/// (<https://sqlite.org/lang_createindex.html>).
pub fn print_create(alloc: Global, schema: &Schema, index: &Index) -> Result<Bytes, Memory>
    requires table { index.now.table < length schema.now.tables }
    requires columns { text.AreInTable (columns_at schema.now.tables index.now.table)
        index.now.columns }
    ensures { IfOk result (λ written. written ≡ text.create_text schema.now index.now) }
{
    let table = schema.table(index.table);
    let mut written = Bytes::new(alloc);
    written.append(b"CREATE INDEX ")?;
    append_name(&mut written, index.name.as_slice())?;
    written.append(b" ON ")?;
    append_name(&mut written, table.name.as_slice())?;
    written.append(b"(")?;
    append_columns(
        &mut written,
        table.columns.as_slice(),
        index.columns.as_slice(),
    )?;
    written.append(b")")?;
    Ok(written)
}
