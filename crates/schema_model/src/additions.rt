//! What is added to a schema. After `Memory` the schema is as it was, and what was to be added is
//! given up.
ghost use Rattle.std.specs.Prelude.{◌≡◌, ◌<◌, ◌^◌, false, OnOk, OnErr};
ghost use Rattle.sql_meaning.specs.Letters.{folded_bytes};
ghost use Rattle.schema_model.specs.Schemas.{is_taken, size, with_table, with_unread, with_index};
ghost use Rattle.schema_model.specs.Schemas.{IsTable, IsIndexOf};

use crate::indexes::Index;
use crate::schema::Schema;
use crate::tables::Table;
use sql_value::{Bytes, Memory};
use std::alloc::Global;

/// Adds a table that is read, under a name that isn't taken.
pub fn add_table(alloc: Global, schema: &mut Schema, table: Table) -> Result<(), Memory>
    requires free { is_taken schema.old (folded_bytes table.name) ≡ false }
    requires room { size schema.old < 2 ^ 31 }
    requires sound { IsTable table }
    ensures ok { OnOk result (schema.new ≡ with_table schema.old table) }
    ensures err { OnErr result (schema.new ≡ schema.old) }
{
    schema.table_names.add(alloc, table.name.as_slice())?;
    let Ok(()) = schema.tables.push(table) else {
        schema.table_names.forget();
        return Err(Memory);
    };
    Ok(())
}

/// Adds a table that isn't read, under a name that isn't taken.
pub fn add_unread(alloc: Global, schema: &mut Schema, name: Bytes) -> Result<(), Memory>
    requires free { is_taken schema.old (folded_bytes name) ≡ false }
    requires room { size schema.old < 2 ^ 31 }
    ensures ok { OnOk result (schema.new ≡ with_unread schema.old name) }
    ensures err { OnErr result (schema.new ≡ schema.old) }
{
    schema.unread_names.add(alloc, name.as_slice())?;
    let Ok(()) = schema.unread.push(name) else {
        schema.unread_names.forget();
        return Err(Memory);
    };
    Ok(())
}

/// Adds an index of a table and columns that are there, under a name that isn't taken.
pub fn add_index(alloc: Global, schema: &mut Schema, index: Index) -> Result<(), Memory>
    requires free { is_taken schema.old (folded_bytes index.name) ≡ false }
    requires room { size schema.old < 2 ^ 31 }
    requires sound { IsIndexOf schema.old.tables index }
    ensures ok { OnOk result (schema.new ≡ with_index schema.old index) }
    ensures err { OnErr result (schema.new ≡ schema.old) }
{
    schema.index_names.add(alloc, index.name.as_slice())?;
    let Ok(()) = schema.indexes.push(index) else {
        schema.index_names.forget();
        return Err(Memory);
    };
    Ok(())
}
