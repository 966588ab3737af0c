//! Copies of schemas.
ghost use Rattle.std.specs.Prelude.{◌≡◌, IfOk};

use crate::indexes::{Index, IndexColumn, IndexColumns};
use crate::schema::Schema;
use crate::tables::Table;
use sql_value::{Bytes, Items, Memory};
use std::alloc::Global;

fn copy_tables(alloc: Global, tables: &[Table]) -> Result<Items<Table>, Memory>
    ensures { IfOk result (λ copy. copy ≡ tables.now) }
{
    let mut copy = Items::new(alloc);
    for table in tables {
        copy.push(Table {
            name: Bytes::copy(alloc, table.name.as_slice())?,
            columns: table.columns.try_copy(alloc)?,
            alias: table.alias,
        })?;
    }
    Ok(copy)
}

fn copy_names(alloc: Global, names: &[Bytes]) -> Result<Items<Bytes>, Memory>
    ensures { IfOk result (λ copy. copy ≡ names.now) }
{
    let mut copy = Items::new(alloc);
    for name in names {
        copy.push(Bytes::copy(alloc, name.as_slice())?)?;
    }
    Ok(copy)
}

fn copy_index_columns(alloc: Global, columns: &[IndexColumn]) -> Result<IndexColumns, Memory>
    ensures { IfOk result (λ copy. copy ≡ columns.now) }
{
    let mut copy = Items::new(alloc);
    for column in columns {
        copy.push(*column)?;
    }
    Ok(copy)
}

fn copy_indexes(alloc: Global, indexes: &[Index]) -> Result<Items<Index>, Memory>
    ensures { IfOk result (λ copy. copy ≡ indexes.now) }
{
    let mut copy = Items::new(alloc);
    for index in indexes {
        copy.push(Index {
            name: Bytes::copy(alloc, index.name.as_slice())?,
            table: index.table,
            columns: copy_index_columns(alloc, index.columns.as_slice())?,
            unique: index.unique,
            usable: index.usable,
        })?;
    }
    Ok(copy)
}

impl Schema {
    /// A schema that equals this one.
    pub fn try_copy(&self, alloc: Global) -> Result<Schema, Memory>
        ensures { IfOk result (λ copy. copy ≡ self.now) }
    {
        Ok(Schema {
            tables: copy_tables(alloc, self.tables.as_slice())?,
            unread: copy_names(alloc, self.unread.as_slice())?,
            indexes: copy_indexes(alloc, self.indexes.as_slice())?,
            table_names: self.table_names.try_copy()?,
            unread_names: self.unread_names.try_copy()?,
            index_names: self.index_names.try_copy()?,
        })
    }
}
