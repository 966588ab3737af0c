//! A schema.
ghost use Rattle.std.specs.Prelude.{◌≡◌, ◌<◌, length, Some, IfOk, slice_get};
ghost use Rattle.schema_model.specs.Schemas.{empty, IsSchema};

use crate::indexes::Index;
use crate::names::Names;
use crate::tables::Table;
use sql_value::{Bytes, Items, Memory};
use std::alloc::Global;
use std::marker::Model;

/// The tables that are read, the names of those that aren't, and the indexes, each numbered from 0
/// as they came. No two of all these have one name.
#[derive(Drop)]
pub struct Schema {
    pub(crate) tables: Items<Table>,
    pub(crate) unread: Items<Bytes>,
    pub(crate) indexes: Items<Index>,
    pub(crate) table_names: Names,
    pub(crate) unread_names: Names,
    pub(crate) index_names: Names,
}

impl Model for Schema {
    ghost use Rattle.schema_model.specs.Schemas.{Schema as Plain};

    ghost Value = { Plain };

    ghost use Rattle.schema_model.specs.SchemaNames.{held, Agrees};

    ghost view = { held };

    ghost invariant = { Agrees };
}

impl Schema {
    /// The schema without tables and indexes.
    pub fn new(alloc: Global) -> Result<Schema, Memory>
        ensures { IfOk result (λ schema. schema ≡ empty) }
    {
        Ok(Schema {
            tables: Items::new(alloc),
            unread: Items::new(alloc),
            indexes: Items::new(alloc),
            table_names: Names::new(alloc),
            unread_names: Names::new(alloc),
            index_names: Names::new(alloc),
        })
    }

    /// The table of a number. Takes no memory.
    pub fn table(&self, number: u32) -> &Table
        requires { number < length self.now.tables }
        ensures { slice_get self.now.tables number ≡ Some result.now }
    {
        &self.tables.as_slice()[number as usize]
    }

    /// The index of a number. Takes no memory.
    pub fn index(&self, number: u32) -> &Index
        requires { number < length self.now.indexes }
        ensures { slice_get self.now.indexes number ≡ Some result.now }
    {
        &self.indexes.as_slice()[number as usize]
    }

    /// How many tables are read. Takes no memory.
    pub fn table_count(&self) -> u32
        ensures { result ≡ length self.now.tables }
    {
        self.tables.as_slice().len() as u32
    }

    /// How many tables are known by their names alone. Takes no memory.
    pub fn unread_count(&self) -> u32
        ensures { result ≡ length self.now.unread }
    {
        self.unread.as_slice().len() as u32
    }

    /// How many indexes there are, those that aren't usable too. Takes no memory.
    pub fn index_count(&self) -> u32
        ensures { result ≡ length self.now.indexes }
    {
        self.indexes.as_slice().len() as u32
    }
}

/// A law: the names of a schema differ, each table has at most 2,000 columns of names that differ
/// and an alias among them, and each index has a table and columns that are there.
pub fn schema_is_sound(schema: &Schema)
    ensures { IsSchema schema.now }
{
    let _ = &schema.tables;
}
