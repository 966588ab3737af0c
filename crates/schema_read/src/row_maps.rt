//! Rows while they are read: each is found by its rowid, and all stand by rising rowid.
ghost use Rattle.std.specs.Prelude.{◌≡◌, ◌++◌, ◌∷◌, [], map, slice_index_or, slice_set, OnOk};
ghost use Rattle.std.specs.Prelude.{OnErr, IfOk};
ghost use Rattle.sql_value.specs.View.{plain_value};
ghost use Rattle.schema_model.specs.PlainSchemas.{plain_rows, plain_database};
ghost use Rattle.schema_read.specs.Rows.{has_rowid, next_rowid, insert_row};

use schema_model::{Row, RowList, Tables};
use sql_value::{Memory, Value, Values};
use std::alloc::Global;
use std::collections::BTreeMap;
use std::marker::Model;

/// The values as a list of their own.
fn listed(alloc: Global, values: Vec<Value>) -> Result<Values, Memory>
    ensures { IfOk result (λ list. list ≡ values.items) }
{
    let mut list = Values::new(alloc);
    for value in values {
        list.push(value)?;
    }
    Ok(list)
}

/// The rows of a table.
#[derive(Drop)]
pub struct RowMap {
    rows: BTreeMap<i64, Vec<Value>>,
}

impl Model for RowMap {
    ghost use Rattle.std.specs.Prelude.{List, map};
    ghost use Rattle.sql_meaning.specs.Rows.{Row as PlainRow};
    ghost use Rattle.schema_read.specs.Rows.{row_of_entry};

    ghost Value = { List PlainRow };

    ghost view = { λ m. map row_of_entry m.rows.entries };
}

impl RowMap {
    fn new(alloc: Global) -> Self
        ensures { result ≡ [] }
    {
        RowMap {
            rows: BTreeMap::new(alloc),
        }
    }

    fn has(&self, rowid: i64) -> bool
        ensures { result ≡ has_rowid rowid self.now }
    {
        self.rows.contains_key(&rowid)
    }

    /// One more than the greatest rowid, and 1 where there is no row; none past 64 bits.
    fn next_rowid(&self) -> Option<i64>
        ensures { result ≡ next_rowid self.now }
    {
        match self.rows.last_key_value() {
            Some((rowid, _)) => rowid.checked_add(1),
            None => Some(1),
        }
    }

    fn insert(&mut self, rowid: i64, values: Vec<Value>) -> Result<(), Memory>
        ensures ok { OnOk result (self.new
            ≡ insert_row rowid (map plain_value values.items) self.old) }
        ensures err { OnErr result (self.new ≡ self.old) }
    {
        self.rows.insert(rowid, values)?;
        Ok(())
    }

    fn into_list(self, alloc: Global) -> Result<RowList, Memory>
        ensures { IfOk result (λ rows. plain_rows rows ≡ self) }
    {
        let mut rows = RowList::new(alloc);
        for (rowid, values) in self.rows {
            rows.push(Row {
                rowid,
                values: listed(alloc, values)?,
            })?;
        }
        Ok(rows)
    }
}

/// The rows of each table, by the table's number. A number without a table has no rows.
#[derive(Drop)]
pub struct RowMaps {
    held: Vec<RowMap>,
}

impl Model for RowMaps {
    ghost use Rattle.std.specs.Prelude.{List};
    ghost use Rattle.sql_meaning.specs.Rows.{Row as PlainRow};

    ghost Value = { List (List PlainRow) };

    ghost view = { λ m. m.held.items };
}

impl RowMaps {
    pub(crate) fn new(alloc: Global) -> Self
        ensures { result ≡ [] }
    {
        RowMaps {
            held: Vec::new(alloc),
        }
    }

    /// Adds a table without rows.
    pub(crate) fn add_table(&mut self, alloc: Global) -> Result<(), Memory>
        ensures { OnOk result (self.new ≡ self.old ++ [] ∷ []) }
    {
        Ok(self.held.push(RowMap::new(alloc))?)
    }

    pub(crate) fn has(&self, table: u32, rowid: i64) -> bool
        ensures { result ≡ has_rowid rowid (slice_index_or self.now table []) }
    {
        match self.held.as_slice().get(table as usize) {
            Some(rows) => rows.has(rowid),
            None => false,
        }
    }

    pub(crate) fn next_rowid(&self, table: u32) -> Option<i64>
        ensures { result ≡ next_rowid (slice_index_or self.now table []) }
    {
        match self.held.as_slice().get(table as usize) {
            Some(rows) => rows.next_rowid(),
            None => Some(1),
        }
    }

    pub(crate) fn insert(
        &mut self,
        table: u32,
        rowid: i64,
        values: Vec<Value>,
    ) -> Result<(), Memory>
        ensures { OnOk result (self.new ≡ slice_set self.old table
            (insert_row rowid (map plain_value values.items) (slice_index_or self.old table []))) }
    {
        let number = table as usize;
        if number < self.held.as_slice().len() {
            let rows = &mut self.held[number];
            rows.insert(rowid, values)?;
        }
        Ok(())
    }

    pub(crate) fn into_tables(self, alloc: Global) -> Result<Tables, Memory>
        ensures { IfOk result (λ tables. plain_database tables ≡ self) }
    {
        let mut tables = Tables::new(alloc);
        for rows in self.held {
            tables.push(rows.into_list(alloc)?)?;
        }
        Ok(tables)
    }
}
