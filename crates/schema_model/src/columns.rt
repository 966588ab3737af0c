//! Columns of a table.
ghost use Rattle.std.specs.Prelude.{◌≡◌, ◌++◌, ◌∷◌, [], position, OnOk, OnErr, IfOk};
ghost use Rattle.schema_model.specs.Columns.{has_column_name, as_rowid};

use crate::names::folded_key;
use indexmap::IndexMap;
use sql_value::{Affinity, Bytes, Collation, Memory};
use std::alloc::Global;
use std::marker::Model;

/// A column: its name, and the affinity and collation that its declaration gives it
/// (<https://sqlite.org/datatype3.html>, sections 3.1 and 7.1).
#[derive(Drop)]
pub struct Column {
    pub name: Bytes,
    pub affinity: Affinity,
    pub coll: Collation,
}

/// A list of columns, each found by its name with one hash.
#[derive(Drop)]
pub struct Columns {
    alloc: Global,
    held: Vec<Column>,
    places: IndexMap<Vec<u8>, usize>,
}

impl Model for Columns {
    ghost use Rattle.std.specs.Prelude.{List};
    ghost use Rattle.schema_model.specs.declared.columns.Column.{Column};

    ghost Value = { List Column };

    ghost view = { λ columns. columns.held.items };

    ghost use Rattle.schema_model.specs.ColumnPlaces.{KeepsPlaces};

    ghost invariant = { KeepsPlaces };
}

impl Columns {
    /// No columns, which take no memory.
    pub fn new(alloc: Global) -> Self
        ensures { result ≡ [] }
    {
        Columns {
            alloc,
            held: Vec::new(alloc),
            places: IndexMap::new(alloc),
        }
    }

    /// Appends a column. After `Memory` the list is as it was, and the column is given up.
    pub fn push(&mut self, column: Column) -> Result<(), Memory>
        ensures ok { OnOk result (self.new ≡ self.old ++ column ∷ []) }
        ensures err { OnErr result (self.new ≡ self.old) }
    {
        let key = folded_key(self.alloc, column.name.as_slice())?;
        let place = self.held.as_slice().len();
        self.held.push(column)?;
        if self.places.contains_key(key.as_slice()) {
            return Ok(());
        }
        let Ok(_) = self.places.insert(key, place) else {
            let _ = self.held.pop();
            return Err(Memory);
        };
        Ok(())
    }

    /// The columns.
    pub fn as_slice(&self) -> &[Column]
        ensures { result.now ≡ self.now }
    {
        self.held.as_slice()
    }

    /// The number of the first column of a name whose letters are lower. Takes no memory.
    pub fn find(&self, folded: &[u8]) -> Option<usize>
        ensures { result ≡ position (has_column_name folded.now) self.now }
    {
        match self.places.get(folded) {
            Some(place) => Some(*place),
            None => None,
        }
    }

    /// Makes the column of a number the rowid under another name, which has affinity INTEGER and
    /// compares byte by byte. Nothing changes where there is no such column.
    pub fn make_rowid(&mut self, number: usize)
        ensures { self.new ≡ as_rowid self.old number }
    {
        if number < self.held.as_slice().len() {
            let column = &mut self.held[number];
            column.affinity = Affinity::Integer;
            column.coll = Collation::Binary;
        }
    }

    /// Columns that equal these.
    pub fn try_copy(&self, alloc: Global) -> Result<Columns, Memory>
        ensures { IfOk result (λ copy. copy ≡ self.now) }
    {
        let mut copy = Columns::new(alloc);
        for column in &self.held {
            copy.push(Column {
                name: Bytes::copy(alloc, column.name.as_slice())?,
                affinity: column.affinity,
                coll: column.coll,
            })?;
        }
        Ok(copy)
    }
}
