//! The usable indexes of each table.
ghost use Rattle.std.specs.Prelude.{◌≡◌, ◌<◌, ◌++◌, ◌∷◌, IfOk, OnOk, slice_index_or, slice_set, []};
ghost use Rattle.std.specs.Prelude.{replicate, vec_len};
ghost use Rattle.schema_model.specs.PlainSchemas.{plain_schema};
ghost use Rattle.access_paths.specs.Indexes.{indexes_of};

use schema_model::{Schema, schema_is_sound};
use sql_value::{Items, Memory};
use std::alloc::Global;
use std::marker::Model;

/// The numbers of the usable indexes of each table of a schema, in the schema's order.
#[derive(Drop)]
pub struct TableIndexes {
    tables: Vec<Items<u32>>,
}

impl Model for TableIndexes {
    ghost use Rattle.std.specs.Prelude.{List, ℕ};

    ghost Value = { List (List ℕ) };

    ghost view = { λ listed. listed.tables.items };
}

fn empty_lists(alloc: Global, count: u32) -> Result<Vec<Items<u32>>, Memory>
    ensures { IfOk result (λ lists. lists.items ≡ replicate count []) }
{
    let mut lists: Vec<Items<u32>> = Vec::new(alloc);
    for _table in 0..count {
        lists.push(Items::new(alloc))?;
    }
    Ok(lists)
}

fn push_index(lists: &mut Vec<Items<u32>>, table: u32, number: u32) -> Result<(), Memory>
    requires { table < vec_len lists.old }
    ensures { OnOk result (lists.new.items ≡ slice_set lists.old.items table
        (slice_index_or lists.old.items table [] ++ number ∷ [])) }
{
    let list = &mut lists[table as usize];
    list.push(number)
}

impl TableIndexes {
    /// Lists them in one pass over the schema's indexes.
    pub fn of(alloc: Global, schema: &Schema) -> Result<TableIndexes, Memory>
        ensures { IfOk result (λ listed. listed ≡ indexes_of (plain_schema schema.now)) }
    {
        schema_is_sound(schema);
        let mut tables = empty_lists(alloc, schema.table_count())?;
        for number in 0..schema.index_count() {
            let index = schema.index(number);
            if !index.columns.as_slice().is_empty() {
                push_index(&mut tables, index.table, number)?;
            }
        }
        Ok(TableIndexes { tables })
    }

    /// Those of a table; none where there is no such table. Takes no memory.
    pub fn on(&self, table: u32) -> &[u32]
        ensures { result.now ≡ slice_index_or self.now table [] }
    {
        match self.tables.as_slice().get(table as usize) {
            Some(indexes) => indexes.as_slice(),
            None => &[],
        }
    }
}
