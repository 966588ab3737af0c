//! What the columns of indexes begin with, as a tree whose steps are found by one hash: so many
//! indexes on a table cost no more than few.
ghost use Rattle.std.specs.Prelude.{◌≡◌, ◌++◌, ◌∷◌, [], List, map, is_some, IfOk, OnOk};
ghost use Rattle.plan_choice.specs.Candidates.{is_served};
ghost use Rattle.sql_meaning.specs.Schemas.{Index};
ghost use Rattle.schema_model.specs.PlainSchemas.{plain_index_column};
ghost use Rattle.candidate_index.specs.Beginnings.{step_of, reached, Serves};
ghost use Rattle.candidate_index.specs.Known.{usable_indexes};

use indexmap::IndexSet;
use schema_model::{IndexColumn, Schema};
use sql_value::{Collation, Memory};
use std::alloc::Global;
use std::marker::Model;

/// How far a list of columns has come: no further than its table, or behind the step of a number.
#[derive(Clone, Copy, Debug, PartialEq, Eq, Hash)]
pub(crate) enum Node {
    Table(u32),
    Behind(usize),
}

/// A step from a node, by the next column. The hash leaves out what has few values.
#[derive(Clone, Copy, Debug, PartialEq, Eq)]
#[derive_where(Hash)]
pub(crate) struct Step {
    from: Node,
    number: u32,
    #[derive_where(skip(Hash))]
    coll: Collation,
    #[derive_where(skip(Hash))]
    desc: bool,
}

fn step_by(from: Node, column: IndexColumn) -> Step
    ensures { result ≡ step_of from column }
{
    Step {
        from,
        number: column.column,
        coll: column.coll,
        desc: column.desc,
    }
}

/// The lists of columns that some indexes begin with, each from its table on.
#[derive(Drop)]
pub(crate) struct Beginnings {
    steps: IndexSet<Step>,
}

impl Model for Beginnings {
    ghost use Rattle.std.specs.Prelude.{List};
    ghost use Rattle.candidate_index.specs.declared.beginnings.Step.{Step};

    ghost Value = { List Step };

    ghost view = { λ beginnings. beginnings.steps.keys };

    ghost use Rattle.candidate_index.specs.Beginnings.{AreRooted};

    ghost invariant = { λ beginnings. AreRooted beginnings.steps.keys };
}

impl Beginnings {
    /// Those of no indexes.
    pub(crate) fn new(alloc: Global) -> Self
        ensures { Serves result [] }
    {
        Beginnings {
            steps: IndexSet::new(alloc),
        }
    }

    /// Whether an index of the table begins with these columns, in as many steps as there are
    /// columns. Takes no memory.
    pub(crate) fn has(&self, table: u32, columns: &[IndexColumn]) -> bool
        ensures { result ≡ is_some (reached self.now table columns.now) }
    {
        let mut node = Node::Table(table);
        for column in columns {
            match self.steps.get_index_of(&step_by(node, *column)) {
                Some(number) => node = Node::Behind(number),
                None => return false,
            }
        }
        true
    }

    /// Adds those of an index of these columns.
    pub(crate) fn add(&mut self, table: u32, columns: &[IndexColumn]) -> Result<(), Memory>
        ensures { OnOk result ((known : List Index) → Serves self.old known
            → Serves self.new (known ++ record {
              table = table;
              columns = map plain_index_column columns.now;
            } ∷ [])) }
    {
        let mut node = Node::Table(table);
        for column in columns {
            let (number, _) = self.steps.insert_full(step_by(node, *column))?;
            node = Node::Behind(number);
        }
        Ok(())
    }
}

/// Those of the usable indexes of a schema.
pub(crate) fn own_beginnings(alloc: Global, schema: &Schema) -> Result<Beginnings, Memory>
    ensures { IfOk result (λ own. Serves own (usable_indexes schema.now)) }
{
    let mut own = Beginnings::new(alloc);
    for number in 0..schema.index_count() {
        let index = schema.index(number);
        if index.usable {
            own.add(index.table, index.columns.as_slice())?;
        }
    }
    Ok(own)
}
