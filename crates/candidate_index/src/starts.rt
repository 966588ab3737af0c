//! The lists of columns that candidates are made of.
ghost use Rattle.std.specs.Prelude.{◌≡◌, ◌++◌, ◌∷◌, [], ℕ, map, nat_eq, IfOk, OnOk};
ghost use Rattle.std.specs.List.{list_any};
ghost use Rattle.plan_choice.specs.Scans.{apart_from};
ghost use Rattle.schema_model.specs.PlainSchemas.{plain_index_column};
ghost use Rattle.candidate_index.specs.Starts.{has_column};

use indexmap::IndexSet;
use schema_model::{IndexColumn, IndexColumns};
use sql_value::{Items, Memory};
use std::alloc::Global;
use std::marker::Model;

fn append(written: &mut IndexColumns, columns: &[IndexColumn]) -> Result<(), Memory>
    ensures { OnOk result (written.new ≡ written.old ++ columns.now) }
{
    for column in columns {
        written.push(*column)?;
    }
    Ok(())
}

/// The numbers of columns, each found with one hash.
pub fn numbers_of(alloc: Global, columns: &[IndexColumn]) -> Result<IndexSet<u32>, Memory>
    ensures { IfOk result (λ numbers. (number : ℕ) →
        list_any (nat_eq number) numbers.keys ≡ has_column number columns.now) }
{
    let mut numbers = IndexSet::new(alloc);
    for column in columns {
        numbers.insert(column.column)?;
    }
    Ok(numbers)
}

/// Columns that candidates begin with, each found by its number with one hash.
#[derive(Drop)]
pub(crate) struct Start {
    columns: IndexColumns,
    numbers: IndexSet<u32>,
}

impl Model for Start {
    ghost use Rattle.std.specs.Prelude.{List};
    ghost use Rattle.schema_model.specs.declared.indexes.IndexColumn.{IndexColumn};

    ghost Value = { List IndexColumn };

    ghost view = { λ start. start.columns };

    ghost use Rattle.candidate_index.specs.StartNumbers.{KeepsNumbers};

    ghost invariant = { KeepsNumbers };
}

impl Start {
    /// Columns with others behind them.
    pub(crate) fn new(
        alloc: Global,
        first: &[IndexColumn],
        others: &[IndexColumn],
    ) -> Result<Start, Memory>
        ensures { IfOk result (λ start. start ≡ first.now ++ others.now) }
    {
        let mut columns = Items::new(alloc);
        append(&mut columns, first)?;
        append(&mut columns, others)?;
        let numbers = numbers_of(alloc, columns.as_slice())?;
        Ok(Start { columns, numbers })
    }

    /// Whether a column is there, however it is ordered.
    pub(crate) fn has(&self, number: u32) -> bool
        ensures { result ≡ has_column number self.now }
    {
        self.numbers.contains(&number)
    }

    /// The columns alone.
    pub(crate) fn alone(&self, alloc: Global) -> Result<IndexColumns, Memory>
        ensures { IfOk result (λ list. list ≡ self.now) }
    {
        let mut list = Items::new(alloc);
        append(&mut list, self.columns.as_slice())?;
        Ok(list)
    }

    /// The columns with one more behind them.
    pub(crate) fn and(&self, alloc: Global, last: IndexColumn) -> Result<IndexColumns, Memory>
        ensures { IfOk result (λ list. list ≡ self.now ++ last ∷ []) }
    {
        let mut list = self.alone(alloc)?;
        list.push(last)?;
        Ok(list)
    }

    /// The columns with those of others behind them that aren't there yet.
    pub(crate) fn then(&self, alloc: Global, others: &[IndexColumn]) -> Result<IndexColumns, Memory>
        ensures { IfOk result (λ list. map plain_index_column list
            ≡ map plain_index_column self.now ++ apart_from (map plain_index_column self.now)
            (map plain_index_column others.now)) }
    {
        let mut list = self.alone(alloc)?;
        for column in others {
            if !self.has(column.column) {
                list.push(*column)?;
            }
        }
        Ok(list)
    }
}
