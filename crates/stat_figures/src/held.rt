//! What is known of tables and indexes, and how it is read.
ghost use Rattle.std.specs.Prelude.{◌≡◌, ◌≤◌, pos, slice_index_or, []};
ghost use Rattle.plan_choice.specs.Figures as meant;
ghost use Rattle.plan_choice.specs.FigureLaws.{AreSmall};

use sql_value::Items;
use std::marker::Model;

/// What is known of each table and of each index of a schema: numbers of rows as logarithms, each
/// at most 1,000.
#[derive(Drop)]
pub struct Figures {
    pub(crate) tables: Vec<u16>,
    /// For each number of leading columns, from 0 on.
    pub(crate) indexes: Items<Items<u16>>,
    /// The counts that the logarithms of an index are of; none where they are defaults.
    pub(crate) counted: Items<Items<u64>>,
    /// Empty where no index is unordered.
    pub(crate) unordered: Items<bool>,
}

impl Model for Figures {
    ghost use Rattle.plan_choice.specs.Figures.{Figures as Plain};

    ghost Value = { Plain };

    ghost use Rattle.stat_figures.specs.HeldFigures.{plain_figures, HoldsSmall};

    ghost view = { plain_figures };

    ghost invariant = { HoldsSmall };
}

impl Figures {
    /// The logarithm of the number of a table's rows; 0 where there is no such table. Takes no
    /// memory.
    pub fn table_rows(&self, table: u32) -> i32
        ensures told { result ≡ pos (meant.table_rows self.now table) }
        ensures small { meant.table_rows self.now table ≤ 1000 }
    {
        log_at(self.tables.as_slice(), table as usize)
    }

    /// The logarithm of the number of an index's rows that agree in so many of its first columns; 0
    /// where there is no such index or column. Takes no memory.
    pub fn index_rows(&self, index: u32, columns: usize) -> i32
        ensures told { result ≡ pos (meant.index_rows self.now index columns) }
        ensures small { meant.index_rows self.now index columns ≤ 1000 }
    {
        match self.indexes.as_slice().get(index as usize) {
            Some(logs) => log_at(logs.as_slice(), columns),
            None => 0,
        }
    }

    /// The counts that the logarithms of an index are of; none where they are defaults.
    pub(crate) fn counts(&self, index: u32) -> &[u64]
        ensures { result.now ≡ slice_index_or self.now.counted index [] }
    {
        match self.counted.as_slice().get(index as usize) {
            Some(counts) => counts.as_slice(),
            None => &[],
        }
    }

    /// Whether an index serves no range. Takes no memory.
    pub fn unordered(&self, index: u32) -> bool
        ensures { result ≡ meant.is_unordered self.now index }
    {
        match self.unordered.as_slice().get(index as usize) {
            Some(unordered) => *unordered,
            None => false,
        }
    }
}

/// A law: each logarithm is at most 1,000.
pub fn figures_are_small(figures: &Figures)
    ensures { AreSmall figures.now }
{
    let _ = &figures.tables;
}

fn log_at(logs: &[u16], number: usize) -> i32
    ensures { result ≡ pos (slice_index_or logs.now number 0) }
{
    match logs.get(number) {
        Some(log) => *log as i32,
        None => 0,
    }
}
