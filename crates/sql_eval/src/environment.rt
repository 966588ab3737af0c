//! What an expression is evaluated in: the tables, a row of each item, and the parameters.
use schema_model::Tables;
use sql_value::Values;

/// The row that an item has: the number of its table, and the row's number in it.
#[derive(Clone, Copy)]
pub struct Place {
    pub table: u32,
    /// `None` where the item has no row: each of its columns is then NULL.
    pub row: Option<u32>,
}

/// The tables, a place for each item of FROM, and the parameters, of which the first is number 1.
#[derive(Clone, Copy)]
pub struct Env<'e> {
    pub tables: &'e Tables,
    pub places: &'e [Place],
    pub params: &'e Values,
}
