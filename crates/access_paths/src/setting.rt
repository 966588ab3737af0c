//! What a statement is planned over.
use crate::TableIndexes;
use schema_model::Schema;
use sql_bound::Bound;
use stat_figures::Figures;
use where_terms::Terms;

/// A schema with its figures and the usable indexes of each table, and a statement with its terms.
#[derive(Clone, Copy)]
pub struct Setting<'s, 'p> {
    pub schema: &'s Schema,
    pub figures: &'s Figures,
    pub indexes: &'s TableIndexes,
    pub bound: &'p Bound<'p>,
    pub terms: &'s Terms<'p>,
}
