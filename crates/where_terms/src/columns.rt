//! Tests of columns.
ghost use Rattle.std.specs.Prelude.{◌≡◌};
ghost use Rattle.sql_meaning.specs.Links.{affinity_class};
ghost use Rattle.sql_meaning.specs.TermLists as meant;
ghost use Rattle.sql_value.specs.View.{plain_affinity};
ghost use Rattle.sql_bound.specs.Columns.{site_of, column_ref_of};

use sql_bound::{ColumnRef, is_same_column};
use sql_value::Affinity;

pub(crate) fn is_same_ref(left: ColumnRef, right: ColumnRef) -> bool
    ensures { result ≡ meant.same_ref (column_ref_of left) (column_ref_of right) }
{
    left.item == right.item && is_same_column(left.column, right.column)
}

/// The place of a column, the rowid first.
pub(crate) fn site_number(column: Option<u32>) -> u64
    ensures { result ≡ meant.site_number (site_of column) }
{
    match column {
        Some(column) => column as u64 + 1,
        None => 0,
    }
}

/// Numeric affinities are one class, in which no comparison converts.
pub(crate) fn class_number(affinity: Affinity) -> u8
    ensures { result ≡ affinity_class (plain_affinity affinity) }
{
    match affinity {
        Affinity::Integer | Affinity::Real | Affinity::Numeric => 0,
        Affinity::Text => 1,
        Affinity::Blob => 2,
    }
}
