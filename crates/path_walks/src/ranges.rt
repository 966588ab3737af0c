//! The range of a column between two ends.
ghost use Rattle.std.specs.Prelude.{◌≡◌};
ghost use Rattle.sql_meaning.specs.Walks.{bounds_walk, range_walk};
ghost use Rattle.sql_value.specs.View.{plain_collation};
ghost use Rattle.index_lists.specs.Lent.{lent_rows};
ghost use Rattle.path_walks.specs.Columns.{plain_sort_column, site_of};
ghost use Rattle.path_walks.specs.Ends.{plain_end};
ghost use Rattle.path_walks.specs.Ordered.{FollowColumn};

use crate::columns::SortColumn;
use crate::ends::{End, has_null_key};
use crate::stretches::{Side, stretch};
use schema_model::Row;

/// From the lower end to the upper one. On a falling column the ends change places, and the walk
/// ends before the NULLs, which stand last there.
fn range<'s, 't>(
    column: SortColumn,
    low: Option<&End>,
    high: Option<&End>,
    rows: &'s [&'t Row],
) -> &'s [&'t Row]
    requires { FollowColumn (plain_sort_column column) (lent_rows rows.now) }
    ensures { lent_rows result.now
        ≡ range_walk column.desc (plain_collation column.coll) (site_of column.column)
        (plain_end low.entry) (plain_end high.entry) (lent_rows rows.now) }
{
    if column.desc {
        stretch(Side::Above(column, high), Side::Below(column, low), rows)
    } else {
        stretch(Side::Below(column, low), Side::Above(column, high), rows)
    }
}

/// The rows of a list, sorted by the column, that lie within the ends. Without an end that is all
/// of them, NULLs too; one end leaves the NULLs out.
pub(crate) fn within_ends<'s, 't>(
    column: SortColumn,
    low: Option<&End>,
    high: Option<&End>,
    rows: &'s [&'t Row],
) -> &'s [&'t Row]
    requires { FollowColumn (plain_sort_column column) (lent_rows rows.now) }
    ensures { lent_rows result.now
        ≡ bounds_walk (plain_sort_column column) (plain_end low.entry) (plain_end high.entry)
        (lent_rows rows.now) }
{
    if low.is_none() && high.is_none() {
        return rows;
    }
    if has_null_key(low) || has_null_key(high) {
        return &rows[..0];
    }
    range(column, low, high, rows)
}
