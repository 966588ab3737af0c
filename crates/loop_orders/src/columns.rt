//! Keys of ORDER BY that are columns of an item.
ghost use Rattle.std.specs.Prelude.{◌≡◌, ◌&&◌};
ghost use Rattle.sql_meaning.specs.Expressions as expressions;
ghost use Rattle.sql_meaning.specs.OrderState.{on_item, test_column};
ghost use Rattle.sql_meaning.specs.Orders as orders;
ghost use Rattle.sql_value.specs.View.{plain_collation};
ghost use Rattle.sql_bound.specs.Columns.{site_of};
ghost use Rattle.sql_bound.specs.Statements.{sort_key_of};

use sql_bound::{BKey, bare_column, is_same_column};
use sql_value::{Collation, is_same_collation};

/// Whether the key is a column of the item.
pub(crate) fn is_of_item(key: &BKey, item: u32) -> bool
    ensures { result ≡ on_item item (expressions.bare_column (sort_key_of key.now).expr) }
{
    match bare_column(key.expr) {
        Some(found) => found.item == item,
        None => false,
    }
}

/// Whether the key is this column of the item, under this collation.
pub(crate) fn is_column(key: &BKey, item: u32, column: Option<u32>, coll: Collation) -> bool
    ensures { result ≡ test_column item
        (λ site. orders.same_site (site_of column) site
        && orders.same_collation (plain_collation coll) (sort_key_of key.now).collation)
        (expressions.bare_column (sort_key_of key.now).expr) }
{
    match bare_column(key.expr) {
        Some(found) => {
            found.item == item
                && is_same_column(column, found.column)
                && is_same_collation(coll, key.coll)
        }
        None => false,
    }
}
