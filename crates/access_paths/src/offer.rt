//! Offers: a path to an item's rows, with what it costs.
ghost use Rattle.std.specs.Prelude.{◌≡◌};
ghost use Rattle.plan_choice.specs.CostLaws.{IsFlat};
ghost use Rattle.plan_form.specs.Paths.{path_of};
ghost use Rattle.plan_form.specs.Plans.{covers};
ghost use Rattle.access_paths.specs.Placed.{items_in};
ghost use Rattle.access_paths.specs.NextItems.{setting_for, IsNext};
ghost use Rattle.access_paths.specs.Offers.{seen_offer};
ghost use Rattle.access_paths.specs.Listed.{told_by};

use crate::next_item::NextItem;
use path_costs::{Cost, offer_cost, path_size};
use plan_form::Path;

/// A way to the rows of an item.
#[derive(Clone, Copy)]
pub struct Offer<'p> {
    pub path: &'p Path<'p>,
    /// The numbers of the conjuncts that the path makes true, rising. They aren't tested again.
    pub consumed: &'p [u32],
    pub cost: Cost,
}

/// The offer of a path that makes these conjuncts true.
pub(crate) fn priced<'p>(next: &NextItem, path: &'p Path<'p>, consumed: &'p [u32]) -> Offer<'p>
    requires next { IsNext next.now }
    requires flat { IsFlat (path_of path.now) }
    ensures { seen_offer result ≡ told_by (setting_for next.now) (items_in next.now.placed)
        next.now.item (path_of path.now) (covers path.now) consumed.now }
{
    let size = path_size(next.setting.figures, next.table, path);
    Offer {
        path,
        consumed,
        cost: offer_cost(next.due, consumed, size),
    }
}
