//! A prefix with one loop more.
ghost use Rattle.std.specs.Prelude.{◌≡◌, ◌<◌, ◌+◌, ◌==◌, pos, ℕ, cond, length};
ghost use Rattle.plan_choice.specs.Logarithms as logarithms;
ghost use Rattle.plan_choice.specs.Prefixes as meant;
ghost use Rattle.sql_meaning.specs.Fitting.{PathFits};
ghost use Rattle.sql_meaning.specs.OrderState as orders;
ghost use Rattle.schema_model.specs.PlainSchemas.{plain_schema};
ghost use Rattle.sql_bound.specs.Statements.{bound_of};
ghost use Rattle.plan_form.specs.Paths.{path_of};
ghost use Rattle.loop_orders.specs.Walks.{loop_by, state_of};
ghost use Rattle.access_paths.specs.Settings.{setting_of, IsReady};
ghost use Rattle.nearest_prefixes.specs.Prefixes.{seen_loop};
ghost use Rattle.nearest_prefixes.specs.Growing.{Stands, Grows};
ghost use Rattle.nearest_prefixes.specs.Outsides.{IsLight, IsLog, TellsOutside};

use crate::Prefix;
use crate::outside::{Outside, outer_loops};
use access_paths::{Offer, Setting};
use loop_orders::{OrderState, pass_loop};
use path_costs::sort_cost;
use plan_form::Path;
use sql_bound::with_item;
use stat_figures::{figures_are_small, log_add};

fn sum(a: i32, b: i32) -> i32
    requires a { IsLog 1000000 a }
    requires b { IsLog 1000000 b }
    ensures { (n m : ℕ) → a ≡ pos n → b ≡ pos m → result ≡ pos (n + m) }
{
    a + b
}

/// What loops cost together, of which all but the last cost so much. The last one runs once for
/// each row of those outside it: `runs` has what that costs.
fn joined_cost(first: bool, cost: i32, runs: i32) -> i32
    requires cost { IsLog 1000000 cost }
    requires runs { IsLog 1000000 runs }
    ensures { (c r : ℕ) → cost ≡ pos c → runs ≡ pos r
        → result ≡ pos (cond first r (logarithms.log_add c r)) }
{
    if first { runs } else { log_add(cost, runs) }
}

/// The cost together with that of a sort of so many rows.
fn sorted_cost(cost: i32, rows: i32) -> i32
    requires cost { IsLog 1000000 cost }
    requires rows { IsLog 1000000 rows }
    ensures { (c r : ℕ) → cost ≡ pos c → rows ≡ pos r
        → result ≡ pos (logarithms.log_add c (logarithms.sort_cost r)) }
{
    log_add(cost, sort_cost(rows))
}

/// The cost, with that of a sort where the order is lost.
fn weight(order: OrderState, cost: i32, rows: i32) -> i32
    requires cost { IsLog 1000000 cost }
    requires rows { IsLog 1000000 rows }
    ensures { (c r : ℕ) → cost ≡ pos c → rows ≡ pos r
        → result ≡ pos (cond (meant.is_lost (state_of order.entry))
        (logarithms.log_add c (logarithms.sort_cost r)) c) }
{
    match order {
        OrderState::Done => cost,
        OrderState::Lost => sorted_cost(cost, rows),
        OrderState::Open(_) => cost,
    }
}

/// With a loop for each item, an order that is still open is lost.
fn closed<'p>(full: bool, order: OrderState<'p>) -> OrderState<'p>
    ensures { state_of result ≡ meant.closed full (state_of order.entry) }
{
    match order {
        OrderState::Done => OrderState::Done,
        OrderState::Lost => OrderState::Lost,
        OrderState::Open(_) => if full { OrderState::Lost } else { order },
    }
}

/// How far the order goes with a loop of the item inside those outside it.
fn order_inside<'p>(
    setting: &Setting<'_, 'p>,
    outer: Outside<'p>,
    item: u32,
    path: &Path<'p>,
) -> OrderState<'p>
    requires ready { IsReady setting.now }
    requires few { outer.length < 64 }
    requires item { item < length (bound_of setting.now.bound.now).items }
    requires fits { PathFits (plain_schema setting.now.schema.now)
        (bound_of setting.now.bound.now) item (path_of path.now) }
    ensures { state_of result ≡ meant.closed
        (outer.entry.length + 1 == length (bound_of setting.now.bound.now).items)
        (orders.pass_loop (plain_schema setting.now.schema.now) (bound_of setting.now.bound.now)
        (state_of outer.entry.order) (loop_by item (path_of path.now))) }
{
    let passed = pass_loop(setting.schema, setting.bound, outer.order, item, path);
    let full = outer.length as usize + 1 == setting.bound.items.len();
    closed(full, passed)
}

/// The prefix with a loop of the item inside those outside it, of which so much is known.
fn inside<'p>(
    setting: &Setting<'_, 'p>,
    before: Option<&'p Prefix<'p>>,
    outer: Outside<'p>,
    item: u32,
    number: u32,
    offer: &'p Offer<'p>,
) -> Prefix<'p>
    requires ready { IsReady setting.now }
    requires outer { TellsOutside (setting_of setting.now) before outer }
    requires light { IsLight outer (seen_loop item number offer.now) }
    requires item { item < length (bound_of setting.now.bound.now).items }
    requires fits { PathFits (plain_schema setting.now.schema.now)
        (bound_of setting.now.bound.now) item (path_of offer.now.path.now) }
    ensures { Grows (setting_of setting.now) before.entry (seen_loop item number offer.now) result }
{
    let runs = sum(outer.rows, offer.cost.run);
    let cost = joined_cost(outer.length == 0, outer.cost, runs);
    let rows = sum(outer.rows, offer.cost.rows);
    let order = order_inside(setting, outer, item, offer.path);
    Prefix {
        before,
        item,
        number,
        offer,
        placed: with_item(outer.placed, item),
        length: outer.length + 1,
        cost,
        rows,
        weight: weight(order, cost, rows),
        order,
    }
}

/// The loops of a prefix, or none, and inside them a loop of the item by its offer of this number.
/// It may be put into the arena, or let go. Takes no memory.
pub fn extended<'p>(
    setting: &Setting<'_, 'p>,
    before: Option<&'p Prefix<'p>>,
    item: u32,
    number: u32,
    offer: &'p Offer<'p>,
) -> Prefix<'p>
    requires ready { IsReady setting.now }
    requires stands { Stands (setting_of setting.now) before (seen_loop item number offer.now) }
    ensures { Grows (setting_of setting.now) before.entry (seen_loop item number offer.now) result }
{
    figures_are_small(setting.figures);
    let outer = outer_loops(setting, before);
    inside(setting, before, outer, item, number, offer)
}
