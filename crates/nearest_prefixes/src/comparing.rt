//! Which of two prefixes is the nearer one, and which are rivals.
ghost use Rattle.std.specs.Prelude.{◌≡◌, length};
ghost use Rattle.std.specs.Ordering.{nat_cmp};
ghost use Rattle.std.specs.Cmp.Lexicographic.{slice_cmp};
ghost use Rattle.plan_choice.specs.Choice.{nearer};
ghost use Rattle.plan_choice.specs.Prefixes as meant;
ghost use Rattle.access_paths.specs.Settings.{setting_of};
ghost use Rattle.nearest_prefixes.specs.Prefixes.{loops_of, seen_prefix};
ghost use Rattle.nearest_prefixes.specs.Growing.{Shows};
ghost use Rattle.nearest_prefixes.specs.Entering.{alike};
ghost use Rattle.nearest_prefixes.specs.Comparing.{last_step, steps_of, figures_cmp};

use crate::Prefix;
use access_paths::Setting;
use loop_orders::order_number;
use std::cmp::Ordering;

/// By the last loops alone: by item, and then by the number of the offer.
fn compare_last(left: &Prefix, right: &Prefix) -> Ordering
    ensures { result ≡ slice_cmp nat_cmp (last_step left.now) (last_step right.now) }
{
    left.item
        .cmp(&right.item)
        .then(left.number.cmp(&right.number))
}

/// Loop by loop, from the outermost in.
fn compare_loops(left: &Prefix, right: &Prefix) -> Ordering
    ensures { length (loops_of left.now) ≡ length (loops_of right.now)
        → result ≡ slice_cmp nat_cmp (steps_of (loops_of left.now))
        (steps_of (loops_of right.now)) }
{
    match (left.before, right.before) {
        (Some(outer), Some(other)) => compare_loops(outer, other).then(compare_last(left, right)),
        _ => compare_last(left, right),
    }
}

/// By what is known of all loops together: weight, cost, rows, and how far they give the order.
fn compare_figures(setting: &Setting, left: &Prefix, right: &Prefix) -> Ordering
    ensures { result ≡ figures_cmp (setting_of setting.now) (seen_prefix left.now)
        (seen_prefix right.now) }
{
    let number = order_number(setting.bound, left.order);
    let other = order_number(setting.bound, right.order);
    left.weight
        .cmp(&right.weight)
        .then(left.cost.cmp(&right.cost))
        .then(left.rows.cmp(&right.rows))
        .then(number.cmp(&other))
}

/// Which of two prefixes of one length is the nearer one, the lesser.
pub(crate) fn compare(setting: &Setting, left: &Prefix, right: &Prefix) -> Ordering
    ensures { (p q : meant.Prefix) → Shows (setting_of setting.now) p left.now
        → Shows (setting_of setting.now) q right.now → length p.loops ≡ length q.loops
        → result ≡ nearer (setting_of setting.now) p q }
{
    match compare_figures(setting, left, right) {
        Ordering::Equal => compare_loops(left, right),
        unequal => unequal,
    }
}

/// Whether two prefixes have loops of the same items and give as much of the order.
pub(crate) fn are_rivals(setting: &Setting, left: &Prefix, right: &Prefix) -> bool
    ensures { (p q : meant.Prefix) → Shows (setting_of setting.now) p left.now
        → Shows (setting_of setting.now) q right.now
        → result ≡ alike (setting_of setting.now) p q }
{
    left.placed == right.placed
        && order_number(setting.bound, left.order) == order_number(setting.bound, right.order)
}
