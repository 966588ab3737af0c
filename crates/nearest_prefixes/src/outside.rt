//! What the loops outside the next one give it.
ghost use Rattle.access_paths.specs.Settings.{setting_of, IsReady};
ghost use Rattle.nearest_prefixes.specs.Outsides.{TellsOutside};

use crate::Prefix;
use access_paths::Setting;
use loop_orders::{OrderState, first_state};
use sql_bound::no_bit_is_no_item;

/// What is known of some loops, or of none.
#[derive(Clone, Copy)]
pub(crate) struct Outside<'p> {
    pub placed: u64,
    pub length: u32,
    pub cost: i32,
    pub rows: i32,
    pub order: OrderState<'p>,
}

/// What is known of the loops of a prefix, or of none.
pub(crate) fn outer_loops<'p>(
    setting: &Setting<'_, 'p>,
    before: Option<&'p Prefix<'p>>,
) -> Outside<'p>
    requires ready { IsReady setting.now }
    ensures { TellsOutside (setting_of setting.now) before.entry result }
{
    no_bit_is_no_item();
    match before {
        Some(before) => Outside {
            placed: before.placed,
            length: before.length,
            cost: before.cost,
            rows: before.rows,
            order: before.order,
        },
        None => Outside {
            placed: 0,
            length: 0,
            cost: 0,
            rows: 0,
            order: first_state(setting.bound),
        },
    }
}
