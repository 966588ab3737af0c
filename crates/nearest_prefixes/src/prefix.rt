//! Prefixes of plans: chains of loops in an arena.
use access_paths::Offer;
use loop_orders::OrderState;

/// Some loops of a plan, one at least, from outside in, with what they cost together: the last loop,
/// and the prefix of those outside it. Prefixes that begin alike share what they begin with.
#[derive(Clone, Copy)]
pub struct Prefix<'p> {
    /// The loops outside the last one; none where that is the first.
    pub before: Option<&'p Prefix<'p>>,
    /// The item of the last loop.
    pub item: u32,
    /// Which of the item's offers the last loop goes by.
    pub number: u32,
    pub offer: &'p Offer<'p>,
    /// The items of all loops: bit k stands for item k.
    pub placed: u64,
    /// How many loops there are.
    pub length: u32,
    pub cost: i32,
    /// How many rows the loops are thought to give.
    pub rows: i32,
    /// The cost, with that of a sort where the loops don't give the asked order.
    pub weight: i32,
    /// How far the loops give the asked order. It isn't open where each item has its loop.
    pub order: OrderState<'p>,
}
