//! The items that are placed, as the bits of a number: bit k stands for item k.
ghost use Rattle.std.specs.Prelude.{◌≡◌, ◌<◌, ℕ, List, [], ◌∷◌};
ghost use Rattle.sql_bound.specs.Naming.{IsPlaced, has_item};

/// The placed items with one more. Takes no memory.
pub fn with_item(placed: u64, item: u32) -> u64
    requires { item < 64 }
    ensures { (items : List ℕ) → IsPlaced placed items → IsPlaced result (item ∷ items) }
{
    placed | (1 << item)
}

/// A law: where no bit is set, no item is placed.
pub fn no_bit_is_no_item()
    ensures { IsPlaced 0 [] }
{}

/// Whether the item is placed.
pub(crate) fn is_placed(placed: u64, item: u32) -> bool
    ensures { result ≡ has_item placed item }
{
    item < 64 && (placed >> item) & 1 == 1
}
