//! Laws of nested loops, each on a function that does nothing.

ghost use Rattle.std.specs.Prelude.{◌≡◌, ℕ, Bool, true, List, ◌++◌};
ghost use Rattle.std.specs.List.{AllByRecursion};
ghost use Rattle.std.specs.List.Sorted.{IsPermutation};
ghost use Rattle.list_laws.specs.Nest.{Distinct, Rearranges};
ghost use Rattle.list_laws.specs.Tally.{SameTally};
ghost use Rattle.list_laws.specs.NestLaws.{BlocksLeaveOutWhatFails, LoopsFilterTheProduct};

/// Distinct items that are all free may stand in any order, also beside others that stay.
pub fn free_items_change_places()
    ensures any_order { (free : ℕ → Bool) (items order : List ℕ)
        → AllByRecursion (λ i. free i ≡ true) order → Distinct order → IsPermutation items order
        → Rearranges free items order }
    ensures beside { (free : ℕ → Bool) (xs ys us vs : List ℕ) → Rearranges free xs ys
        → Rearranges free us vs → Rearranges free (xs ++ us) (ys ++ vs) }
{}

/// Loops that keep their word find the members of the product that all of them keep, as often.
pub fn loops_filter_the_product<T>()
    ensures permuted { LoopsFilterTheProduct T IsPermutation IsPermutation }
    ensures weighed { LoopsFilterTheProduct T SameTally SameTally }
{}

/// A block of loops leaves out only what no rows of the items to its right complete.
pub fn blocks_leave_out_what_fails<T>()
    ensures permuted { BlocksLeaveOutWhatFails T IsPermutation IsPermutation }
    ensures weighed { BlocksLeaveOutWhatFails T SameTally SameTally }
{}
