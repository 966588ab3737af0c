//! Laws of lists, each on a function that does nothing.

ghost use Rattle.std.specs.Prelude.{◌≡◌, Bool, true, not, ◌&&◌, List};
ghost use Rattle.std.specs.List.{filter};
ghost use Rattle.std.specs.List.Sorted.{IsPermutation, IsSorted, IsStable};
ghost use Rattle.std.specs.Cmp.{IsTotalOrder};
ghost use Rattle.std.specs.declared.cmp.Ordering.{Ordering};
ghost use Rattle.list_laws.specs.Tally.{SameTally};
ghost use Rattle.list_laws.specs.Order.{Ascends, sort_by};
ghost use Rattle.list_laws.specs.Stretch.{Rises, stretch};

/// Lists have the same members as often exactly where one is a permutation of the other.
pub fn tallies_tell_permutations<T>()
    ensures tells { (same : T → T → Bool) → ((x y : T) → same x y ≡ true → x ≡ y)
        → ((x : T) → same x x ≡ true) → (xs ys : List T) → SameTally xs ys → IsPermutation xs ys }
    ensures kept { (xs ys : List T) → IsPermutation xs ys → SameTally xs ys }
{}

/// A sort gives its members in order, has each of them as often, and keeps the order of those that
/// tie; and it is the only list that is in order and does so.
pub fn sorts_only_move_members<T>()
    ensures ordered { (cmp : T → T → Ordering) → IsTotalOrder cmp → (xs : List T)
        → Ascends cmp (sort_by cmp xs) }
    ensures kept { (cmp : T → T → Ordering) (xs : List T) → IsPermutation (sort_by cmp xs) xs }
    ensures stable { (cmp : T → T → Ordering) → IsTotalOrder cmp → (xs : List T)
        → IsStable cmp xs (sort_by cmp xs) }
    ensures only { (cmp : T → T → Ordering) → IsTotalOrder cmp → (xs ys : List T)
        → IsSorted cmp ys → IsStable cmp xs ys → ys ≡ sort_by cmp xs }
{}

/// A stretch is the filter of its list by both of its ends, where the list is in order for them:
/// members that are not before stand together at its end, and so do those that are past.
pub fn stretches_are_filters<T>()
    ensures { (before past : T → Bool) (xs : List T) → Rises (λ x. not (before x)) xs
        → Rises past xs
        → stretch before past xs ≡ filter (λ x. not (before x) && not (past x)) xs }
{}
