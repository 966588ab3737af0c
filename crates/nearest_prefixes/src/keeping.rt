//! What is kept of members that come one by one.
ghost use Rattle.std.specs.Prelude.{◌≡◌, Bool, List, ℕ, [], fold, take};
ghost use Rattle.std.specs.Cmp.{IsEquivalence, IsTotalOrder};
ghost use Rattle.std.specs.declared.cmp.Ordering.{Ordering};
ghost use Rattle.list_laws.specs.FirstComing.{keep_first};
ghost use Rattle.list_laws.specs.Order.{sort_by};
ghost use Rattle.nearest_prefixes.specs.Keeping.{joined};

/// A law: members that come one by one, of which the nearest of all rivals so far are kept, and of
/// these the first n, are in the end those that sorting all of them leaves: of rivals the nearest,
/// and of these the first n. So to cut the list each time loses nothing.
pub fn kept_one_by_one<T>()
    ensures { (rivals : T → T → Bool) → IsEquivalence rivals → (nearer : T → T → Ordering)
        → IsTotalOrder nearer → (n : ℕ) (all : List T)
        → fold (joined n rivals nearer) [] all
        ≡ take n (keep_first rivals [] (sort_by nearer all)) }
{}
