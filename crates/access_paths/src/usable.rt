//! Which terms may be used once some items are placed.
ghost use Rattle.std.specs.Prelude.{◌≡◌};
ghost use Rattle.sql_meaning.specs.UsedTerms as meant;
ghost use Rattle.where_terms.specs.Views.{term_of};
ghost use Rattle.where_terms.specs.Marked.{IsMarked};
ghost use Rattle.access_paths.specs.Placed.{items_in};

use where_terms::Term;

/// Whether all items that the term's keys name are placed.
pub(crate) fn is_usable(term: &Term, placed: u64) -> bool
    requires { IsMarked term.now }
    ensures { result ≡ meant.is_usable (items_in placed) (term_of term.now) }
{
    term.others & placed == term.others
}
