//! What an offer costs: a path, with the conjuncts that are tested on its rows.
ghost use Rattle.std.specs.Prelude.{◌≡◌, ℕ, List, not, count_by};
ghost use Rattle.plan_choice.specs.Costs as meant;
ghost use Rattle.plan_choice.specs.Offers.{tested_from};
ghost use Rattle.sql_meaning.specs.Statements.{Conjunct, has_number};
ghost use Rattle.path_costs.specs.Due.{due_from};
ghost use Rattle.path_costs.specs.Views.{told_cost, told_size};

use crate::runs::thinned;
use crate::{Cost, Size};

fn has_number(number: u32, numbers: &[u32]) -> bool
    ensures { result ≡ has_number number numbers.now }
{
    for other in numbers {
        if number == *other {
            return true;
        }
    }
    false
}

/// How many of the numbers aren't consumed.
fn tested_count(due: &[u32], consumed: &[u32]) -> usize
    ensures { result ≡ count_by (λ number. not (has_number number consumed.now)) due.now }
{
    due.iter()
        .filter(|number| !has_number(**number, consumed))
        .count()
}

/// What an offer of this size costs, where those conjuncts can first be evaluated with its item and
/// its path consumes these. Takes no memory.
pub fn offer_cost(due: &[u32], consumed: &[u32], size: Size) -> Cost
    ensures { (z : meant.Size) (placed : List ℕ) (item : ℕ) (conjuncts : List Conjunct)
        → size ≡ told_size z → due.now ≡ due_from placed item 0 conjuncts
        → result ≡ told_cost (meant.thinned z
        (tested_from consumed.now placed item 0 conjuncts)) }
{
    thinned(size, tested_count(due, consumed) as u64)
}
