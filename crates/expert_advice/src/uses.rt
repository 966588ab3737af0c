//! Which candidates plans use.
ghost use Rattle.std.specs.Prelude.{◌≡◌, ◌==◌, ◌∷◌, ◌++◌, [], ℕ, List, IfOk};
ghost use Rattle.plan_choice.specs.Advice.{used_of};
ghost use Rattle.plan_choice.specs.Choice.{Chosen};
ghost use Rattle.expert_advice.specs.Uses.{Marks, ShowUse};

use sql_value::{Items, Memory};
use std::alloc::Global;
use std::marker::Model;

/// Numbers of candidates, rising.
pub type Numbers = Items<u32>;

/// For each candidate, whether some plan uses it.
#[derive(Drop)]
pub struct Uses {
    flags: Vec<bool>,
}

impl Model for Uses {
    ghost use Rattle.std.specs.Prelude.{List, Bool};

    ghost Value = { List Bool };

    ghost view = { λ uses. uses.flags.items };

    ghost use Rattle.expert_advice.specs.FewUses.{AreFew};

    ghost invariant = { AreFew };
}

impl Uses {
    /// Of so many candidates no plan uses any.
    pub fn none(alloc: Global, count: u32) -> Result<Uses, Memory>
        ensures { IfOk result (λ uses. (own : ℕ) → ShowUse uses own count []) }
    {
        Ok(Uses {
            flags: vec![in alloc; false; count as usize]?,
        })
    }

    /// Marks the candidate of a number, if there is one.
    pub(crate) fn mark_number(&mut self, number: usize)
        ensures { Marks self.old self.new (λ n. n == number) }
    {
        if number < self.flags.len() {
            self.flags[number] = true;
        }
    }

    /// Adds the candidates of these numbers, which are those that one plan uses.
    pub fn mark(&mut self, numbers: &[u32])
        ensures { (own count : ℕ) (plans : List Chosen) (chosen : Chosen)
            → ShowUse self.old own count plans
            → numbers.now ≡ used_of own count (chosen ∷ [])
            → ShowUse self.new own count (plans ++ chosen ∷ []) }
    {
        for number in numbers {
            self.mark_number(*number as usize);
        }
    }

    /// The numbers of those that some plan uses, rising.
    pub fn listed(&self, alloc: Global) -> Result<Numbers, Memory>
        ensures { IfOk result (λ numbers. (own count : ℕ) (plans : List Chosen)
            → ShowUse self.now own count plans → numbers ≡ used_of own count plans) }
    {
        let mut numbers = Items::new(alloc);
        for number in 0..self.flags.len() as u32 {
            if self.flags[number as usize] {
                numbers.push(number)?;
            }
        }
        Ok(numbers)
    }
}
