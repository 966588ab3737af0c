//! The numbers of parameters.
ghost use Rattle.std.specs.Prelude.{◌≡◌, ◌+◌, ◌++◌, ◌∷◌, [], None, unwrap_or, IfOk, OnOk};
ghost use Rattle.sql_lexemes.specs.Parameters.{no_parameters, number_named, parameter_number};
ghost use Rattle.sql_lexemes.specs.Parameters.{met_behind};
ghost use Rattle.sql_lexemes.specs.Parameters.{with_name};

use indexmap::IndexMap;
use sql_tokens::MOST_PARAMETERS;
use sql_value::{Memory, read_digits};
use std::alloc::Global;
use std::marker::Model;

/// The parameters met so far in a statement. A name is found by one hash.
///
/// The default hasher isn't keyed, so names chosen to collide make a look-up go over all of them.
#[derive(Drop)]
pub(crate) struct Parameters {
    greatest: u32,
    named: IndexMap<Vec<u8>, u32>,
}

impl Model for Parameters {
    ghost use Rattle.std.specs.Prelude.{map};
    ghost use Rattle.sql_lexemes.specs.Parameters.{Met};

    ghost Value = { Met };

    ghost view = { λ p. record {
      greatest = p.greatest;
      named = map (λ one. (one.0.items, one.1)) p.named.entries;
    } };
}

fn owned(alloc: Global, bytes: &[u8]) -> Result<Vec<u8>, Memory>
    ensures { IfOk result (λ copy. copy.items ≡ bytes.now) }
{
    Ok(Vec::from_slice(alloc, bytes)?)
}

impl Parameters {
    /// None so far.
    pub(crate) fn new(alloc: Global) -> Self
        ensures { result ≡ no_parameters }
    {
        Parameters {
            greatest: 0,
            named: IndexMap::new(alloc),
        }
    }

    /// The number that a name had before. Takes no memory.
    fn find(&self, name: &[u8]) -> Option<u32>
        ensures { result ≡ number_named name.now self.now.named }
    {
        match self.named.get(name) {
            Some(number) => Some(*number),
            None => None,
        }
    }

    /// One more than the greatest so far, which is now the greatest. Memory is answered too where
    /// 32 bits can't hold it, which takes a text of four billion bytes.
    fn take_next(&mut self) -> Result<u32, Memory>
        ensures { IfOk result (λ n. (n ≡ self.old.greatest + 1)
            × (self.new ≡ record { greatest = self.old.greatest + 1; named = self.old.named })) }
    {
        match self.greatest.checked_add(1) {
            Some(number) => {
                self.greatest = number;
                Ok(number)
            }
            None => Err(Memory),
        }
    }

    /// Gives a name that has no number this one.
    fn add(&mut self, alloc: Global, name: &[u8], number: u32) -> Result<(), Memory>
        requires { number_named name.now self.old.named ≡ None }
        ensures { OnOk result (self.new ≡ record {
          greatest = self.old.greatest;
          named = self.old.named ++ (name.now, number) ∷ [];
        }) }
    {
        let key = owned(alloc, name)?;
        self.named.insert(key, number)?;
        Ok(())
    }

    /// The number of a name, which is met from here on.
    fn take_name(&mut self, alloc: Global, name: &[u8]) -> Result<u32, Memory>
        ensures { IfOk result (λ n. (n ≡ unwrap_or (number_named name.now self.old.named)
            (self.old.greatest + 1))
            × (self.new ≡ with_name self.old name.now (number_named name.now self.old.named))) }
    {
        if let Some(number) = self.find(name) {
            return Ok(number);
        }
        let number = self.take_next()?;
        self.add(alloc, name, number)?;
        Ok(number)
    }

    /// The number of a parameter, which is met from here on. `None` where `?` stands before what is
    /// no number of a parameter.
    #[tactic(auto, unfolding(crate::specs::Parameters::form_of, crate::specs::Parameters::parameter_number, crate::specs::Parameters::met_behind))]
    pub(crate) fn take(&mut self, alloc: Global, bytes: &[u8]) -> Result<Option<u32>, Memory>
        ensures { IfOk result (λ n. (n ≡ parameter_number self.old bytes.now)
            × (self.new ≡ met_behind self.old bytes.now)) }
    {
        match bytes {
            [b'?'] => Ok(Some(self.take_next()?)),
            [b'?', digits @ ..] => match read_digits(MOST_PARAMETERS, digits) {
                Some(number) => match u32::try_from(number) {
                    Ok(number) => {
                        self.greatest = self.greatest.max(number);
                        Ok(Some(number))
                    }
                    Err(_) => Err(Memory),
                },
                None => Ok(None),
            },
            _ => Ok(Some(self.take_name(alloc, bytes)?)),
        }
    }
}
