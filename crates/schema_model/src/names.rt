//! Names that are found by one hash.
ghost use Rattle.std.specs.Prelude.{◌≡◌, ◌++◌, ◌∷◌, [], List, ℕ, position, false, IfOk, OnOk};
ghost use Rattle.std.specs.Prelude.{OnErr};
ghost use Rattle.sql_meaning.specs.Letters.{folded_bytes};
ghost use Rattle.schema_model.specs.Names.{is_name, has_name};

use indexmap::IndexSet;
use sql_value::{Memory, fold_byte};
use std::alloc::Global;
use std::marker::Model;

/// Names that differ, with their letters made lower, each with its position.
///
/// The default hasher isn't keyed, so names chosen to collide make a look-up go over all of them.
#[derive(Drop)]
pub struct Names {
    keys: IndexSet<Vec<u8>>,
}

impl Model for Names {
    ghost use Rattle.std.specs.Prelude.{List, ℕ, map};

    ghost Value = { List (List ℕ) };

    ghost view = { λ names. map (λ key. key.items) names.keys.keys };
}

/// The name with `A` to `Z` made lower, as a key.
pub(crate) fn folded_key(alloc: Global, name: &[u8]) -> Result<Vec<u8>, Memory>
    ensures { IfOk result (λ key. key.items ≡ folded_bytes name.now) }
{
    let mut key = Vec::new(alloc);
    for byte in name {
        key.push(fold_byte(*byte))?;
    }
    Ok(key)
}

impl Names {
    /// No names.
    pub fn new(alloc: Global) -> Self
        ensures { result ≡ [] }
    {
        Names {
            keys: IndexSet::new(alloc),
        }
    }

    /// Where the name stands.
    pub fn find(&self, folded: &[u8]) -> Option<usize>
        ensures { result ≡ position (is_name folded.now) self.now }
    {
        self.keys.get_index_of(folded)
    }

    /// Whether the name is there.
    pub fn has(&self, folded: &[u8]) -> bool
        ensures { result ≡ has_name folded.now self.now }
    {
        self.keys.contains(folded)
    }

    /// Appends a name that isn't there. After `Memory` the names are as they were.
    pub fn add(&mut self, alloc: Global, name: &[u8]) -> Result<(), Memory>
        requires { has_name (folded_bytes name.now) self.old ≡ false }
        ensures ok { OnOk result (self.new ≡ self.old ++ folded_bytes name.now ∷ []) }
        ensures err { OnErr result (self.new ≡ self.old) }
    {
        let key = folded_key(alloc, name)?;
        self.keys.insert(key)?;
        Ok(())
    }

    /// Takes the last name away.
    pub fn forget(&mut self)
        ensures { (n : List ℕ) → (rest : List (List ℕ)) → self.old ≡ rest ++ n ∷ []
            → self.new ≡ rest }
    {
        let _ = self.keys.pop();
    }

    /// Names that equal these.
    pub fn try_copy(&self) -> Result<Names, Memory>
        ensures { IfOk result (λ names. names ≡ self.now) }
    {
        Ok(Names {
            keys: self.keys.clone()?,
        })
    }
}
