// Names by their numbers, looked up in about constant time.
ghost use Rattle.std.specs.Prelude.{◌≡◌, ◌+◌, ◌<◌, ◌-◌, ◌^◌, ◌++◌, ◌∷◌, [], ℕ, List, OnOk};
ghost use Rattle.kp_vread.specs.inner.Numbering.{place_by, AreNumbered};

use indexmap::IndexMap;
use kp_base::NoMemory;
use kp_net::{Key, Label};
use std::alloc::Global;
use std::marker::Model;

/// Names by their numbers, looked up in about constant time.
///
/// Contracts see the names with their numbers, and how many were added.
pub(crate) struct Places<'m> {
    table: IndexMap<Key<'m>, u32>,
    count: u32,
}

impl Drop for Places<'_> {
    fn drop(self) {
        let Places { table, count: _ } = self;
        drop(table);
    }
}

impl<'m> Model for Places<'m> {
    ghost use Rattle.kp_vread.specs.inner.Numbering.{Numbered};

    ghost Value = { Numbered };

    ghost view = { λ p. record { entries = p.table.entries; count = p.count } };
}

impl<'m> Places<'m> {
    /// No names.
    #[tactic(auto, using(crate::proofs::Numbering::none_numbered))]
    pub fn new(alloc: Global) -> Places<'m>
        ensures numbered { AreNumbered result [] }
        ensures count { result.count ≡ 0 }
    {
        Places {
            table: IndexMap::new(alloc),
            count: 0,
        }
    }

    /// The number of a name: how many were added before it. For a name that was not added, the number of all names that were.
    pub fn place(&self, name: &'m Label) -> u32
        ensures { result ≡ place_by self.now name.now }
    {
        match self.table.get(&Key::new(name)) {
            Some(place) => *place,
            None => self.count,
        }
    }

    /// Adds a name; if it is present already, it keeps its number, and the count increases all the same. The only error is out of memory.
    pub fn add(&mut self, name: &'m Label) -> Result<(), NoMemory>
        requires { self.old.count < 2 ^ 32 - 1 }
        ensures numbered { OnOk result ((ks : List (List ℕ)) → AreNumbered self.old ks → AreNumbered self.new (ks ++ name.now ∷ [])) }
        ensures count { OnOk result (self.new.count ≡ self.old.count + 1) }
    {
        match self.table.get(&Key::new(name)).copied() {
            Some(_) => {
                self.count += 1;
                Ok(())
            }
            None => {
                self.table.insert(Key::new(name), self.count)?;
                self.count += 1;
                Ok(())
            }
        }
    }
}
