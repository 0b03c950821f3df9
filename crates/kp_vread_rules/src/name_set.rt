// Names that are looked up in about constant time.
ghost use Rattle.std.specs.Prelude.{◌≡◌, [], OnOk};
ghost use Rattle.kp_net.specs.Names.{among};
ghost use Rattle.kp_vread_rules.specs.inner.Sets.{Adds};

use kp_base::NoMemory;
use kp_net::{Key, Label};
use std::alloc::Global;
use std::collections::HashSet;
use std::marker::Model;

/// Names that are looked up in about constant time. Contracts see the list of them.
pub(crate) struct NameSet<'m> {
    names: HashSet<Key<'m>>,
}

impl Drop for NameSet<'_> {
    fn drop(self) {
        let NameSet { names } = self;
        drop(names);
    }
}

impl<'m> Model for NameSet<'m> {
    ghost use Rattle.std.specs.Prelude.{List, ℕ};

    ghost Value = { List (List ℕ) };

    ghost view = { λ s. s.names.keys };
}

impl<'m> NameSet<'m> {
    /// No names.
    pub fn new(alloc: Global) -> NameSet<'m>
        ensures { result ≡ [] }
    {
        NameSet {
            names: HashSet::new(alloc),
        }
    }

    /// Whether a name is among them.
    pub fn has(&self, name: &'m Label) -> bool
        ensures { result ≡ among self.now name.now }
    {
        self.names.contains(&Key::new(name))
    }

    /// Adds a name, which may be present already. The only error is out of memory.
    pub fn add(&mut self, name: &'m Label) -> Result<(), NoMemory>
        ensures { OnOk result (Adds self.old self.new name.now) }
    {
        self.names.insert(Key::new(name))?;
        Ok(())
    }
}
