// The labels of a program, by their names.
ghost use Rattle.std.specs.Prelude.{◌≡◌, ◌++◌, ◌∷◌, [], None, OnOk, IfOk, nat_eq, option_map};
ghost use Rattle.std.proofs.Common.{rules};
ghost use Rattle.std.specs.Cmp.Lexicographic.{pointwise};
ghost use Rattle.std.specs.Cmp.Rules.{comparing, hashing};
ghost use Rattle.std.specs.Hash as fed;
ghost use Rattle.kp_asm.specs.Program.{declared, with_declared, with_item, labels_from};

use crate::item::{Item, Label};
use crate::token::bytes_of;
use indexmap::IndexMap;
use kp_base::NoMemory;
use std::alloc::Global;
use std::hash::{Hash, Hasher};
use std::marker::Model;

// The name of a label.
#[derive(Drop)]
struct Name {
    bytes: Vec<u8>,
}

impl Model for Name {
    ghost use Rattle.std.specs.Prelude.{ℕ, List};

    ghost Value = { List ℕ };

    ghost view = { λ n. n.bytes.items };
}

impl Name {
    fn new(alloc: Global, bytes: &[u8]) -> Result<Name, NoMemory>
        ensures { IfOk result (λ n. n ≡ bytes.now) }
    {
        let bytes = Vec::from_slice(alloc, bytes)?;
        Ok(Name { bytes })
    }

    fn bytes(&self) -> &[u8]
        ensures { result.now ≡ self.now }
    {
        self.bytes.as_slice()
    }
}

impl PartialEq for Name {
    ghost eq = { pointwise nat_eq };

    ghost laws = { Prim.search (comparing, rules) };

    fn eq(&self, other: &Name) -> bool {
        self.bytes() == other.bytes()
    }
}

impl Eq for Name {
    ghost laws = { Prim.search (comparing, rules) };
}

impl Hash for Name {
    ghost hash_input = { fed.slice fed.u8 };

    ghost respects_eq = { Prim.search (hashing, rules) };

    fn hash<H: Hasher>(&self, state: &mut H) {
        self.bytes().hash(state);
    }
}

/// The first declaration of each label, by its name.
pub struct Labels {
    declared: IndexMap<Name, Label>,
}

impl Drop for Labels {
    fn drop(self) {
        let Labels { declared } = self;
        drop(declared);
    }
}

impl Model for Labels {
    ghost use Rattle.std.specs.Prelude.{List, ℕ};
    ghost use Rattle.kp_asm.specs.declared.item.Label.{Label};

    ghost Value = { List (List ℕ × Label) };

    ghost view = { λ l. l.declared.entries };
}

impl Labels {
    fn new(alloc: Global) -> Labels
        ensures { result ≡ [] }
    {
        Labels {
            declared: IndexMap::new(alloc),
        }
    }

    fn get(&self, name: &Name) -> Option<Label>
        ensures { result ≡ declared self.now name.now }
    {
        self.declared.get(name).copied()
    }

    fn insert(&mut self, name: Name, label: Label) -> Result<(), NoMemory>
        requires { declared self.old name ≡ None }
        ensures { OnOk result (self.new ≡ self.old ++ (name, label) ∷ []) }
    {
        self.declared.insert(name, label)?;
        Ok(())
    }

    /// The first declaration of this name, if there is one. The only error is out of memory.
    pub fn find(&self, alloc: Global, name: &[u8]) -> Result<Option<Label>, NoMemory>
        ensures { IfOk result (λ label. label ≡ declared self.now name.now) }
    {
        let name = Name::new(alloc, name)?;
        Ok(self.get(&name))
    }

    fn declare(&mut self, alloc: Global, bytes: &[u8], label: Label) -> Result<(), NoMemory>
        ensures { OnOk result (self.new ≡ with_declared self.old bytes.now label) }
    {
        let name = Name::new(alloc, bytes)?;
        if self.get(&name).is_none() {
            self.insert(name, label)?;
        }
        Ok(())
    }

    fn add(&mut self, alloc: Global, text: &[u8], item: Item) -> Result<(), NoMemory>
        ensures { OnOk result (self.new ≡ with_item text.now self.old item) }
    {
        match item {
            Item::Label(label) => self.declare(alloc, bytes_of(text, label.name), label),
            Item::Instruction(_) => Ok(()),
        }
    }

    /// The labels that these items declare. The only error is out of memory.
    pub fn of(alloc: Global, text: &[u8], items: &[Item]) -> Result<Labels, NoMemory>
        ensures { IfOk result (λ labels. labels ≡ labels_from text.now [] items.now) }
    {
        let mut labels = Labels::new(alloc);
        for item in items {
            labels.add(alloc, text, *item)?;
        }
        Ok(labels)
    }
}
