// Names and their indices.
ghost use Rattle.std.specs.Prelude.{◌≡◌, ◌<◌, [], length, nat_eq, IfOk, IfSome, OnOk};
ghost use Rattle.std.specs.List.{position};
ghost use Rattle.std.specs.Cmp.Lexicographic.{pointwise};
ghost use Rattle.indexmap.specs.IndexSet.{insert_key};
ghost use Rattle.kp_ast.specs.Expressions.{is_same_name};
ghost use Rattle.kp_seq_plan.specs.Names.{keys_of};
ghost use Rattle.kp_seq_plan.specs.inner.Keys.{HasPlaces};

use kp_ast::{Name, Widths};
use kp_base::NoMemory;
use std::alloc::Global;
use std::collections::HashMap;
use std::marker::Model;

/// Names, each with an index. Contracts see the list of the names.
pub struct Keys {
    names: Vec<Name>,
    places: HashMap<Name, usize>,
}

impl Drop for Keys {
    fn drop(self) {
        let Keys { names, places } = self;
        drop(names);
        drop(places);
    }
}

impl Model for Keys {
    ghost use Rattle.std.specs.Prelude.{List, ℕ};
    ghost use Rattle.kp_seq_plan.specs.inner.Keys.{HasPlaces};

    ghost Value = { List (List ℕ) };

    ghost view = { λ k. k.names.items };

    ghost invariant = { λ k. HasPlaces k.places.entries k.names.items };
}

impl Keys {
    /// The declared names, each once, in text order. Error: out of memory.
    pub fn of(alloc: Global, widths: &Widths) -> Result<Keys, NoMemory>
        ensures { IfOk result (λ keys. keys ≡ keys_of [] widths.now.entries) }
    {
        let mut names = Vec::new(alloc);
        let mut places = HashMap::new(alloc);
        for entry in widths.entries.as_slice() {
            add(&mut names, &mut places, &entry.name)?;
        }
        Ok(Keys { names, places })
    }

    /// The number of names.
    pub fn len(&self) -> usize
        ensures { result ≡ length self.now }
    {
        self.names.len()
    }

    /// The names, by their indices. Error: out of memory.
    pub fn names(&self, alloc: Global) -> Result<Vec<Name>, NoMemory>
        ensures { IfOk result (λ names. names.items ≡ self.now) }
    {
        let mut names = Vec::new(alloc);
        for i in 0..self.names.len() {
            names.push(self.names[i].clone()?)?;
        }
        Ok(names)
    }

    /// The index of a name, if it has one.
    pub fn place(&self, name: &Name) -> Option<usize>
        ensures place { result ≡ position (is_same_name name.now) self.now }
        ensures within { IfSome result (λ i. i < length self.now) }
    {
        self.places.get(name).copied()
    }
}

// Adds a name, unless it is among these.
fn add(
    names: &mut Vec<Name>,
    places: &mut HashMap<Name, usize>,
    name: &Name,
) -> Result<(), NoMemory>
    requires { HasPlaces places.old.entries names.old.items }
    ensures names { OnOk result (names.new.items ≡ insert_key (pointwise nat_eq) names.old.items name.now) }
    ensures places { OnOk result (HasPlaces places.new.entries names.new.items) }
{
    if places.get(name).is_none() {
        places.insert(name.clone()?, names.len())?;
        names.push(name.clone()?)?;
    }
    Ok(())
}
