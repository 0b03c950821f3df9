// The terms of the nodes of two netlists, each once.
ghost use Rattle.std.specs.Prelude.{◌≡◌, ◌-◌, ◌<◌, ◌^◌, [], length, IfOk};
ghost use Rattle.kp_equiv.specs.inner.Shapes.{IsTable, Puts};

use crate::term::Term;
use kp_base::NoMemory;
use kp_net::NodeId;
use std::alloc::Global;
use std::collections::HashMap;
use std::marker::Model;

/// The number of each term, from 0 on, which is looked up in about constant time. Contracts see the terms with their numbers.
pub(crate) struct Table {
    numbers: HashMap<Term, u32>,
}

impl Drop for Table {
    fn drop(self) {
        let Table { numbers } = self;
        drop(numbers);
    }
}

impl Model for Table {
    ghost use Rattle.kp_equiv.specs.inner.Shapes.{Numbered};

    ghost Value = { Numbered };

    ghost view = { λ t. t.numbers.entries };
}

impl Table {
    /// No terms. Nothing is allocated until one is added.
    pub fn new(alloc: Global) -> Table
        ensures { result ≡ [] }
    {
        Table {
            numbers: HashMap::new(alloc),
        }
    }

    /// The number of a term, which is added if it isn't present. The only error is out of memory.
    pub fn number(&mut self, term: Term) -> Result<NodeId, NoMemory>
        requires room { length self.old < 2 ^ 32 - 1 }
        requires table { IsTable self.old }
        ensures { IfOk result (λ i. Puts self.old self.new term i.0) }
    {
        match self.numbers.get(&term).copied() {
            Some(number) => {
                drop(term);
                Ok(NodeId(number))
            }
            None => {
                let number = self.numbers.len() as u32;
                self.numbers.insert(term, number)?;
                Ok(NodeId(number))
            }
        }
    }
}
