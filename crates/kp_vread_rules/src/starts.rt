// The literals that the registers start with, looked up in about constant time.
ghost use Rattle.std.specs.Prelude.{◌≡◌, ℕ, List, IfOk, OnOk};
ghost use Rattle.kp_vlog.specs.Occurrences.{start_in};
ghost use Rattle.kp_vread_rules.specs.Tables.{found};
ghost use Rattle.kp_vread_rules.specs.inner.StartValues.{StartsAt};

use kp_base::NoMemory;
use kp_bits::Literal;
use kp_net::{Key, Label};
use kp_vlog::Init;
use std::alloc::Global;
use std::collections::HashMap;
use std::marker::Model;

/// The literals that the registers of a module start with, looked up in about constant time.
///
/// Contracts see the names with their literals.
pub struct Starts<'m> {
    table: HashMap<Key<'m>, Literal>,
}

impl Drop for Starts<'_> {
    fn drop(self) {
        let Starts { table } = self;
        drop(table);
    }
}

impl<'m> Model for Starts<'m> {
    ghost use Rattle.std.specs.Prelude.{ℕ, List};
    ghost use Rattle.kp_bits.specs.declared.literal.Literal.{Literal};

    ghost Value = { List (List ℕ × Literal) };

    ghost view = { λ s. s.table.entries };
}

impl<'m> Starts<'m> {
    /// The literals of these lines. If a register has several, its first one counts. The only error is out of memory.
    pub fn new(alloc: Global, inits: &'m [Init]) -> Result<Starts<'m>, NoMemory>
        ensures { IfOk result (λ s. (n : List ℕ) → found s n ≡ start_in inits.now n) }
    {
        let mut starts = Starts {
            table: HashMap::new(alloc),
        };
        let mut left = inits.len();
        'inits: while left > 0 {
            left -= 1;
            starts.put(&inits[left])?;
        }
        Ok(starts)
    }

    fn put(&mut self, init: &'m Init) -> Result<(), NoMemory>
        ensures { OnOk result (StartsAt (found self.old) (found self.new) init.now) }
    {
        match init {
            Init::Reg(name, value) => {
                self.table.insert(Key::new(&name.name), value.literal)?;
                Ok(())
            }
            _ => Ok(()),
        }
    }

    /// The literal of a register, if it has one.
    pub fn get(&self, name: &'m Label) -> Option<Literal>
        ensures { result ≡ found self.now name.now }
    {
        self.table.get(&Key::new(name)).copied()
    }
}
