// The next values of registers, looked up in about constant time.
ghost use Rattle.std.specs.Prelude.{◌≡◌, ◌∷◌, [], ℕ, List, IfOk, OnOk};
ghost use Rattle.kp_vlog.specs.declared.tree.Update.{Update as Line};
ghost use Rattle.kp_vread.specs.inner.Nexts.{next_by, AreNexts};

use crate::kinds::node;
use crate::places::Places;
use indexmap::IndexMap;
use kp_base::NoMemory;
use kp_net::{Key, Label, NodeId};
use kp_vlog::Update;
use std::alloc::Global;
use std::marker::Model;

/// The nodes with the next values of registers, looked up in about constant time.
///
/// Contracts see the names with their nodes.
pub(crate) struct Nexts<'m> {
    table: IndexMap<Key<'m>, NodeId>,
}

impl Drop for Nexts<'_> {
    fn drop(self) {
        let Nexts { table } = self;
        drop(table);
    }
}

impl<'m> Model for Nexts<'m> {
    ghost use Rattle.std.specs.Prelude.{ℕ, List};
    ghost use Rattle.kp_net.specs.declared.node.NodeId.{NodeId};

    ghost Value = { List (List ℕ × NodeId) };

    ghost view = { λ n. n.table.entries };
}

impl<'m> Nexts<'m> {
    /// The next values by these updates, where a node is the number of its wire. If a register has several, its first one counts. The only error is
    /// out of memory.
    pub fn new(
        alloc: Global,
        wires: &Places<'m>,
        updates: &'m [Update],
    ) -> Result<Nexts<'m>, NoMemory>
        ensures { IfOk result (λ n. AreNexts wires.now n updates.now) }
    {
        let mut nexts = Nexts::empty(alloc);
        let mut left = updates.len();
        'updates: while left > 0 {
            left -= 1;
            nexts.put(wires, &updates[left])?;
        }
        Ok(nexts)
    }

    fn empty(alloc: Global) -> Nexts<'m>
        ensures { result ≡ [] }
    {
        Nexts {
            table: IndexMap::new(alloc),
        }
    }

    fn put(&mut self, wires: &Places<'m>, update: &'m Update) -> Result<(), NoMemory>
        ensures { OnOk result ((xs : List Line) → AreNexts wires.now self.old xs → AreNexts wires.now self.new (update.now ∷ xs)) }
    {
        match update {
            Update::Reg(name, value) => {
                self.table.insert(Key::new(&name.name), node(wires, value))?;
                Ok(())
            }
            Update::File(_, _, _, _) => Ok(()),
        }
    }

    /// The node with the next value of the register; node 0 if it has none.
    pub fn get(&self, name: &'m Label) -> NodeId
        ensures { result ≡ next_by self.now name.now }
    {
        match self.table.get(&Key::new(name)) {
            Some(node) => *node,
            None => NodeId(0),
        }
    }
}
