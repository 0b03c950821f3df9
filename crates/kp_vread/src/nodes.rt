// The wires of a module as nodes.
ghost use Rattle.std.specs.Prelude.{◌≡◌, ◌+◌, ◌≤◌, ◌<◌, ◌-◌, ◌^◌, [], length, All, IfOk, OnOk};
ghost use Rattle.kp_vlog.specs.Scope.{Scope};
ghost use Rattle.kp_vlog.specs.Denote.{Made as MadeOf, made_by, with_wire, with_item};
ghost use Rattle.kp_vread.specs.inner.Building.{IsScope, RightFits, ItemFits, AreNarrow, IsMade};

use crate::kinds::kind;
use crate::numbers::Numbers;
use crate::places::Places;
use kp_base::NoMemory;
use kp_net::Node;
use kp_vlog::{Item, Named, Right};
use kp_vread_rules::is_output;
use std::alloc::Global;

/// The wires that are assigned so far, by their numbers, and their nodes.
#[derive(Drop)]
pub(crate) struct Made<'m> {
    pub wires: Places<'m>,
    pub nodes: Vec<Node>,
}

impl<'m> Made<'m> {
    /// The wires of a module and their nodes, in the order of their assignments. The only error is out of memory.
    pub fn new(
        alloc: Global,
        numbers: &Numbers<'m>,
        items: &'m [Item],
    ) -> Result<Made<'m>, NoMemory>
        requires fit { All ItemFits items.now }
        requires narrow { AreNarrow numbers.now.sizes }
        requires few { length items.now ≤ 16777216 }
        ensures { IfOk result (λ m. (s : Scope) → IsScope numbers.now s → IsMade m.wires m.nodes.items (made_by s items.now)) }
    {
        let mut made = Made {
            wires: Places::new(alloc),
            nodes: Vec::new(alloc),
        };
        for item in items {
            made.item(alloc, numbers, item)?;
        }
        Ok(made)
    }

    #[tactic(auto, using(crate::proofs::Making::output_made, crate::proofs::Making::other_made))]
    fn item(&mut self, alloc: Global, numbers: &Numbers<'m>, item: &'m Item) -> Result<(), NoMemory>
        requires fits { ItemFits item.now }
        requires narrow { AreNarrow numbers.now.sizes }
        requires few { self.old.wires.count < 2 ^ 32 - 1 }
        ensures made { OnOk result ((s : Scope) (m : MadeOf) → IsScope numbers.now s → IsMade self.old.wires self.old.nodes.items m → IsMade self.new.wires self.new.nodes.items (with_item s m item.now)) }
        ensures count { OnOk result (self.new.wires.count ≤ self.old.wires.count + 1) }
    {
        match item {
            Item::Assign(target, right) => {
                if is_output(target.name.bytes()) {
                    Ok(())
                } else {
                    self.wire(alloc, numbers, target, right)?;
                    Ok(())
                }
            }
            _ => Ok(()),
        }
    }

    fn wire(
        &mut self,
        alloc: Global,
        numbers: &Numbers<'m>,
        target: &'m Named,
        right: &'m Right,
    ) -> Result<(), NoMemory>
        requires fits { RightFits right.now }
        requires narrow { AreNarrow numbers.now.sizes }
        requires few { self.old.wires.count < 2 ^ 32 - 1 }
        ensures made { OnOk result ((s : Scope) (m : MadeOf) → IsScope numbers.now s → IsMade self.old.wires self.old.nodes.items m → IsMade self.new.wires self.new.nodes.items (with_wire s m target.now right.now)) }
        ensures count { OnOk result (self.new.wires.count ≡ self.old.wires.count + 1) }
    {
        let kind = kind(alloc, numbers, &self.wires, right)?;
        let width = numbers.sizes.width(&target.name) as u8;
        self.nodes.push(Node { width, kind })?;
        self.wires.add(&target.name)?;
        Ok(())
    }
}
