// The operands of a concatenation, stored in place.
ghost use Rattle.std.specs.Prelude.{◌≡◌, ◌≤◌, length};
ghost use Rattle.std.proofs.Common.{rules};
ghost use Rattle.std.specs.Cmp.Lexicographic.{pointwise};
ghost use Rattle.std.specs.Cmp.{unsigned_Decides};
ghost use Rattle.std.specs.Cmp.Rules.{comparing};
ghost use Rattle.std.specs.Hash as fed;
ghost use Rattle.kp_net.specs.Operands.{same_id, number_of};

use crate::node::NodeId;
use smallvec::SmallVec;
use std::alloc::Global;
use std::hash::{Hash, Hasher};
use std::marker::Model;

/// 2 to 12 nodes, stored in the value itself.
///
/// Contracts see operands as the list of them.
pub struct Operands {
    nodes: SmallVec<NodeId, 12>,
}

impl Drop for Operands {
    fn drop(self) {
        let Operands { nodes } = self;
        drop(nodes);
    }
}

impl Model for Operands {
    ghost use Rattle.std.specs.Prelude.{◌≤◌, ◌≡◌, List, length};
    ghost use Rattle.kp_net.specs.declared.node.NodeId.{NodeId};

    ghost Value = { List NodeId };

    ghost view = { λ o. o.nodes.items };

    ghost invariant = { λ o. (2 ≤ length o.nodes.items) × (length o.nodes.items ≤ 12) × (o.nodes.capacity ≡ 12) };
}

impl Operands {
    /// These nodes, in this order. Allocates nothing.
    pub fn new(alloc: Global, parts: &[NodeId]) -> Operands
        requires at_least { 2 ≤ length parts.now }
        requires at_most { length parts.now ≤ 12 }
        ensures { result ≡ parts.now }
    {
        Operands {
            nodes: SmallVec::from_slice(alloc, parts).unwrap(),
        }
    }

    /// The nodes, in the given order.
    pub fn nodes(&self) -> &[NodeId]
        ensures nodes { result.now ≡ self.now }
        ensures at_least { 2 ≤ length self.now }
        ensures at_most { length self.now ≤ 12 }
    {
        self.nodes.as_slice()
    }
}

impl PartialEq for Operands {
    ghost eq = { pointwise same_id };

    ghost laws = { Prim.search (comparing, rules) };

    fn eq(&self, other: &Operands) -> bool {
        self.nodes() == other.nodes()
    }
}

impl Eq for Operands {
    ghost laws = { Prim.search (comparing, rules) };
}

impl Hash for Operands {
    ghost hash_input = { fed.slice (λ a. fed.u32 (number_of a)) };

    ghost respects_eq = { (fed.items_Alike (fed.on_Alike number_of (fed.same_Alike fed.u32 unsigned_Decides))).fed };

    fn hash<H: Hasher>(&self, state: &mut H) {
        self.nodes().hash(state);
    }
}
