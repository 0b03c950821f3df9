// Classes of nodes, one for all nodes with equivalent trees.
ghost use Rattle.std.specs.Prelude.{◌≡◌, ◌<◌, length};
ghost use Rattle.std.specs.Bool.{Decides};
ghost use Rattle.kp_equiv.specs.{Alike.Alike, Classes.class_in, Classes.Determines};

use kp_net::{Netlist, NodeId};

/// The classes of the nodes of two netlists, by the numbers of the nodes. In the classes of a netlist comparison (`Determines`), two nodes have the same
/// class exactly if their trees are equivalent.
pub struct Classes {
    /// The class of each node of the first netlist.
    pub first: Vec<NodeId>,
    /// The class of each node of the second netlist.
    pub second: Vec<NodeId>,
}

impl Drop for Classes {
    fn drop(self) {
        let Classes { first, second } = self;
        drop(first);
        drop(second);
    }
}

impl Classes {
    /// Whether two nodes have equivalent trees.
    pub fn alike(&self, a: &Netlist, b: &Netlist, i: NodeId, j: NodeId) -> bool
        requires determines { Determines a.now b.now self.now.first.items self.now.second.items }
        requires in_first { i.0 < length a.now.nodes }
        requires in_second { j.0 < length b.now.nodes }
        ensures { Decides result (Alike a.now b.now i j) }
    {
        let first = class_of(self.first.as_slice(), i);
        let second = class_of(self.second.as_slice(), j);
        first == second
    }
}

/// The class of a node.
pub fn class_of(classes: &[NodeId], node: NodeId) -> NodeId
    requires { node.0 < length classes.now }
    ensures { result ≡ class_in classes.now node }
{
    classes[node.0 as usize]
}
