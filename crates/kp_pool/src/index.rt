// A hash index of nodes.
ghost use Rattle.std.specs.Prelude.{◌≡◌, ◌<◌, ◌≤◌, ◌++◌, ◌∷◌, [], length, MatchOption};
ghost use Rattle.kp_net.specs.inner.Lookup.{LacksBelow};
ghost use Rattle.kp_pool.specs.inner.Numbers.{Has, IsIndex};

use indexmap::IndexMap;
use kp_net::Node;
use std::alloc::Global;
use std::marker::Model;

/// The numbers of the first nodes of a list, which is kept elsewhere: of all of them, unless an allocation failed.
///
/// Contracts see an index as the list of the nodes with their numbers.
pub(crate) struct Index {
    numbers: IndexMap<Node, u32>,
}

impl Drop for Index {
    fn drop(self) {
        let Index { numbers } = self;
        drop(numbers);
    }
}

impl Model for Index {
    ghost use Rattle.kp_pool.specs.inner.Numbers.{Numbered};

    ghost Value = { Numbered };

    ghost view = { λ x. x.numbers.entries };
}

impl Index {
    /// The index of an empty list. Memory is allocated as nodes are added.
    pub fn new(alloc: Global) -> Index
        ensures { result ≡ [] }
    {
        Index {
            numbers: IndexMap::new(alloc),
        }
    }

    /// The number of the node in the list, or `None` if the list lacks it. The nodes that the index lacks are searched.
    pub fn number(&self, nodes: &[Node], n: &Node) -> Option<usize>
        requires { IsIndex self.now nodes.now }
        ensures { MatchOption result (LacksBelow nodes.now n.now (length nodes.now)) (Has nodes.now n.now) }
    {
        match self.numbers.get(n).copied() {
            Some(i) => Some(i as usize),
            None => search(nodes, self.numbers.len(), n),
        }
    }

    /// The node is appended to these. After the first failed allocation no more nodes are added to the index.
    pub fn append(&mut self, nodes: &[Node], n: &Node)
        requires indexes { IsIndex self.old nodes.now }
        requires few { length nodes.now < 16777216 }
        ensures { IsIndex self.new (nodes.now ++ n.now ∷ []) }
    {
        let number = nodes.len();
        if self.numbers.len() == number {
            let copy = n.copied(*self.numbers.allocator());
            drop(self.numbers.insert(copy, number as u32));
        }
    }
}

// The first node from this number on that equals `n`.
fn search(nodes: &[Node], from: usize, n: &Node) -> Option<usize>
    requires within { from ≤ length nodes.now }
    requires lacks { LacksBelow nodes.now n.now from }
    ensures { MatchOption result (LacksBelow nodes.now n.now (length nodes.now)) (Has nodes.now n.now) }
{
    for i in from..nodes.len() {
        if nodes[i] == *n {
            return Some(i);
        }
    }
    None
}
