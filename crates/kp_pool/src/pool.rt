// The pool in which nodes are built: no node is added twice, and foldable ones are folded.
ghost use Rattle.std.specs.Prelude.{◌≡◌, ◌+◌, ◌<◌, ◌≤◌, ◌++◌, ◌∷◌, [], length, IfOk, false, get_or, vec_len, vec_capacity};
ghost use Rattle.kp_net.specs.Nodes.{Cells, word_at, word_of_kind, word_of_node};
ghost use Rattle.kp_net.specs.Widths.{NodeOk, AllRight, Distinct, is_cell, no_node, wide};
ghost use Rattle.kp_net.specs.Depth.{depth, depth_of};
ghost use Rattle.kp_pool.specs.Folding.{foldable, NoneFoldable};
ghost use Rattle.kp_net.specs.Parts.{PartsOk};
ghost use Rattle.kp_net.specs.Growth.{Held, Wire, Kept, Grown, AddsOnly};
ghost use Rattle.kp_pool.specs.inner.Numbers.{IsIndex};

use crate::fold::{Folded, fold};
use crate::index::Index;
use kp_base::NoMemory;
use kp_net::{Kind, Netlist, Node, NodeId, Parts};
use std::alloc::Global;
use std::marker::Model;

/// Nodes, no two of them equal and none foldable, and capacity for more.
pub struct Pool {
    nodes: Vec<Node>,
    spare: u32,
    index: Index,
}

impl Drop for Pool {
    fn drop(self) {
        let Pool {
            nodes,
            spare: _,
            index,
        } = self;
        drop(nodes);
        drop(index);
    }
}

impl Model for Pool {
    ghost use Rattle.std.specs.Prelude.{◌+◌, ◌≤◌, length, vec_len, vec_capacity};
    ghost use Rattle.kp_net.specs.Widths.{AllRight, Distinct};
    ghost use Rattle.kp_pool.specs.Folding.{NoneFoldable};
    ghost use Rattle.kp_net.specs.Growth.{Held};
    ghost use Rattle.kp_pool.specs.inner.Numbers.{IsIndex};

    ghost Value = { Held };

    ghost view = { λ p. record { nodes = p.nodes.items; spare = p.spare } };

    ghost invariant = { λ p. (vec_len p.nodes + p.spare ≤ vec_capacity p.nodes) × (vec_len p.nodes + p.spare ≤ 16777216) × AllRight p.nodes.items × Distinct p.nodes.items × NoneFoldable p.nodes.items × IsIndex p.index p.nodes.items };
}

impl Pool {
    /// An empty pool with capacity for this many nodes, at most 2^24. Error: out of memory.
    pub fn reserve(alloc: Global, nodes: u32) -> Result<Pool, NoMemory>
        requires { nodes ≤ 16777216 }
        ensures { IfOk result (λ p. p ≡ record { nodes = []; spare = nodes }) }
    {
        let room = Vec::with_capacity(alloc, nodes as usize)?;
        Ok(Pool {
            nodes: room,
            spare: nodes,
            index: Index::new(alloc),
        })
    }

    /// How many more nodes the pool has capacity for.
    pub fn spare(&self) -> u32
        ensures spare { result ≡ self.now.spare }
        ensures right { AllRight self.now.nodes }
        ensures distinct { Distinct self.now.nodes }
    {
        self.spare
    }

    /// All nodes, indexed by their numbers.
    pub fn nodes(&self) -> &[Node]
        ensures { result.now ≡ self.now.nodes }
    {
        self.nodes.as_slice()
    }

    /// The node with this number.
    pub fn at(&self, id: NodeId) -> &Node
        requires { id.0 < length self.now.nodes }
        ensures node { result.now ≡ get_or self.now.nodes id.0 no_node }
        ensures right { NodeOk self.now.nodes id.0 result.now }
    {
        &self.nodes[id.0 as usize]
    }

    /// The width of a node.
    pub fn width(&self, id: NodeId) -> u8
        requires { id.0 < length self.now.nodes }
        ensures width { result ≡ wide self.now.nodes id.0 }
        ensures positive { 1 ≤ result }
        ensures at_most { result ≤ 64 }
    {
        self.at(id).width
    }

    /// The netlist of the pool's nodes, in order, with these parts. Allocates nothing.
    pub fn close(self, parts: Parts) -> Netlist
        requires { PartsOk self.nodes parts }
        ensures net { result ≡ record { nodes = self.nodes; parts = parts } }
        ensures distinct { Distinct result.nodes }
    {
        let Pool {
            nodes,
            spare: _,
            index,
        } = self;
        drop(index);
        Netlist::from_nodes(nodes, parts)
    }

    /// A node with the value of `n`, no deeper: an existing node, a constant in place of it, or `n` itself, which is added. Memory that isn't
    /// available for the index only makes later calls slower.
    pub fn node(&mut self, n: Node) -> NodeId
        requires room { 1 ≤ self.old.spare }
        requires right { NodeOk self.old.nodes (length self.old.nodes) n }
        ensures wire { Wire self.new result n.width }
        ensures value { (c : Cells) → word_at c self.new.nodes result.0 ≡ word_of_node c (word_at c self.old.nodes) n }
        ensures exact { (c : Cells) → is_cell n.kind ≡ false → word_at c self.new.nodes result.0 ≡ word_of_kind c (word_at c self.old.nodes) n.width n.kind }
        ensures depth { depth self.new.nodes result.0 ≤ depth_of (depth self.old.nodes) n.kind }
        ensures kept { Kept self.old self.new 1 }
        ensures added { AddsOnly n self.old self.new }
        ensures grown { is_cell n.kind ≡ false → Grown self.old self.new 1 }
        ensures right { AllRight self.new.nodes }
        ensures distinct { Distinct self.new.nodes }
        ensures folded { NoneFoldable self.new.nodes }
    {
        match fold(self.nodes.as_slice(), &n) {
            Folded::There(i) => i,
            Folded::Number(word) => self.shared(Node {
                width: word.width(),
                kind: Kind::Const(word.value()),
            }),
            Folded::Asked => self.shared(n),
        }
    }

    // The same for a node that is not foldable.
    fn shared(&mut self, n: Node) -> NodeId
        requires room { 1 ≤ self.old.spare }
        requires right { NodeOk self.old.nodes (length self.old.nodes) n }
        requires unfolded { foldable self.old.nodes n ≡ false }
        ensures wire { Wire self.new result n.width }
        ensures value { (c : Cells) → word_at c self.new.nodes result.0 ≡ word_of_node c (word_at c self.old.nodes) n }
        ensures exact { (c : Cells) → is_cell n.kind ≡ false → word_at c self.new.nodes result.0 ≡ word_of_kind c (word_at c self.old.nodes) n.width n.kind }
        ensures depth { depth self.new.nodes result.0 ≤ depth_of (depth self.old.nodes) n.kind }
        ensures kept { Kept self.old self.new 1 }
        ensures added { AddsOnly n self.old self.new }
        ensures grown { is_cell n.kind ≡ false → Grown self.old self.new 1 }
        ensures right { AllRight self.new.nodes }
        ensures distinct { Distinct self.new.nodes }
        ensures folded { NoneFoldable self.new.nodes }
    {
        match self.index.number(self.nodes.as_slice(), &n) {
            Some(i) => NodeId(i as u32),
            None => {
                let i = self.nodes.len() as u32;
                self.index.append(self.nodes.as_slice(), &n);
                add(&mut self.nodes, n);
                self.spare -= 1;
                NodeId(i)
            }
        }
    }
}

// Appends the node, for which there is capacity.
fn add(nodes: &mut Vec<Node>, n: Node)
    requires { vec_len nodes.old < vec_capacity nodes.old }
    ensures items { nodes.new.items ≡ nodes.old.items ++ n ∷ [] }
    ensures len { vec_len nodes.new ≡ vec_len nodes.old + 1 }
    ensures capacity { vec_capacity nodes.old ≤ vec_capacity nodes.new }
{
    let _ = nodes.push(n);
}
