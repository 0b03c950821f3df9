// Nodes of a netlist.
ghost use Rattle.std.specs.Prelude.{◌≡◌};

use crate::operands::Operands;
use kp_bits::BinOp;
use std::alloc::Global;

/// A node, by its index in the list of nodes, counted from 0.
#[derive(Clone, Copy, Default, PartialEq, Eq, Hash)]
pub struct NodeId(pub u32);

/// What a node computes.
#[derive(Drop, PartialEq, Eq, Hash)]
pub enum Kind {
    /// A constant.
    Const(u64),
    /// The stall word.
    Ext,
    /// The value of a sample port.
    Sample(u32),
    /// The value of a register.
    Reg(u32),
    /// The word of a file at an address: the number of the file, and the address.
    Word(u32, NodeId),
    /// `~a`
    Not(NodeId),
    /// `a + b`, or with another operator.
    Binary(BinOp, NodeId, NodeId),
    /// `test ? yes : no`, in this order.
    Mux(NodeId, NodeId, NodeId),
    /// `{a, b}`, with the high bits first.
    Concat(Operands),
    /// `a[hi:lo]`, with `hi` before `lo`.
    Slice(NodeId, u8, u8),
}

/// A node, which has `width` bits.
#[derive(Drop, PartialEq, Eq, Hash)]
pub struct Node {
    pub width: u8,
    pub kind: Kind,
}

impl Node {
    /// A copy of the node. Allocates nothing.
    pub fn copied(&self, alloc: Global) -> Node
        ensures { result ≡ self.now }
    {
        Node {
            width: self.width,
            kind: self.kind.copied(alloc),
        }
    }
}

impl Kind {
    fn copied(&self, alloc: Global) -> Kind
        ensures { result ≡ self.now }
    {
        match self {
            Kind::Const(value) => Kind::Const(*value),
            Kind::Ext => Kind::Ext,
            Kind::Sample(port) => Kind::Sample(*port),
            Kind::Reg(reg) => Kind::Reg(*reg),
            Kind::Word(file, address) => Kind::Word(*file, *address),
            Kind::Not(a) => Kind::Not(*a),
            Kind::Binary(op, a, b) => Kind::Binary(*op, *a, *b),
            Kind::Mux(test, yes, no) => Kind::Mux(*test, *yes, *no),
            Kind::Concat(parts) => Kind::Concat(Operands::new(alloc, parts.nodes())),
            Kind::Slice(a, hi, lo) => Kind::Slice(*a, *hi, *lo),
        }
    }
}
