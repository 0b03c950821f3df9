// The operations of nodes in a form that is fast to evaluate.
ghost use Rattle.std.specs.Prelude.{◌≡◌, ◌≤◌, length};
ghost use Rattle.kp_net.specs.Widths.{wide};
ghost use Rattle.kp_cycle_plan.specs.Codes.{op_for, binary_op, joined_op};

use kp_bits::{BinOp, ones};
use kp_net::{Kind, Node, NodeId};

/// What a node computes, with all that depends on its widths precomputed, so that values are plain numbers. A mask
/// has a one in each bit of the node's width.
#[derive(Clone, Copy)]
pub enum Op {
    /// A constant, a rare operation, or one that reads more than nodes: it is computed from the node itself.
    Plain,
    /// The mask minus the value of a node.
    Not(NodeId, u64),
    And(NodeId, NodeId),
    Or(NodeId, NodeId),
    Xor(NodeId, NodeId),
    /// A sum, under the mask.
    Add(NodeId, NodeId, u64),
    /// A difference, under the mask.
    Sub(NodeId, NodeId, u64),
    /// A product, under the mask.
    Mul(NodeId, NodeId, u64),
    Eq(NodeId, NodeId),
    Lt(NodeId, NodeId),
    /// A node shifted left by the value of another, with the width and the mask.
    Shl(NodeId, NodeId, u8, u64),
    /// A node shifted right by the value of another, with the width.
    Shr(NodeId, NodeId, u8),
    /// `test ? yes : no`, in this order.
    Mux(NodeId, NodeId, NodeId),
    /// High bits and low bits, and the width of the low ones.
    Join(NodeId, NodeId, u64),
    /// High, middle and low bits, and the widths of the last two.
    Join3(NodeId, NodeId, NodeId, u8, u8),
    /// The lowest bit, and the mask.
    Slice(NodeId, u64, u64),
}

/// A node to evaluate, and its operation.
#[derive(Clone, Copy)]
pub struct Step {
    pub target: u32,
    pub op: Op,
}

/// The operation of a node among these.
pub fn op_of(nodes: &[Node], node: &Node) -> Op
    requires positive { 1 ≤ node.now.width }
    requires at_most { node.now.width ≤ 64 }
    ensures { result ≡ op_for nodes.now node.now }
{
    let mask = ones(node.width);
    match &node.kind {
        Kind::Not(a) => Op::Not(*a, mask),
        Kind::Binary(op, a, b) => binary(*op, *a, *b, node.width, mask),
        Kind::Mux(test, yes, no) => Op::Mux(*test, *yes, *no),
        Kind::Concat(parts) => joined(nodes, parts.nodes()),
        Kind::Slice(a, _, lo) => Op::Slice(*a, u64::from(*lo), mask),
        Kind::Const(_) | Kind::Ext | Kind::Sample(_) | Kind::Reg(_) | Kind::Word(_, _) => Op::Plain,
    }
}

fn binary(op: BinOp, a: NodeId, b: NodeId, width: u8, mask: u64) -> Op
    ensures { result ≡ binary_op op a b width mask }
{
    match op {
        BinOp::And => Op::And(a, b),
        BinOp::Or => Op::Or(a, b),
        BinOp::Xor => Op::Xor(a, b),
        BinOp::Add => Op::Add(a, b, mask),
        BinOp::Sub => Op::Sub(a, b, mask),
        BinOp::Mul => Op::Mul(a, b, mask),
        BinOp::Eq => Op::Eq(a, b),
        BinOp::Lt => Op::Lt(a, b),
        BinOp::Shl => Op::Shl(a, b, width, mask),
        BinOp::Shr => Op::Shr(a, b, width),
    }
}

// Two or three parts concatenated.
fn joined(nodes: &[Node], parts: &[NodeId]) -> Op
    requires { length parts.now ≤ 12 }
    ensures { result ≡ joined_op nodes.now parts.now }
{
    match parts.len() {
        2 => Op::Join(parts[0], parts[1], u64::from(width_at(nodes, parts[1]))),
        3 => {
            let widths = (width_at(nodes, parts[1]), width_at(nodes, parts[2]));
            Op::Join3(parts[0], parts[1], parts[2], widths.0, widths.1)
        }
        _ => Op::Plain,
    }
}

// The width of a node, and 0 if it doesn't exist.
#[tactic(auto, unfolding(kp_net::specs::Widths::wide), using(std::proofs::lemmas::List::get_or_default, std::proofs::lemmas::List::get_or_past))]
fn width_at(nodes: &[Node], a: NodeId) -> u8
    ensures { result ≡ wide nodes.now a.0 }
{
    let a = a.0 as usize;
    if a < nodes.len() { nodes[a].width } else { 0 }
}
