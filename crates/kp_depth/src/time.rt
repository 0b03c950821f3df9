// When the values of nodes are there.
ghost use Rattle.std.specs.Prelude.{◌≡◌, ◌+◌, ◌*◌, ◌≤◌, false, length, fold, flat_map, IfOk};
ghost use Rattle.kp_depth.specs.Delay.{kind_of, is_choice as is_choice_kind};
ghost use Rattle.kp_depth.specs.Times.{chain_of as chain_for, continues as continues_in, input, joined, known_time, no_chain, time_of as time_for, times_of as times_for};
ghost use Rattle.kp_depth.specs.inner.Bounds.{Bounded};

use crate::delay::{delay, is_constant};
use kp_base::NoMemory;
use kp_bits::BinOp;
use kp_net::{Kind, Node, NodeId};
use std::alloc::Global;

/// An operand of a node, and whether the chain of the node continues in it.
#[derive(Clone, Copy)]
pub struct Input {
    pub node: NodeId,
    pub within: bool,
}

/// The chain that ends in a node: how many operands it has, when the last of them is there, and through which operand of the node.
#[derive(Clone, Copy)]
pub struct Chain {
    pub count: u8,
    pub latest: u64,
    pub last: Option<Input>,
}

/// When the value of a node is there, in hundredths of a unit.
#[derive(Clone, Copy)]
pub struct Time {
    pub chain: Chain,
    pub arrival: u64,
}

// The time of a node, or 0 if it isn't known.
fn known_at(known: &[Time], node: NodeId) -> Time
    ensures { result ≡ known_time known.now node.0 }
{
    match known.get(node.0 as usize) {
        Some(time) => *time,
        None => Time {
            chain: none(),
            arrival: 0,
        },
    }
}

// No operands.
fn none() -> Chain
    ensures { result ≡ no_chain }
{
    Chain {
        count: 0,
        latest: 0,
        last: None,
    }
}

// With one more operand, which isn't constant.
#[tactic(auto, using(crate::proofs::Chains::arrival_bounded, crate::proofs::Chains::latest_bounded))]
fn join(chain: Chain, known: &[Time], operand: Input) -> Chain
    requires bounded { Bounded known.now }
    requires latest { chain.latest ≤ 65536 * length known.now }
    ensures value { result ≡ joined (known_time known.now) chain operand }
    ensures few { result.count ≤ 127 }
    ensures latest { result.latest ≤ 65536 * length known.now }
{
    let time = known_at(known, operand.node);
    let added = if operand.within { time.chain.count } else { 1 };
    let there = if operand.within {
        time.chain.latest
    } else {
        time.arrival
    };
    Chain {
        count: chain.count.saturating_add(added).min(127),
        latest: chain.latest.max(there),
        last: if chain.latest <= there {
            Some(operand)
        } else {
            chain.last
        },
    }
}

// With one more operand, if it isn't constant.
fn with(chain: Chain, nodes: &[Node], known: &[Time], node: NodeId, within: bool) -> Chain
    requires few { chain.count ≤ 127 }
    requires bounded { Bounded known.now }
    requires latest { chain.latest ≤ 65536 * length known.now }
    ensures value { result ≡ fold (joined (known_time known.now)) chain (input nodes.now within node) }
    ensures few { result.count ≤ 127 }
    ensures latest { result.latest ≤ 65536 * length known.now }
{
    if is_constant(nodes, node) {
        chain
    } else {
        join(chain, known, Input { node, within })
    }
}

// The operands of a concatenation.
#[tactic(auto, using(crate::proofs::Chains::parts_more))]
fn of_parts(nodes: &[Node], known: &[Time], parts: &[NodeId]) -> Chain
    requires { Bounded known.now }
    ensures value { result ≡ fold (joined (known_time known.now)) no_chain (flat_map (input nodes.now false) parts.now) }
    ensures few { result.count ≤ 127 }
    ensures latest { result.latest ≤ 65536 * length known.now }
{
    let mut chain = none();
    for part in parts {
        chain = with(chain, nodes, known, *part, false);
    }
    chain
}

// Whether the operation goes on in a node: the same gate, or a choice.
fn continues(nodes: &[Node], op: BinOp, a: NodeId) -> bool
    ensures { result ≡ continues_in op (kind_of nodes.now a) }
{
    match nodes.get(a.0 as usize) {
        Some(node) => match op {
            BinOp::And => matches!(node.kind, Kind::Binary(BinOp::And, _, _)),
            BinOp::Or => matches!(node.kind, Kind::Binary(BinOp::Or, _, _)),
            BinOp::Xor => matches!(node.kind, Kind::Binary(BinOp::Xor, _, _)),
            _ => false,
        },
        None => false,
    }
}

fn is_choice(nodes: &[Node], a: NodeId) -> bool
    ensures { result ≡ is_choice_kind (kind_of nodes.now a) }
{
    match nodes.get(a.0 as usize) {
        Some(node) => matches!(node.kind, Kind::Mux(_, _, _)),
        None => false,
    }
}

// The chain that ends in a node of this kind.
#[tactic(auto, using(crate::proofs::Chains::fold_append))]
fn chain_of(nodes: &[Node], inside: bool, known: &[Time], kind: &Kind) -> Chain
    requires { Bounded known.now }
    ensures value { result ≡ chain_for nodes.now inside (known_time known.now) kind.now }
    ensures few { result.count ≤ 127 }
    ensures latest { result.latest ≤ 65536 * length known.now }
{
    match kind {
        Kind::Word(_, a) => {
            if inside {
                with(none(), nodes, known, *a, false)
            } else {
                none()
            }
        }
        Kind::Not(a) | Kind::Slice(a, _, _) => with(none(), nodes, known, *a, false),
        Kind::Binary(op, a, b) => {
            let left = with(none(), nodes, known, *a, continues(nodes, *op, *a));
            with(left, nodes, known, *b, continues(nodes, *op, *b))
        }
        Kind::Mux(test, a, b) => {
            let tested = with(none(), nodes, known, *test, false);
            let yes = with(tested, nodes, known, *a, false);
            with(yes, nodes, known, *b, is_choice(nodes, *b))
        }
        Kind::Concat(parts) => of_parts(nodes, known, parts.nodes()),
        Kind::Const(_) | Kind::Ext | Kind::Sample(_) | Kind::Reg(_) => none(),
    }
}

// The time of a node of this kind.
fn time_of(nodes: &[Node], inside: bool, known: &[Time], kind: &Kind) -> Time
    requires bounded { Bounded known.now }
    requires few { length known.now ≤ 16777216 }
    ensures value { result ≡ time_for nodes.now inside (known_time known.now) kind.now }
    ensures arrival { result.arrival ≤ 65536 * (length known.now + 1) }
    ensures latest { result.chain.latest ≤ 65536 * length known.now }
{
    let chain = chain_of(nodes, inside, known, kind);
    let delay = delay(nodes, inside, chain.count, kind);
    Time {
        chain,
        arrival: chain.latest + delay as u64,
    }
}

/// The times of the nodes of a netlist, and whether its files are inside. If they are outside, a word of a file is there at once.
#[derive(Drop)]
pub struct Times {
    pub inside: bool,
    pub all: Vec<Time>,
}

impl Times {
    /// The times of nodes. The only error is out of memory.
    #[tactic(auto, using(crate::proofs::Chains::bounded_none, crate::proofs::Chains::bounded_more))]
    pub fn of(alloc: Global, nodes: &[Node], inside: bool) -> Result<Times, NoMemory>
        requires { length nodes.now ≤ 16777216 }
        ensures times { IfOk result (λ times. times.all.items ≡ times_for nodes.now inside) }
        ensures inside { IfOk result (λ times. times.inside ≡ inside) }
    {
        let mut all = Vec::new(alloc);
        for node in nodes {
            let time = time_of(nodes, inside, all.as_slice(), &node.kind);
            all.push(time)?;
        }
        Ok(Times { inside, all })
    }

    /// The time of a node.
    pub fn at(&self, node: NodeId) -> Time
        ensures { result ≡ known_time self.now.all.items node.0 }
    {
        known_at(self.all.as_slice(), node)
    }
}
