// The delay model.
ghost use Rattle.std.specs.Prelude.{◌≡◌, ◌+◌, ◌≤◌, ◌*◌, length};
ghost use Rattle.std.specs.List.{sum_by};
ghost use Rattle.kp_net.specs.Widths.{wide};
ghost use Rattle.kp_depth.specs.Delay as model;

use kp_bits::BinOp;
use kp_net::{Kind, Node, NodeId};

/// 100 times the logarithms to base 2 of 1 to 64; that of 1 counts as that of 2.
pub const LOGARITHMS: [u16; 65] = [
    0, 100, 100, 158, 200, 232, 258, 281, 300, 317, 332, 346, 358, 370, 381, 391, 400, 409, 417,
    425, 432, 439, 446, 452, 458, 464, 470, 475, 481, 486, 491, 495, 500, 504, 509, 513, 517, 521,
    525, 529, 532, 536, 539, 543, 546, 549, 552, 555, 558, 561, 564, 567, 570, 573, 575, 578, 581,
    583, 586, 588, 591, 593, 595, 598, 600,
];

#[tactic(auto, using(crate::proofs::Logarithms::logarithm_few))]
fn logarithm(n: u8) -> u16
    ensures value { result ≡ model.logarithm n }
    ensures few { result ≤ 600 }
{
    LOGARITHMS[n.min(64) as usize]
}

fn steps(width: u8) -> u16
    ensures value { result ≡ model.steps width }
    ensures few { result ≤ 7 }
{
    (logarithm(width) + 99) / 100 + 1
}

/// The width of a node, or 0 if there is none.
#[tactic(auto, unfolding(kp_net::specs::Widths::wide))]
pub(crate) fn width(nodes: &[Node], a: NodeId) -> u8
    ensures { result ≡ wide nodes.now a.0 }
{
    match nodes.get(a.0 as usize) {
        Some(node) => node.width,
        None => 0,
    }
}

/// Whether a node is a constant, or doesn't exist.
pub(crate) fn is_constant(nodes: &[Node], a: NodeId) -> bool
    ensures { result ≡ model.is_constant nodes.now a }
{
    match nodes.get(a.0 as usize) {
        Some(node) => matches!(node.kind, Kind::Const(_)),
        None => true,
    }
}

fn free_part(nodes: &[Node], a: NodeId) -> u8
    ensures { result ≡ model.free_part nodes.now a }
{
    if is_constant(nodes, a) {
        0
    } else {
        width(nodes, a)
    }
}

// The bits of the parts of an amount that aren't constant.
fn free_parts(nodes: &[Node], parts: &[NodeId]) -> u16
    requires { length parts.now ≤ 12 }
    ensures { result ≡ sum_by (model.free_part nodes.now) parts.now }
{
    let mut bits: u16 = 0;
    for part in parts {
        bits += free_part(nodes, *part) as u16;
    }
    bits
}

// The bits of an amount that aren't constant.
#[tactic(auto, unfolding(kp_net::specs::Widths::wide))]
fn free_bits(nodes: &[Node], a: NodeId) -> u16
    ensures { result ≡ model.free_in nodes.now (wide nodes.now a.0) (model.kind_of nodes.now a) }
{
    match nodes.get(a.0 as usize) {
        Some(node) => match &node.kind {
            Kind::Concat(parts) => free_parts(nodes, parts.nodes()),
            _ => node.width as u16,
        },
        None => 0,
    }
}

fn gate(count: u8, constant: bool) -> u16
    ensures { result ≡ model.gate_delay count constant }
{
    if count <= 2 {
        if constant { 30 } else { 55 }
    } else {
        5 + logarithm(count) / 2
    }
}

fn choice(count: u8, constant: bool) -> u16
    requires { count ≤ 127 }
    ensures { result ≡ model.choice_delay count constant }
{
    if count <= 3 {
        if constant { 60 } else { 100 }
    } else {
        logarithm((count + 1) / 2).saturating_sub(50).max(100)
    }
}

fn sum(width: u8, constant: bool) -> u16
    ensures { result ≡ model.sum_delay width constant }
{
    let log = logarithm(width) as u32;
    let delay = if constant {
        log.saturating_sub(100)
    } else {
        (155 * log / 100).saturating_sub(90)
    };
    delay.max(100) as u16
}

fn product(width: u8) -> u16
    ensures { result ≡ model.product_delay width }
{
    (4 * logarithm(width)).saturating_sub(500).max(100)
}

fn equal(width: u8, constant: bool) -> u16
    ensures { result ≡ model.equal_delay width constant }
{
    logarithm(width) / 2 + if constant { 0 } else { 50 }
}

fn less(width: u8, constant: bool) -> u16
    ensures { result ≡ model.less_delay width constant }
{
    logarithm(width).saturating_sub(if constant { 100 } else { 0 })
}

fn shift(nodes: &[Node], a: NodeId, b: NodeId) -> u16
    ensures { result ≡ model.shift_delay (wide nodes.now a.0) (model.is_constant nodes.now a) (wide nodes.now b.0)
        (model.free_in nodes.now (wide nodes.now b.0) (model.kind_of nodes.now b)) }
{
    let most = steps(width(nodes, a));
    if is_constant(nodes, a) {
        70 * most.min(width(nodes, b) as u16)
    } else {
        115 * most.min(free_bits(nodes, b))
    }
}

fn binary(nodes: &[Node], count: u8, op: BinOp, a: NodeId, b: NodeId) -> u16
    ensures { result ≡ model.binary_delay op count (wide nodes.now a.0) (model.is_constant nodes.now a) (model.is_constant nodes.now b) (wide nodes.now b.0)
        (model.free_in nodes.now (wide nodes.now b.0) (model.kind_of nodes.now b)) }
{
    let constant = is_constant(nodes, a) || is_constant(nodes, b);
    let width = width(nodes, a);
    match op {
        BinOp::And | BinOp::Or | BinOp::Xor => gate(count, constant),
        BinOp::Add | BinOp::Sub => sum(width, constant),
        BinOp::Mul => product(width),
        BinOp::Eq => equal(width, constant),
        BinOp::Lt => less(width, constant),
        BinOp::Shl | BinOp::Shr => {
            if is_constant(nodes, b) {
                0
            } else {
                shift(nodes, a, b)
            }
        }
    }
}

fn word(address: u8) -> u16
    ensures { result ≡ model.word_delay address }
{
    if address <= 6 {
        80 * address as u16
    } else {
        600
    }
}

/// The delay of a node of this kind, with this number of operands of its chain.
pub(crate) fn delay(nodes: &[Node], inside: bool, count: u8, kind: &Kind) -> u16
    requires { count ≤ 127 }
    ensures { result ≡ model.delay_of nodes.now inside count kind.now }
{
    match kind {
        Kind::Word(_, address) => {
            if inside {
                word(width(nodes, *address))
            } else {
                0
            }
        }
        Kind::Binary(op, a, b) => binary(nodes, count, *op, *a, *b),
        Kind::Mux(_, a, b) => choice(count, is_constant(nodes, *a) || is_constant(nodes, *b)),
        _ => 0,
    }
}
