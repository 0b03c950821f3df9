//! The operations; the operands of each are checked before the call.
ghost use Rattle.std.specs.Prelude.{◌≡◌, ◌<◌, ◌≤◌, length, IfSome, IsTrue, All};
ghost use Rattle.kp_net.specs.Growth.{Held, Wire};
ghost use Rattle.kp_net.specs.Widths.{KindOk};
ghost use Rattle.kp_test_circuits.specs.Circuits.{IsRow};

use crate::circuit::Circuit;
use crate::line::Line;
use crate::operations::Op;
use kp_bits::{BinOp, Bits};
use kp_engine::{full_next, stall_of, update_of};
use kp_net::{Kind, Node, NodeId, Operands};
use kp_net_gates::{
    binary, bit, both, choose, complement, constant, either, inverse, join, part, pick, same,
};
use kp_pool::Pool;
use std::alloc::Global;

/// Whether a node is in the pool.
pub fn is_there(pool: &Pool, a: NodeId) -> bool
    ensures { IsTrue result → a.0 < length pool.now.nodes }
{
    (a.0 as usize) < pool.nodes().len()
}

/// Whether a node is in the pool, with this width.
pub fn is_wire(pool: &Pool, a: NodeId, width: u8) -> bool
    ensures { IsTrue result → Wire pool.now a width }
{
    is_there(pool, a) && pool.width(a) == width
}

/// A number, if there is one, and capacity for it.
pub fn constant_of(pool: &mut Pool, word: Option<Bits>) -> Option<NodeId> {
    match word {
        Some(word) if 1 <= pool.spare() => Some(constant(pool, word.width(), word.value())),
        _ => None,
    }
}

/// A node without operands, or a word of a file.
pub fn source(pool: &mut Pool, circuit: &Circuit<'_>, line: Line<'_>, op: Op) -> Option<NodeId>
    requires { 1 ≤ pool.old.spare }
{
    let cell = circuit.find(line.word(2), line.word(3));
    match op {
        Op::Const => constant_of(pool, line.bits(3)),
        Op::Bit => match line.number(3) {
            Some(value) => Some(bit(pool, value == 1)),
            None => None,
        },
        Op::Ext => read(pool, circuit.ext, Kind::Ext),
        Op::Sample => read(pool, cell.width, Kind::Sample(cell.place)),
        Op::Reg => read(pool, cell.width, Kind::Reg(cell.place)),
        _ => {
            let address = circuit.node(line, 4);
            if is_there(pool, address) {
                read(pool, cell.width, Kind::Word(cell.place, address))
            } else {
                None
            }
        }
    }
}

// The stall word, a sample port, a register or a word of a file.
fn read(pool: &mut Pool, width: u8, kind: Kind) -> Option<NodeId>
    requires room { 1 ≤ pool.old.spare }
    requires right { KindOk pool.old.nodes (length pool.old.nodes) width kind }
{
    if width < 1 || 64 < width {
        return None;
    }
    Some(pool.node(Node { width, kind }))
}

/// An operation on words.
pub fn of_words(pool: &mut Pool, circuit: &Circuit<'_>, line: Line<'_>, op: Op) -> Option<NodeId>
    requires { 1 ≤ pool.old.spare }
{
    let a = circuit.node(line, 3);
    let b = circuit.node(line, 4);
    if !is_there(pool, a) {
        return None;
    }
    let width = pool.width(a);
    match op {
        Op::Not => Some(complement(pool, a, width)),
        Op::Part => slice(pool, a, line.small(4), line.small(5)),
        Op::Same if is_wire(pool, b, width) => Some(same(pool, a, b, width)),
        Op::Binary(op) if is_there(pool, b) => operation(pool, op, a, b),
        Op::Mux if width == 1 => choice(pool, a, b, circuit.node(line, 5)),
        _ => None,
    }
}

// `a[hi:lo]`
fn slice(pool: &mut Pool, a: NodeId, hi: Option<u8>, lo: Option<u8>) -> Option<NodeId>
    requires room { 1 ≤ pool.old.spare }
    requires there { a.0 < length pool.old.nodes }
{
    let width = pool.width(a);
    match (hi, lo) {
        (Some(hi), Some(lo)) if lo <= hi && hi < width => Some(part(pool, a, hi, lo, width)),
        _ => None,
    }
}

// `test ? yes : no`
fn choice(pool: &mut Pool, test: NodeId, yes: NodeId, no: NodeId) -> Option<NodeId>
    requires room { 1 ≤ pool.old.spare }
    requires test { Wire pool.old test 1 }
{
    if !is_there(pool, yes) {
        return None;
    }
    let width = pool.width(yes);
    if !is_wire(pool, no, width) {
        return None;
    }
    Some(choose(pool, test, yes, no, width))
}

// `a + b`, or with another operator.
fn operation(pool: &mut Pool, op: BinOp, a: NodeId, b: NodeId) -> Option<NodeId>
    requires room { 1 ≤ pool.old.spare }
    requires left { a.0 < length pool.old.nodes }
    requires right { b.0 < length pool.old.nodes }
{
    let width = pool.width(a);
    if op.is_shift() {
        return Some(binary(pool, op, a, b, width));
    }
    if pool.width(b) != width {
        return None;
    }
    Some(binary(pool, op, a, b, op.result_width(width)))
}

/// An operation or a call on single bits.
pub fn of_bits(pool: &mut Pool, circuit: &Circuit<'_>, line: Line<'_>, op: Op) -> Option<NodeId>
    requires { 1 ≤ pool.old.spare }
{
    let a = circuit.node(line, 3);
    let b = circuit.node(line, 4);
    if !is_wire(pool, a, 1) {
        return None;
    }
    match op {
        Op::Inverse => Some(inverse(pool, a)),
        Op::Both if is_wire(pool, b, 1) => Some(both(pool, a, b)),
        Op::Either if is_wire(pool, b, 1) => Some(either(pool, a, b)),
        Op::Pick | Op::FullNext | Op::Update | Op::Stall if is_wire(pool, b, 1) => {
            of_three(pool, op, a, b, circuit.node(line, 5), circuit.node(line, 6))
        }
        _ => None,
    }
}

// An operation or a call on three bits, or four.
fn of_three(pool: &mut Pool, op: Op, a: NodeId, b: NodeId, c: NodeId, d: NodeId) -> Option<NodeId>
    requires room { 1 ≤ pool.old.spare }
    requires first { Wire pool.old a 1 }
    requires second { Wire pool.old b 1 }
{
    if !is_wire(pool, c, 1) {
        return None;
    }
    match op {
        Op::Pick => Some(pick(pool, a, b, c)),
        Op::FullNext if 3 <= pool.spare() => Some(full_next(pool, a, b, c)),
        Op::Update if 64 <= pool.spare() => Some(update_of(pool, a, b, c)),
        Op::Stall if 64 <= pool.spare() && is_wire(pool, d, 1) => {
            Some(stall_of(pool, a, b, c, d))
        }
        _ => None,
    }
}

/// `{a, b}`
pub fn row(alloc: Global, pool: &mut Pool, circuit: &Circuit<'_>, line: Line<'_>) -> Option<NodeId>
    requires { 1 ≤ pool.old.spare }
{
    let mut parts = [NodeId(0); 12];
    let count = read_nodes(circuit, line, 3, &mut parts);
    if count < 2 || 12 < count {
        return None;
    }
    let parts = &parts[..count];
    match width_of_row(pool, parts) {
        Some(width) if 1 <= width => Some(join(pool, Operands::new(alloc, parts), width)),
        _ => None,
    }
}

// The width of a concatenation of nodes.
fn width_of_row(pool: &Pool, parts: &[NodeId]) -> Option<u8>
    ensures { IfSome result (λ w. IsRow pool.now parts.now w) }
{
    let mut sum = 0u8;
    for part in parts {
        if part.0 as usize >= pool.nodes().len() {
            return None;
        }
        let width = pool.width(*part);
        if width > 64 - sum {
            return None;
        }
        sum += width;
    }
    Some(sum)
}

/// The nodes that the words from this one on name, at most 12; and their number, or 13 if there are more.
pub fn read_nodes(
    circuit: &Circuit<'_>,
    line: Line<'_>,
    first: usize,
    nodes: &mut [NodeId; 12],
) -> usize
    requires { first ≤ 4 }
{
    for i in 0..12usize {
        if line.word(first + i).is_empty() {
            return i;
        }
        nodes[i] = circuit.node(line, first + i);
    }
    if line.word(first + 12).is_empty() {
        12
    } else {
        13
    }
}
