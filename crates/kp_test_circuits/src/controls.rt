//! The calls that build a pipeline's control; the operands of each are checked before the call.
ghost use Rattle.std.specs.Prelude.{◌≡◌, ◌<◌, ◌≤◌, length, IfSome, IsTrue, All};
ghost use Rattle.kp_net.specs.Growth.{Held, Wire};
ghost use Rattle.kp_net.specs.Widths.{wide};
ghost use Rattle.kp_fwd.specs.Forward.{BitOk, PairOk, SameWidth, CandidateOk};
ghost use Rattle.kp_engine.specs.Misses.{BitsOk};

use crate::circuit::Circuit;
use crate::gates::{is_there, is_wire, of_bits, of_words, read_nodes, row, source};
use crate::line::Line;
use crate::nodes::add_node;
use crate::operations::Op;
use crate::report::Report;
use kp_engine::{Sweep, mismatch, sweep};
use kp_fwd::{Candidate, carried, hit_of, select};
use kp_net::NodeId;
use kp_pool::Pool;
use std::alloc::Global;

/// Names the nodes that a line requests, and appends the node of an operation. Returns whether the line is well-formed.
pub fn name<'t>(
    report: &mut Report,
    alloc: Global,
    pool: &mut Pool,
    circuit: &mut Circuit<'t>,
    line: Line<'t>,
) -> bool {
    let Some(op) = Op::named(line.word(2)) else {
        return false;
    };
    match op {
        Op::Select => nearest(pool, circuit, line),
        Op::Carried => carry(pool, circuit, line),
        Op::Sweep => rollback(pool, circuit, line),
        _ => name_one(report, alloc, pool, circuit, line, op),
    }
}

fn name_one<'t>(
    report: &mut Report,
    alloc: Global,
    pool: &mut Pool,
    circuit: &mut Circuit<'t>,
    line: Line<'t>,
    op: Op,
) -> bool {
    let Some(node) = made(alloc, pool, &*circuit, line, op) else {
        return false;
    };
    if !circuit.only_rows {
        add_node(report, pool.nodes(), line.word(0), node);
    }
    circuit.name(line, &[("", node)])
}

fn made(
    alloc: Global,
    pool: &mut Pool,
    circuit: &Circuit<'_>,
    line: Line<'_>,
    op: Op,
) -> Option<NodeId> {
    if pool.spare() < 1 {
        return None;
    }
    match op {
        Op::Const | Op::Bit | Op::Ext | Op::Sample | Op::Reg | Op::File => {
            source(pool, circuit, line, op)
        }
        Op::Not | Op::Part | Op::Same | Op::Mux | Op::Binary(_) => {
            of_words(pool, circuit, line, op)
        }
        Op::Join => row(alloc, pool, circuit, line),
        Op::Hit => hit(pool, circuit, line),
        Op::Mismatch => wrong(pool, circuit, line),
        _ => of_bits(pool, circuit, line, op),
    }
}

// Whether a guess is wrong.
fn wrong(pool: &mut Pool, circuit: &Circuit<'_>, line: Line<'_>) -> Option<NodeId> {
    let full = circuit.node(line, 3);
    let pending = circuit.node(line, 4);
    let known = circuit.node(line, 5);
    let truth = circuit.node(line, 6);
    let guess = circuit.node(line, 7);
    if pool.spare() < 64 || !is_there(pool, truth) || !is_wire(pool, guess, pool.width(truth)) {
        return None;
    }
    if !is_wire(pool, full, 1) || !is_wire(pool, pending, 1) || !is_wire(pool, known, 1) {
        return None;
    }
    Some(mismatch(pool, full, pending, known, truth, guess))
}

// Whether a stage hits.
fn hit(pool: &mut Pool, circuit: &Circuit<'_>, line: Line<'_>) -> Option<NodeId> {
    let Some(known) = line.number(4) else {
        return None;
    };
    let full = circuit.node(line, 3);
    let enable = enable(circuit, line);
    let address = pair(circuit, line);
    if pool.spare() < 4 || !is_wire(pool, full, 1) {
        return None;
    }
    if !may_enable(pool, enable) || !may_agree(pool, address) {
        return None;
    }
    Some(hit_of(pool, full, known == 1, enable, address))
}

// The node of word 5, or `None` if the word is `-`.
fn enable(circuit: &Circuit<'_>, line: Line<'_>) -> Option<NodeId> {
    if line.word(5) == b"-".as_slice() {
        None
    } else {
        Some(circuit.node(line, 5))
    }
}

fn may_enable(pool: &Pool, enable: Option<NodeId>) -> bool
    ensures { IsTrue result → BitOk pool.now enable }
{
    match enable {
        None => true,
        Some(enable) => is_wire(pool, enable, 1),
    }
}

// The nodes of words 6 and 7, if the line has them. If it has more words, the second is in no pool.
fn pair(circuit: &Circuit<'_>, line: Line<'_>) -> Option<(NodeId, NodeId)> {
    if line.word(6).is_empty() {
        return None;
    }
    if line.word(8).is_empty() {
        Some((circuit.node(line, 6), circuit.node(line, 7)))
    } else {
        Some((NodeId(u32::MAX), NodeId(u32::MAX)))
    }
}

// Whether two addresses have the same width.
fn may_agree(pool: &Pool, address: Option<(NodeId, NodeId)>) -> bool
    ensures { IsTrue result → SameWidth pool.now address }
{
    match address {
        None => true,
        Some((a, b)) => is_there(pool, a) && is_wire(pool, b, pool.width(a)),
    }
}

// Names the result that a stage carries.
fn carry<'t>(pool: &mut Pool, circuit: &mut Circuit<'t>, line: Line<'t>) -> bool {
    let Some(last) = line.number(5) else {
        return false;
    };
    let valid = circuit.node(line, 3);
    let stored = circuit.node(line, 4);
    let set = pair(&*circuit, line);
    if pool.spare() < 8 || !is_wire(pool, valid, 1) || !is_there(pool, stored) {
        return false;
    }
    if !may_set(pool, set, pool.width(stored)) {
        return false;
    }
    let result = carried(pool, valid, stored, set, last == 1);
    circuit.name(
        line,
        &[
            ("has", result.has),
            ("fresh", result.fresh),
            ("value", result.value),
        ],
    )
}

// Whether a set has a bit and a value of this width.
fn may_set(pool: &Pool, set: Option<(NodeId, NodeId)>, width: u8) -> bool
    ensures { IsTrue result → PairOk pool.now 1 width set }
{
    match set {
        None => true,
        Some((enable, value)) => is_wire(pool, enable, 1) && is_wire(pool, value, width),
    }
}

// Names the nearest hit.
fn nearest<'t>(pool: &mut Pool, circuit: &mut Circuit<'t>, line: Line<'t>) -> bool {
    let none = circuit.node(line, 3);
    let mut rows = [Candidate {
        hit: none,
        ok: none,
        value: none,
    }; 11];
    let count = read_rows(&*circuit, line, &mut rows);
    if 11 < count || (pool.spare() as usize) < 16 * count + 8 || !is_there(pool, none) {
        return false;
    }
    let rows = &rows[..count];
    if !all_may_give(pool, rows, pool.width(none)) {
        return false;
    }
    let picked = select(pool, rows, none);
    circuit.name(
        line,
        &[
            ("any", picked.any),
            ("ok", picked.ok),
            ("value", picked.value),
        ],
    )
}

// The rows of a line, at most 11, with three names a row; and their number, or 12 if there are more.
fn read_rows(circuit: &Circuit<'_>, line: Line<'_>, rows: &mut [Candidate; 11]) -> usize {
    for i in 0..11usize {
        let at = 3 * i + 4;
        if line.word(at).is_empty() {
            return i;
        }
        rows[i] = Candidate {
            hit: circuit.node(line, at),
            ok: circuit.node(line, at + 1),
            value: circuit.node(line, at + 2),
        };
    }
    if line.word(37).is_empty() { 11 } else { 12 }
}

fn all_may_give(pool: &Pool, rows: &[Candidate], width: u8) -> bool
    ensures { IsTrue result → All (CandidateOk pool.now width) rows.now }
{
    rows.iter().all(|row| may_give(pool, row, width))
}

fn may_give(pool: &Pool, row: &Candidate, width: u8) -> bool
    ensures { IsTrue result → CandidateOk pool.now width row.now }
{
    is_wire(pool, row.hit, 1) && is_wire(pool, row.ok, 1) && is_wire(pool, row.value, width)
}

// Names the squashed stages.
fn rollback<'t>(pool: &mut Pool, circuit: &mut Circuit<'t>, line: Line<'t>) -> bool {
    let Some(count) = line.small(3) else {
        return false;
    };
    let mut misses = [NodeId(0); 12];
    let given = read_nodes(&*circuit, line, 4, &mut misses);
    if given != 12 || count < 2 || 12 < count {
        return false;
    }
    if pool.spare() < 64 || !are_bits(pool, &misses) {
        return false;
    }
    let sweep = sweep(pool, &misses, count);
    circuit.name(line, &names_of(sweep))
}

fn are_bits(pool: &Pool, misses: &[NodeId; 12]) -> bool
    ensures { IsTrue result → BitsOk pool.now misses.now 12 }
{
    for i in 0..12usize {
        if !is_wire(pool, misses[i], 1) {
            return false;
        }
    }
    true
}

// The nodes of a rollback, with their parts of the name.
fn names_of(sweep: Sweep) -> [(&'static str, NodeId); 13] {
    let swept = sweep.swept;
    [
        ("back", sweep.back),
        ("0", swept[0]),
        ("1", swept[1]),
        ("2", swept[2]),
        ("3", swept[3]),
        ("4", swept[4]),
        ("5", swept[5]),
        ("6", swept[6]),
        ("7", swept[7]),
        ("8", swept[8]),
        ("9", swept[9]),
        ("10", swept[10]),
        ("11", swept[11]),
    ]
}
