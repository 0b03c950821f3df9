//! Which nodes a cycle evaluates, and in which order. Nodes that no output, register or write port needs are omitted,
//! and nodes with the same operation are adjacent as far as their operands allow.
ghost use Rattle.std.specs.Prelude.{◌≡◌, ◌+◌, ◌-◌, ◌<◌, ◌≤◌, true, false, ℕ, ◌∷◌, ◌++◌, [], length, get_or, map, take, All, IfOk};
ghost use Rattle.kp_net.specs.Widths.{no_node};
ghost use Rattle.kp_cycle_plan.specs.Latches.{OfLatch};
ghost use Rattle.kp_cycle_plan.specs.Plans.{reads, reads_at, step_for, by_node, IsMarked, Grows, Among, IsKnown, Leads, IsOrdered, OfPort, OfRoots, Needed, Taken, IsPlan};

use crate::codes::{Op, Step, op_of};
use crate::latches::{Latch, latch_of, shows};
use kp_base::NoMemory;
use kp_bits::BinOp;
use kp_net::{Kind, Netlist, Node, NodeId, WritePort};
use std::alloc::Global;

/// How many nodes from the first on are the registers in their order. They need no steps, since the registers can be copied to them at once. The
/// node of an output isn't among them, so that there is at least one step.
pub fn heads_of(net: &Netlist) -> u32
    ensures leads { Leads net.now result }
    ensures inside { result ≤ net.now.parts.full.0 }
{
    let nodes = net.nodes();
    let most = net.parts().full.0;
    for i in 0..most {
        if !shows(&nodes[i as usize].kind, i) {
            return i;
        }
    }
    most
}

/// The steps of a cycle, if the first nodes, the heads, are registers.
pub fn plan(alloc: Global, net: &Netlist, heads: u32) -> Result<Vec<Step>, NoMemory>
    requires leads { Leads net.now heads }
    requires inside { heads ≤ net.now.parts.full.0 }
    ensures { IfOk result (λ steps. IsPlan net.now heads steps.items) }
{
    let heads_count = heads as usize;
    let needed = needed_in(alloc, net)?;
    let order = listed(alloc, net.nodes(), heads_count, needed.as_slice())?;
    let batched = in_batches(alloc, net.nodes(), heads_count, order.as_slice())?;
    let steps = steps_of(alloc, net.nodes(), batched.as_slice())?;
    Ok(steps)
}

// Marks each node that an output, a register or a write port needs.
fn needed_in(alloc: Global, net: &Netlist) -> Result<Vec<bool>, NoMemory>
    ensures { IfOk result (λ marks. Needed net.now 0 marks.items) }
{
    let count = net.nodes().len();
    let mut marks = vec![in alloc; false; count]?;
    mark_needed(net, marks.as_mut_slice());
    Ok(marks)
}

fn mark_needed(net: &Netlist, marks: &mut [bool])
    requires { length marks.old ≡ length net.now.nodes }
    ensures { Needed net.now 0 marks.new }
{
    mark_roots(net, marks);
    let count = net.nodes().len();
    for above in 0..count {
        mark_below(net, count - 1 - above, marks);
    }
}

// Marks the operands of node i if it is needed.
fn mark_below(net: &Netlist, i: usize, marks: &mut [bool])
    requires inside { i < length net.now.nodes }
    requires needed { Needed net.now (i + 1) marks.old }
    ensures { Needed net.now i marks.new }
{
    if marks[i] {
        mark_operands(&net.nodes()[i].kind, marks);
    }
}

// Marks the nodes that the end of a cycle reads.
fn mark_roots(net: &Netlist, marks: &mut [bool])
    requires { length marks.old ≡ length net.now.nodes }
    ensures count { length marks.new ≡ length net.now.nodes }
    ensures roots { OfRoots net.now (IsMarked marks.new) }
{
    let parts = net.parts();
    let regs = parts.regs.as_slice();
    for i in 0..regs.len() {
        mark_latch(latch_of(net, i), marks);
    }
    let files = parts.files.as_slice();
    for i in 0..files.len() {
        mark_port(files[i].port, marks);
    }
    marks[parts.full.0 as usize] = true;
    marks[parts.ue.0 as usize] = true;
    marks[parts.back.0 as usize] = true;
}

// Marks the nodes that a register takes its value from.
fn mark_latch(latch: Latch, marks: &mut [bool])
    requires { OfLatch (λ j. j < length marks.old) latch }
    ensures grows { Grows marks.old marks.new }
    ensures latch { OfLatch (IsMarked marks.new) latch }
{
    match latch {
        Latch::Always(next) => marks[next.0 as usize] = true,
        Latch::If(test, value) => {
            marks[test.0 as usize] = true;
            marks[value.0 as usize] = true;
        }
    }
}

// Marks the nodes that a port reads, if there is one.
fn mark_port(port: Option<WritePort>, marks: &mut [bool])
    requires { OfPort (λ j. j < length marks.old) port }
    ensures grows { Grows marks.old marks.new }
    ensures port { OfPort (IsMarked marks.new) port }
{
    let Some(port) = port else {
        return;
    };
    marks[port.enable.0 as usize] = true;
    marks[port.address.0 as usize] = true;
    marks[port.value.0 as usize] = true;
}

// Marks the operands of a node of this kind.
fn mark_operands(kind: &Kind, marks: &mut [bool])
    requires { All (λ a. a.0 < length marks.old) (reads kind.now) }
    ensures grows { Grows marks.old marks.new }
    ensures operands { All (λ a. IsMarked marks.new a.0) (reads kind.now) }
    ensures others { (i j : ℕ) → All (λ a. a.0 < i) (reads kind.now) → i ≤ j → get_or marks.new j false ≡ get_or marks.old j false }
{
    match kind {
        Kind::Const(_) | Kind::Ext | Kind::Sample(_) | Kind::Reg(_) => {}
        Kind::Word(_, a) | Kind::Not(a) | Kind::Slice(a, _, _) => mark_all(&[*a], marks),
        Kind::Binary(_, a, b) => mark_all(&[*a, *b], marks),
        Kind::Mux(test, yes, no) => mark_all(&[*test, *yes, *no], marks),
        Kind::Concat(parts) => mark_all(parts.nodes(), marks),
    }
}

fn mark_all(nodes: &[NodeId], marks: &mut [bool])
    requires { All (λ a. a.0 < length marks.old) nodes.now }
    ensures grows { Grows marks.old marks.new }
    ensures marked { All (λ a. IsMarked marks.new a.0) nodes.now }
    ensures others { (i j : ℕ) → All (λ a. a.0 < i) nodes.now → i ≤ j → get_or marks.new j false ≡ get_or marks.old j false }
{
    for k in 0..nodes.len() {
        marks[nodes[k].0 as usize] = true;
    }
}

// The marked nodes after the heads, in their order.
fn listed(alloc: Global, nodes: &[Node], heads: usize, marks: &[bool]) -> Result<Vec<u32>, NoMemory>
    requires heads { heads ≤ length nodes.now }
    requires few { length nodes.now ≤ 16777216 }
    requires count { length marks.now ≡ length nodes.now }
    requires below { (i : ℕ) → i < length nodes.now → All (λ a. a.0 < i) (reads_at nodes.now i) }
    requires operands { (i : ℕ) → i < length nodes.now → IsMarked marks.now i → All (λ a. IsMarked marks.now a.0) (reads_at nodes.now i) }
    ensures ordered { IfOk result (λ order. IsOrdered nodes.now heads order.items) }
    ensures all { IfOk result (λ order. (j : ℕ) → j < length nodes.now → IsMarked marks.now j → IsKnown heads order.items (length order.items) j) }
{
    let mut order = Vec::new(alloc);
    for i in heads..nodes.len() {
        if marks[i] {
            order.push(i as u32)?;
        }
    }
    Ok(order)
}

// The number of passes over the nodes, each for one operation. Nodes that are left then stay in their old order.
const PASSES: usize = 384;

// The operations of 72 passes, as `class_of` numbers them, in an order that makes few batches of the nodes of a pipeline. It was found by trials.
const TURNS: [u8; 72] = [
    0, 2, 3, 15, 10, 3, 3, 1, 5, 12, 12, 10, 12, 13, 13, 0, 7, 12, 12, 2, 5, 6, 14, 3, 5, 2, 6, 5,
    3, 9, 7, 5, 6, 9, 9, 1, 12, 5, 12, 5, 1, 6, 11, 15, 4, 11, 14, 7, 13, 15, 8, 5, 13, 9, 6, 12,
    13, 5, 12, 3, 8, 10, 4, 11, 6, 0, 4, 13, 14, 9, 9, 8,
];

// The same nodes, with those of one operation adjacent as far as their operands allow.
fn in_batches(
    alloc: Global,
    nodes: &[Node],
    heads: usize,
    order: &[u32],
) -> Result<Vec<u32>, NoMemory>
    requires { IsOrdered nodes.now heads order.now }
    ensures ordered { IfOk result (λ batched. IsOrdered nodes.now heads batched.items) }
    ensures all { IfOk result (λ batched. (j : ℕ) → IsKnown heads order.now (length order.now) j → IsKnown heads batched.items (length batched.items) j) }
{
    let mut done = vec![in alloc; false; nodes.len()]?;
    mark_heads(heads, done.as_mut_slice());
    let mut batched = Vec::with_capacity(alloc, order.len())?;
    for pass in 0..PASSES {
        take_ready(
            nodes,
            heads,
            order,
            TURNS[pass % 72],
            done.as_mut_slice(),
            &mut batched,
        )?;
    }
    take_rest(nodes, heads, order, done.as_mut_slice(), &mut batched)?;
    Ok(batched)
}

// Marks the heads in a list without marks.
fn mark_heads(heads: usize, done: &mut [bool])
    requires inside { heads ≤ length done.old }
    requires none { (j : ℕ) → get_or done.old j false ≡ false }
    ensures count { length done.new ≡ length done.old }
    ensures front { (j : ℕ) → j < heads → IsMarked done.new j }
    ensures others { (j : ℕ) → IsMarked done.new j → j < heads }
{
    for i in 0..heads {
        done[i] = true;
    }
}

// Appends each of these nodes that has this operation, and whose operands are already in the order, unless all were appended before.
fn take_ready(
    nodes: &[Node],
    heads: usize,
    order: &[u32],
    class: u8,
    done: &mut [bool],
    batched: &mut Vec<u32>,
) -> Result<(), NoMemory>
    requires order { IsOrdered nodes.now heads order.now }
    requires taken { Taken nodes.now heads done.old batched.old.items }
    ensures { IfOk result (λ _. Taken nodes.now heads done.new batched.new.items) }
{
    if batched.len() >= order.len() {
        return Ok(());
    }
    for k in 0..order.len() {
        take_if_ready(nodes, heads, order[k], class, done, batched)?;
    }
    Ok(())
}

fn take_if_ready(
    nodes: &[Node],
    heads: usize,
    target: u32,
    class: u8,
    done: &mut [bool],
    batched: &mut Vec<u32>,
) -> Result<(), NoMemory>
    requires inside { target < length nodes.now }
    requires operands { All (λ a. a.0 < length nodes.now) (reads_at nodes.now target) }
    requires taken { Taken nodes.now heads done.old batched.old.items }
    ensures { IfOk result (λ _. Taken nodes.now heads done.new batched.new.items) }
{
    if done[target as usize] {
        return Ok(());
    }
    let kind = &nodes[target as usize].kind;
    if class_of(kind) != class {
        return Ok(());
    }
    if !is_ready(kind, done) {
        return Ok(());
    }
    take(nodes, heads, target, done, batched)
}

// Appends all of these nodes that are left.
fn take_rest(
    nodes: &[Node],
    heads: usize,
    order: &[u32],
    done: &mut [bool],
    batched: &mut Vec<u32>,
) -> Result<(), NoMemory>
    requires order { IsOrdered nodes.now heads order.now }
    requires taken { Taken nodes.now heads done.old batched.old.items }
    ensures taken { IfOk result (λ _. Taken nodes.now heads done.new batched.new.items) }
    ensures all { IfOk result (λ _. (j : ℕ) → IsKnown heads order.now (length order.now) j → IsMarked done.new j) }
{
    for k in 0..order.len() {
        take(nodes, heads, order[k], done, batched)?;
    }
    Ok(())
}

// Appends a node whose operands are already in the order.
fn take(
    nodes: &[Node],
    _heads: usize,
    target: u32,
    done: &mut [bool],
    batched: &mut Vec<u32>,
) -> Result<(), NoMemory>
    requires inside { target < length nodes.now }
    requires operands { All (λ a. IsMarked done.old a.0) (reads_at nodes.now target) }
    requires taken { Taken nodes.now _heads done.old batched.old.items }
    ensures taken { IfOk result (λ _. Taken nodes.now _heads done.new batched.new.items) }
    ensures grows { Grows done.old done.new }
    ensures marked { IsMarked done.new target }
{
    if done[target as usize] {
        return Ok(());
    }
    done[target as usize] = true;
    batched.push(target)?;
    Ok(())
}

// Whether all operands of a node of this kind are already in the order.
fn is_ready(kind: &Kind, done: &[bool]) -> bool
    requires { All (λ a. a.0 < length done.now) (reads kind.now) }
    ensures { result ≡ true → All (λ a. IsMarked done.now a.0) (reads kind.now) }
{
    match kind {
        Kind::Const(_) | Kind::Ext | Kind::Sample(_) | Kind::Reg(_) => true,
        Kind::Word(_, a) | Kind::Not(a) | Kind::Slice(a, _, _) => are_done(&[*a], done),
        Kind::Binary(_, a, b) => are_done(&[*a, *b], done),
        Kind::Mux(test, yes, no) => are_done(&[*test, *yes, *no], done),
        Kind::Concat(parts) => are_done(parts.nodes(), done),
    }
}

fn are_done(nodes: &[NodeId], done: &[bool]) -> bool
    requires { All (λ a. a.0 < length done.now) nodes.now }
    ensures { result ≡ true → All (λ a. IsMarked done.now a.0) nodes.now }
{
    for k in 0..nodes.len() {
        if !done[nodes[k].0 as usize] {
            return false;
        }
    }
    true
}

// The operation of a node of this kind, as a number below 16.
fn class_of(kind: &Kind) -> u8 {
    match kind {
        Kind::Const(_) => 0,
        Kind::Reg(_) => 1,
        Kind::Ext => 2,
        Kind::Slice(_, _, _) => 3,
        Kind::Not(_) => 4,
        Kind::Binary(BinOp::And, _, _) => 5,
        Kind::Binary(BinOp::Or, _, _) => 6,
        Kind::Binary(BinOp::Xor, _, _) => 7,
        Kind::Binary(BinOp::Add, _, _) => 8,
        Kind::Binary(BinOp::Sub, _, _) => 9,
        Kind::Binary(BinOp::Eq, _, _) => 10,
        Kind::Binary(BinOp::Lt, _, _) => 11,
        Kind::Mux(_, _, _) => 12,
        Kind::Concat(parts) => match parts.nodes().len() {
            2 => 13,
            3 => 15,
            _ => 14,
        },
        Kind::Binary(_, _, _) | Kind::Sample(_) | Kind::Word(_, _) => 14,
    }
}

// A step for each of these nodes. The last one is computed from its node, so that each batch ends before it.
fn steps_of(alloc: Global, nodes: &[Node], order: &[u32]) -> Result<Vec<Step>, NoMemory>
    requires some { 1 ≤ length order.now }
    requires inside { (k : ℕ) → k < length order.now → get_or order.now k 0 < length nodes.now }
    requires widths { (i : ℕ) → i < length nodes.now → (1 ≤ (get_or nodes.now i no_node).width) × ((get_or nodes.now i no_node).width ≤ 64) }
    ensures { IfOk result (λ steps. steps.items ≡ map (step_for nodes.now) (take (length order.now - 1) order.now) ++ by_node (get_or order.now (length order.now - 1) 0) ∷ []) }
{
    let mut steps = Vec::with_capacity(alloc, order.len())?;
    let last = order.len() - 1;
    for k in 0..last {
        let target = order[k];
        let op = op_of(nodes, &nodes[target as usize]);
        steps.push(Step { target, op })?;
    }
    steps.push(Step {
        target: order[last],
        op: Op::Plain,
    })?;
    Ok(steps)
}
