// Evaluating the nodes of a cycle.
ghost use Rattle.std.specs.Prelude.{◌≡◌, ◌<◌, ◌≤◌, ◌+◌, ◌^◌, false, length, get_or, map, All};
ghost use Rattle.std.specs.List.{sum_by};
ghost use Rattle.kp_bits.specs.Operators.{joined_of};
ghost use Rattle.kp_bits.specs.Word.{IsWord, word};
ghost use Rattle.kp_net.specs.Nodes.{word_of_node, at};
ghost use Rattle.kp_net.specs.Widths.{wide, no_node};
ghost use Rattle.kp_net.specs.Parts.{NetOk};
ghost use Rattle.kp_cycle.specs.Steps.{given};
ghost use Rattle.kp_cycle_plan.specs.Plans.{IsPlan, OfRoots};
ghost use Rattle.kp_cycle.specs.inner.Settling.{AreFixed, Settled};
ghost use Rattle.kp_cycle_plan.specs.Storage.{Fits, FitsBelow, StateFits, cells, seen, state_of};

use crate::batches::take_batches;
use kp_bits::{Bits, low_bits};
use kp_cycle_plan::{Memory, Step};
use kp_net::{Kind, Netlist, NodeId};

/// Evaluates the nodes of the cycle with this stall word and these values of the sample ports: the heads are copied from the registers, and then all
/// steps are evaluated.
pub fn settle(
    net: &Netlist,
    heads: u32,
    fixed: usize,
    steps: &[Step],
    memory: &mut Memory,
    ext: u64,
    samples: &[Bits],
)
    requires plan { IsPlan net.now heads steps.now }
    requires fits { Fits net.now memory.old }
    requires state { StateFits net.now (state_of memory.old) }
    requires widths { FitsBelow net.now.nodes memory.old.nodes (length net.now.nodes) }
    requires samples { length samples.now ≡ length net.now.parts.samples }
    requires fixed { AreFixed net.now.nodes steps.now fixed memory.old.nodes }
    ensures fits { Fits net.now memory.new }
    ensures fixed { AreFixed net.now.nodes steps.now fixed memory.new.nodes }
    ensures known { OfRoots net.now (λ j. get_or memory.new.nodes j 0 ≡ at (cells (given ext false samples.now) memory.new) net.now.nodes j) }
    ensures widths { FitsBelow net.now.nodes memory.new.nodes (length net.now.nodes) }
    ensures regs { memory.new.regs ≡ memory.old.regs }
    ensures files { memory.new.files ≡ memory.old.files }
    ensures slots { memory.new.slots ≡ memory.old.slots }
{
    memory.show_regs(heads);
    let mut k = fixed;
    'all: while k < steps.len() {
        k = take_batches(net, heads, steps, memory.nodes_mut(), k);
        take_one(net, heads, steps, memory, ext, samples, k);
        k += 1;
    }
}

/// Sets the targets of the first steps as far as they are constants, and returns how many these are. They keep their values in all cycles.
pub fn put_constants(net: &Netlist, heads: u32, steps: &[Step], memory: &mut Memory) -> usize
    requires plan { IsPlan net.now heads steps.now }
    requires fits { Fits net.now memory.old }
    requires widths { FitsBelow net.now.nodes memory.old.nodes (length net.now.nodes) }
    ensures fits { Fits net.now memory.new }
    ensures widths { FitsBelow net.now.nodes memory.new.nodes (length net.now.nodes) }
    ensures fixed { AreFixed net.now.nodes steps.now result memory.new.nodes }
    ensures regs { memory.new.regs ≡ memory.old.regs }
    ensures files { memory.new.files ≡ memory.old.files }
    ensures slots { memory.new.slots ≡ memory.old.slots }
{
    for k in 0..steps.len() {
        let target = steps[k].target;
        let Kind::Const(value) = &net.nodes()[target as usize].kind else {
            return k;
        };
        memory.set_node(target, *value);
    }
    steps.len()
}

// Evaluates one step, as the node itself specifies.
fn take_one(
    net: &Netlist,
    _heads: u32,
    steps: &[Step],
    memory: &mut Memory,
    ext: u64,
    samples: &[Bits],
    k: usize,
)
    requires plan { IsPlan net.now _heads steps.now }
    requires fits { Fits net.now memory.old }
    requires samples { length samples.now ≡ length net.now.parts.samples }
    requires inside { k < length steps.now }
    requires settled { Settled net.now (given ext false samples.now) _heads steps.now k memory.old }
    ensures fits { Fits net.now memory.new }
    ensures settled { Settled net.now (given ext false samples.now) _heads steps.now (k + 1) memory.new }
    ensures regs { memory.new.regs ≡ memory.old.regs }
    ensures files { memory.new.files ≡ memory.old.files }
    ensures slots { memory.new.slots ≡ memory.old.slots }
{
    let target = steps[k].target;
    let value = value_of(net, memory, ext, samples, target as usize);
    memory.set_node(target, value);
}

// The value of node i, computed from those of the nodes before it.
fn value_of(net: &Netlist, memory: &Memory, ext: u64, samples: &[Bits], i: usize) -> u64
    requires inside { i < length net.now.nodes }
    requires samples { length samples.now ≡ length net.now.parts.samples }
    requires fits { Fits net.now memory.now }
    requires known { FitsBelow net.now.nodes memory.now.nodes i }
    ensures { result ≡ (word_of_node (cells (given ext false samples.now) memory.now) (seen net.now.nodes memory.now.nodes) (get_or net.now.nodes i no_node)).value }
{
    let node = &net.nodes()[i];
    match &node.kind {
        Kind::Const(value) => *value,
        Kind::Ext => low_bits(ext, node.width),
        Kind::Sample(port) => low_bits(samples[*port as usize].value(), node.width),
        Kind::Reg(reg) => low_bits(memory.reg(*reg), node.width),
        Kind::Word(file, address) => low_bits(
            memory.word(*file, memory.node(address.0)),
            node.width,
        ),
        Kind::Not(a) => operand(net, memory, *a).not().value(),
        Kind::Binary(op, a, b) => {
            let left = operand(net, memory, *a);
            let right = operand(net, memory, *b);
            op.apply(left, right).value()
        }
        Kind::Mux(test, yes, no) => {
            let test = operand(net, memory, *test);
            let yes = operand(net, memory, *yes);
            let no = operand(net, memory, *no);
            test.mux(yes, no).value()
        }
        Kind::Concat(parts) => joined(net, memory, parts.nodes()).value(),
        Kind::Slice(a, hi, lo) => operand(net, memory, *a).slice(*hi, *lo).value(),
    }
}

// The word of a node that is already evaluated.
fn operand(net: &Netlist, memory: &Memory, a: NodeId) -> Bits
    requires inside { a.0 < length net.now.nodes }
    requires fits { Fits net.now memory.now }
    requires known { get_or memory.now.nodes a.0 0 < 2 ^ wide net.now.nodes a.0 }
    ensures word { result ≡ seen net.now.nodes memory.now.nodes a.0 }
    ensures is_word { IsWord result }
{
    let width = width_of(net, a);
    let value = memory.node(a.0);
    word(width, value)
}

fn width_of(net: &Netlist, a: NodeId) -> u8
    requires { a.0 < length net.now.nodes }
    ensures width { result ≡ wide net.now.nodes a.0 }
    ensures positive { 1 ≤ result }
    ensures at_most { result ≤ 64 }
{
    net.nodes()[a.0 as usize].width
}

/// A number in this many bits.
pub fn word(width: u8, value: u64) -> Bits
    requires positive { 1 ≤ width }
    requires at_most { width ≤ 64 }
    requires fits { value < 2 ^ width }
    ensures word { result ≡ word width value }
    ensures is_word { IsWord result }
{
    Bits::new(width, value).unwrap()
}

// The concatenation of all parts, the first in the high bits.
#[tactic(auto, using(std::proofs::lemmas::List::Sums::sum_by_more_le))]
fn joined(net: &Netlist, memory: &Memory, parts: &[NodeId]) -> Bits
    requires fits { Fits net.now memory.now }
    requires some { 1 ≤ length parts.now }
    requires inside { All (λ a. a.0 < length net.now.nodes) parts.now }
    requires known { All (λ a. get_or memory.now.nodes a.0 0 < 2 ^ wide net.now.nodes a.0) parts.now }
    requires widths { sum_by (λ a. wide net.now.nodes a.0) parts.now ≤ 64 }
    ensures { result ≡ joined_of (map (λ a. seen net.now.nodes memory.now.nodes a.0) parts.now) }
{
    let mut word = operand(net, memory, parts[0]);
    for i in 1..parts.len() {
        word = word.concat(operand(net, memory, parts[i]));
    }
    word
}
