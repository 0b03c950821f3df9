//! Consecutive steps with the same operation, each operation in a loop of its own.
ghost use Rattle.std.specs.Prelude.{◌≡◌, ◌<◌, ◌≤◌, ℕ, length, Some};
ghost use Rattle.kp_net.specs.Netlist.{Input};
ghost use Rattle.kp_net.specs.Parts.{NetOk};
ghost use Rattle.kp_cycle_plan.specs.{Codes.number_of, Codes.IsReady, Storage.Stored};
ghost use Rattle.kp_cycle_plan.specs.Plans.{IsPlan};
ghost use Rattle.kp_cycle.specs.inner.Settling.{Settled};

use kp_cycle_plan::{Op, Step};
use kp_net::Netlist;

// One operation.
trait Batch {
    // The number that this operation computes, or nothing for any other.
    fn value(op: &Op, nodes: &[u64]) -> Option<u64>
        requires { IsReady (length nodes.now) op.now }
        ensures { (plain x : ℕ) → result ≡ Some x → x ≡ number_of nodes.now plain op.now };
}

struct Not;

struct And;

struct Or;

struct Xor;

struct Add;

struct Sub;

struct Mul;

struct Eq;

struct Lt;

struct Shl;

struct Shr;

struct Mux;

struct Join;

struct Join3;

struct Slice;

impl Batch for Not {
    fn value(op: &Op, nodes: &[u64]) -> Option<u64> {
        let Op::Not(a, mask) = op else { return None };
        Some(mask.wrapping_sub(nodes[a.0 as usize]))
    }
}

impl Batch for And {
    fn value(op: &Op, nodes: &[u64]) -> Option<u64> {
        let Op::And(a, b) = op else { return None };
        Some(nodes[a.0 as usize] & nodes[b.0 as usize])
    }
}

impl Batch for Or {
    fn value(op: &Op, nodes: &[u64]) -> Option<u64> {
        let Op::Or(a, b) = op else { return None };
        Some(nodes[a.0 as usize] | nodes[b.0 as usize])
    }
}

impl Batch for Xor {
    fn value(op: &Op, nodes: &[u64]) -> Option<u64> {
        let Op::Xor(a, b) = op else { return None };
        Some(nodes[a.0 as usize] ^ nodes[b.0 as usize])
    }
}

impl Batch for Add {
    fn value(op: &Op, nodes: &[u64]) -> Option<u64> {
        let Op::Add(a, b, mask) = op else { return None };
        Some(nodes[a.0 as usize].wrapping_add(nodes[b.0 as usize]) & *mask)
    }
}

impl Batch for Sub {
    fn value(op: &Op, nodes: &[u64]) -> Option<u64> {
        let Op::Sub(a, b, mask) = op else { return None };
        Some(nodes[a.0 as usize].wrapping_sub(nodes[b.0 as usize]) & *mask)
    }
}

impl Batch for Mul {
    fn value(op: &Op, nodes: &[u64]) -> Option<u64> {
        let Op::Mul(a, b, mask) = op else { return None };
        Some(nodes[a.0 as usize].wrapping_mul(nodes[b.0 as usize]) & *mask)
    }
}

impl Batch for Eq {
    fn value(op: &Op, nodes: &[u64]) -> Option<u64> {
        let Op::Eq(a, b) = op else { return None };
        Some(u64::from(nodes[a.0 as usize] == nodes[b.0 as usize]))
    }
}

impl Batch for Lt {
    fn value(op: &Op, nodes: &[u64]) -> Option<u64> {
        let Op::Lt(a, b) = op else { return None };
        Some(u64::from(nodes[a.0 as usize] < nodes[b.0 as usize]))
    }
}

impl Batch for Shl {
    fn value(op: &Op, nodes: &[u64]) -> Option<u64> {
        let Op::Shl(a, b, width, mask) = op else {
            return None
        };
        let distance = nodes[b.0 as usize];
        Some(if distance < u64::from(*width) {
            (nodes[a.0 as usize] << (distance & 63)) & *mask
        } else {
            0
        })
    }
}

impl Batch for Shr {
    fn value(op: &Op, nodes: &[u64]) -> Option<u64> {
        let Op::Shr(a, b, width) = op else {
            return None
        };
        let distance = nodes[b.0 as usize];
        Some(if distance < u64::from(*width) {
            nodes[a.0 as usize] >> (distance & 63)
        } else {
            0
        })
    }
}

impl Batch for Mux {
    fn value(op: &Op, nodes: &[u64]) -> Option<u64> {
        let Op::Mux(test, yes, no) = op else {
            return None
        };
        let chosen = if nodes[test.0 as usize] == 1 {
            yes.0
        } else {
            no.0
        };
        Some(nodes[chosen as usize])
    }
}

impl Batch for Join {
    fn value(op: &Op, nodes: &[u64]) -> Option<u64> {
        let Op::Join(high, low, width) = op else {
            return None
        };
        Some((nodes[high.0 as usize] << (*width & 63)) | nodes[low.0 as usize])
    }
}

impl Batch for Join3 {
    fn value(op: &Op, nodes: &[u64]) -> Option<u64> {
        let Op::Join3(high, middle, low, width, last) = op else {
            return None
        };
        let upper = (nodes[high.0 as usize] << (*width & 63)) | nodes[middle.0 as usize];
        Some((upper << (*last & 63)) | nodes[low.0 as usize])
    }
}

impl Batch for Slice {
    fn value(op: &Op, nodes: &[u64]) -> Option<u64> {
        let Op::Slice(a, lo, mask) = op else {
            return None
        };
        Some((nodes[a.0 as usize] >> (*lo & 63)) & *mask)
    }
}

/// Evaluates batches of steps from this one on, up to the first step that is evaluated singly, and returns the index of that. The last step of all
/// is evaluated singly, so that nothing tests for the end of the steps.
pub fn take_batches(
    net: &Netlist,
    heads: u32,
    steps: &[Step],
    nodes: &mut [u64],
    from: usize,
) -> usize
    requires plan { IsPlan net.now heads steps.now }
    requires right { NetOk net.now }
    requires count { length nodes.old ≡ length net.now.nodes }
    requires inside { from < length steps.now }
    ensures forward { from ≤ result }
    ensures inside { result < length steps.now }
    ensures settled { (input : Input) (m : Stored) → Settled net.now input heads steps.now from (record m { nodes = nodes.old }) → Settled net.now input heads steps.now result (record m { nodes = nodes.new }) }
{
    let mut k = from;
    let mut is_single = false;
    'more: while !is_single {
        let end = take_batch(net, heads, steps, nodes, k);
        is_single = end == k;
        k = end;
    }
    k
}

// Evaluates the steps from this one on that have the same operation, and returns the index of the first with
// another. Evaluates none if the operation is one of those that are evaluated singly.
fn take_batch(net: &Netlist, heads: u32, steps: &[Step], nodes: &mut [u64], from: usize) -> usize
    requires plan { IsPlan net.now heads steps.now }
    requires right { NetOk net.now }
    requires count { length nodes.old ≡ length net.now.nodes }
    requires inside { from < length steps.now }
    ensures forward { from ≤ result }
    ensures inside { result < length steps.now }
    ensures settled { (input : Input) (m : Stored) → Settled net.now input heads steps.now from (record m { nodes = nodes.old }) → Settled net.now input heads steps.now result (record m { nodes = nodes.new }) }
{
    match &steps[from].op {
        Op::Not(_, _) => take_while::<Not>(net, heads, steps, nodes, from),
        Op::And(_, _) => take_while::<And>(net, heads, steps, nodes, from),
        Op::Or(_, _) => take_while::<Or>(net, heads, steps, nodes, from),
        Op::Xor(_, _) => take_while::<Xor>(net, heads, steps, nodes, from),
        Op::Add(_, _, _) => take_while::<Add>(net, heads, steps, nodes, from),
        Op::Sub(_, _, _) => take_while::<Sub>(net, heads, steps, nodes, from),
        Op::Mul(_, _, _) => take_while::<Mul>(net, heads, steps, nodes, from),
        Op::Eq(_, _) => take_while::<Eq>(net, heads, steps, nodes, from),
        Op::Lt(_, _) => take_while::<Lt>(net, heads, steps, nodes, from),
        Op::Shl(_, _, _, _) => take_while::<Shl>(net, heads, steps, nodes, from),
        Op::Shr(_, _, _) => take_while::<Shr>(net, heads, steps, nodes, from),
        Op::Mux(_, _, _) => take_while::<Mux>(net, heads, steps, nodes, from),
        Op::Join(_, _, _) => take_while::<Join>(net, heads, steps, nodes, from),
        Op::Join3(_, _, _, _, _) => take_while::<Join3>(net, heads, steps, nodes, from),
        Op::Slice(_, _, _) => take_while::<Slice>(net, heads, steps, nodes, from),
        Op::Plain => from,
    }
}

// Evaluates the steps from this one on that have this operation. Four
// steps are evaluated in a turn of the loop, which saves counting.
#[inline(always)]
fn take_while<B: Batch>(
    net: &Netlist,
    _heads: u32,
    steps: &[Step],
    nodes: &mut [u64],
    from: usize,
) -> usize
    requires plan { IsPlan net.now _heads steps.now }
    requires right { NetOk net.now }
    requires count { length nodes.old ≡ length net.now.nodes }
    requires inside { from < length steps.now }
    ensures forward { from ≤ result }
    ensures inside { result < length steps.now }
    ensures settled { (input : Input) (m : Stored) → Settled net.now input _heads steps.now from (record m { nodes = nodes.old }) → Settled net.now input _heads steps.now result (record m { nodes = nodes.new }) }
{
    let mut k = from;
    'batch: while let Some(value) = B::value(&steps[k].op, nodes) {
        nodes[steps[k].target as usize] = value;
        let second = take_if::<B>(net, _heads, steps, nodes, k + 1);
        let third = take_if::<B>(net, _heads, steps, nodes, second);
        k = take_if::<B>(net, _heads, steps, nodes, third);
    }
    k
}

// Evaluates this step if it has this operation.
#[inline(always)]
fn take_if<B: Batch>(
    net: &Netlist,
    _heads: u32,
    steps: &[Step],
    nodes: &mut [u64],
    k: usize,
) -> usize
    requires plan { IsPlan net.now _heads steps.now }
    requires right { NetOk net.now }
    requires count { length nodes.old ≡ length net.now.nodes }
    requires inside { k < length steps.now }
    ensures forward { k ≤ result }
    ensures inside { result < length steps.now }
    ensures settled { (input : Input) (m : Stored) → Settled net.now input _heads steps.now k (record m { nodes = nodes.old }) → Settled net.now input _heads steps.now result (record m { nodes = nodes.new }) }
{
    let Some(value) = B::value(&steps[k].op, nodes) else {
        return k
    };
    nodes[steps[k].target as usize] = value;
    k + 1
}
