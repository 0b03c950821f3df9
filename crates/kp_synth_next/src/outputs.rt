//! The outputs of the netlist: a bit for each stage.
ghost use Rattle.std.specs.Prelude.{◌≡◌, ℕ, ◌+◌, ◌-◌, ◌<◌, ◌≤◌, length};
ghost use Rattle.kp_net.specs.Nodes.{Cells, at, on};
ghost use Rattle.kp_net.specs.Growth.{Held, Wire, Grown};
ghost use Rattle.kp_synth_registers.specs.Holding.{word_bit};
ghost use Rattle.kp_pipeline.specs.Pipeline.{PipelineState, Inputs};
ghost use Rattle.kp_synth_registers.specs.Meaning.{node_at, Ready, IsTest};
ghost use Rattle.kp_synth_next.specs.Control.{Controls, ShowRow};

use crate::control::{Control, RowNodes};
use kp_design::Layout;
use kp_net::{NodeId, Operands};
use kp_net_gates::join;
use kp_pool::Pool;
use kp_synth_registers::{Reads, full_in};
use std::alloc::Global;

// The first nodes in reverse order.
fn reversed(bits: &[NodeId; 12], n: u32) -> [NodeId; 12]
    requires { n ≤ 12 }
    ensures { (j : ℕ) → j < n → node_at result j ≡ node_at bits.now (n - 1 - j) }
{
    let mut parts = [NodeId(0); 12];
    for k in 0..n {
        parts[k as usize] = bits[(n - 1 - k) as usize];
    }
    parts
}

// The word whose bit k is the node of stage k.
fn word_of(alloc: Global, pool: &mut Pool, bits: &[NodeId; 12], n: u32) -> NodeId
    requires room { 1 ≤ pool.old.spare }
    requires at_least { 2 ≤ n }
    requires at_most { n ≤ 12 }
    requires wires { (k : ℕ) → k < n → Wire pool.old (node_at bits.now k) 1 }
    ensures wire { Wire pool.new result n }
    ensures bits { (c : Cells) (k : ℕ) → k < n → word_bit (at c pool.new.nodes result.0) k ≡ on c pool.old.nodes (node_at bits.now k).0 }
    ensures grown { Grown pool.old pool.new 1 }
{
    let parts = reversed(bits, n);
    let parts = Operands::new(alloc, &parts[..n as usize]);
    joined(pool, parts, n as u8)
}

// The concatenation of all these bits, the first in the highest position.
fn joined(pool: &mut Pool, parts: Operands, n: u8) -> NodeId
    requires room { 1 ≤ pool.old.spare }
    requires count { length parts ≡ n }
    requires at_least { 2 ≤ n }
    requires at_most { n ≤ 12 }
    requires wires { (j : ℕ) → j < length parts → Wire pool.old (node_at parts j) 1 }
    ensures wire { Wire pool.new result n }
    ensures bits { (c : Cells) (k j : ℕ) → k + (j + 1) ≡ n → word_bit (at c pool.new.nodes result.0) k ≡ on c pool.old.nodes (node_at parts j).0 }
    ensures grown { Grown pool.old pool.new 1 }
{
    join(pool, parts, n)
}

// Whether each stage holds an instruction.
fn fulls_of(pool: &mut Pool, layout: &Layout<'_>, reads: &Reads) -> [NodeId; 12]
    requires room { 12 ≤ pool.old.spare }
    requires ready { Ready layout.now pool.old reads.now }
    ensures wires { (k : ℕ) → k < layout.now.stages.value → Wire pool.new (node_at result k) 1 }
    ensures is_test { (k : ℕ) → k < layout.now.stages.value → IsTest layout.now pool.new (node_at result k) (λ st i. (st.stage k).full) }
    ensures grown { Grown pool.old pool.new 12 }
{
    let mut fulls = [NodeId(0); 12];
    for k in 0..layout.stages() {
        fulls[k as usize] = full_in(pool, layout, reads, k);
    }
    fulls
}

/// The outputs of the netlist in a cycle: the full bits and the update enables with a bit for each stage, and the rollback.
pub fn row_nodes(
    alloc: Global,
    pool: &mut Pool,
    layout: &Layout<'_>,
    reads: &Reads,
    control: &Control,
) -> RowNodes
    requires room { 14 ≤ pool.old.spare }
    requires ready { Ready layout.now pool.old reads.now }
    requires controls { Controls layout.now pool.old control.now }
    ensures shows { ShowRow layout.now pool.new result }
    ensures grown { Grown pool.old pool.new 14 }
{
    let n = layout.stages();
    let fulls = fulls_of(pool, layout, reads);
    let full = word_of(alloc, pool, &fulls, n);
    let ue = word_of(alloc, pool, &control.updates, n);
    RowNodes {
        full,
        ue,
        back: control.back,
    }
}
