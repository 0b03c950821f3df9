//! Concatenation of nodes.
ghost use Rattle.std.specs.Prelude.{◌≡◌, ◌+◌, ◌/◌, ◌<◌, ◌≤◌, ◌∷◌, length, IfOk};
ghost use Rattle.std.specs.List.{sum_by};
ghost use Rattle.kp_bits.specs.Checked.{checked_joined};
ghost use Rattle.kp_net.specs.Widths.{wide};
ghost use Rattle.kp_net.specs.Growth.{Held, Grown};
ghost use Rattle.kp_build.specs.inner.Showing.{IsThere, Shows, AllInside, words_at};

use kp_base::NoMemory;
use kp_net::{NodeId, Operands};
use kp_net_gates::join;
use kp_pool::Pool;
use std::alloc::Global;

/// `{a, b}`: the concatenation of one or more nodes, the first in the high bits. As each has at least one bit, there are at most 64.
pub(crate) fn joined(alloc: Global, pool: &mut Pool, parts: &[NodeId]) -> Result<NodeId, NoMemory>
    requires room { 8 ≤ pool.old.spare }
    requires inside { AllInside pool.old parts.now }
    requires fit { IsThere (λ c. checked_joined (words_at c pool.old parts.now)) }
    ensures inside { IfOk result (λ n. n.0 < length pool.new.nodes) }
    ensures shows { IfOk result (λ n. Shows pool.new n (λ c. checked_joined (words_at c pool.old parts.now))) }
    ensures grown { Grown pool.old pool.new 8 }
{
    // All nodes of a pool are well-formed, as the contract of `spare` says too: each part has at least one bit.
    prove!(pool.spare() >= 8);
    joined_by_steps(alloc, pool, parts)
}

// The same, in several steps, since a node of the pool has at most 12 parts.
fn joined_by_steps(alloc: Global, pool: &mut Pool, parts: &[NodeId]) -> Result<NodeId, NoMemory>
    requires room { (length parts.now + 9) / 11 ≤ pool.old.spare }
    requires inside { AllInside pool.old parts.now }
    requires fit { IsThere (λ c. checked_joined (words_at c pool.old parts.now)) }
    ensures inside { IfOk result (λ n. n.0 < length pool.new.nodes) }
    ensures shows { IfOk result (λ n. Shows pool.new n (λ c. checked_joined (words_at c pool.old parts.now))) }
    ensures grown { Grown pool.old pool.new ((length parts.now + 9) / 11) }
{
    match parts.len() {
        0 => unreachable!(),
        1 => Ok(parts[0]),
        2..=12 => Ok(row(alloc, pool, parts)),
        _ => {
            let (front, back) = parts.split_at(12);
            let first = row(alloc, pool, front);
            let shorter = list_of(alloc, first, back)?;
            joined_by_steps(alloc, pool, shorter.as_slice())
        }
    }
}

// A list of a node, followed by others.
fn list_of(alloc: Global, first: NodeId, rest: &[NodeId]) -> Result<Vec<NodeId>, NoMemory>
    ensures { IfOk result (λ all. all.items ≡ first ∷ rest.now) }
{
    let mut all = Vec::new(alloc);
    all.push(first)?;
    for node in rest {
        all.push(*node)?;
    }
    Ok(all)
}

// The concatenation of 2 to 12 nodes.
fn row(alloc: Global, pool: &mut Pool, parts: &[NodeId]) -> NodeId
    requires room { 1 ≤ pool.old.spare }
    requires some { 2 ≤ length parts.now }
    requires few { length parts.now ≤ 12 }
    requires inside { AllInside pool.old parts.now }
    requires fit { IsThere (λ c. checked_joined (words_at c pool.old parts.now)) }
    ensures inside { result.0 < length pool.new.nodes }
    ensures shows { Shows pool.new result (λ c. checked_joined (words_at c pool.old parts.now)) }
    ensures grown { Grown pool.old pool.new 1 }
{
    let width = width_of(pool, parts);
    join(pool, Operands::new(alloc, parts), width)
}

// The width of the concatenation of nodes.
fn width_of(pool: &Pool, parts: &[NodeId]) -> u8
    requires inside { AllInside pool.now parts.now }
    requires fits { sum_by (λ n. wide pool.now.nodes n.0) parts.now ≤ 64 }
    ensures value { result ≡ sum_by (λ n. wide pool.now.nodes n.0) parts.now }
    ensures positive { 1 ≤ length parts.now → 1 ≤ result }
{
    let mut width = 0;
    for part in parts {
        width += pool.width(*part);
    }
    width
}
