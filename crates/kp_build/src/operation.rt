//! One function for each operation of expressions: a node with its value, given the nodes of the operands.
//!
//! The operands have the widths that the operation requires.
ghost use Rattle.std.specs.Prelude.{◌≡◌, ◌+◌, ◌<◌, ◌≤◌, ℕ, length, true, is_some};
ghost use Rattle.kp_bits.specs.Word.{concat_of, not_of};
ghost use Rattle.kp_bits.specs.Checked.{checked_literal, checked_binary, checked_mux, checked_slice, checked_zext, checked_sext};
ghost use Rattle.kp_net.specs.Nodes.{Cells, word_at};
ghost use Rattle.kp_net.specs.Widths.{wide};
ghost use Rattle.kp_net.specs.Growth.{Held, Wire, Grown};
ghost use Rattle.kp_build.specs.inner.Showing.{IsThere, Shows, copies};

use kp_bits::{BinOp, Literal};
use kp_net::{NodeId, Operands};
use kp_net_gates::{binary, choose, complement, constant, join, part};
use kp_pool::Pool;
use std::alloc::Global;

/// The value of a literal.
pub(crate) fn number(pool: &mut Pool, literal: Literal) -> NodeId
    requires room { 1 ≤ pool.old.spare }
    requires right { is_some (checked_literal literal) ≡ true }
    ensures inside { result.0 < length pool.new.nodes }
    ensures shows { Shows pool.new result (λ c. checked_literal literal) }
    ensures grown { Grown pool.old pool.new 1 }
{
    match literal.fit() {
        Ok(bits) => constant(pool, bits.width(), bits.value()),
        Err(_) => unreachable!(),
    }
}

/// `~a`
pub(crate) fn inverted(pool: &mut Pool, a: NodeId) -> NodeId
    requires room { 1 ≤ pool.old.spare }
    requires inside { a.0 < length pool.old.nodes }
    ensures inside { result.0 < length pool.new.nodes }
    ensures word { (c : Cells) → word_at c pool.new.nodes result.0 ≡ not_of (word_at c pool.old.nodes a.0) }
    ensures grown { Grown pool.old pool.new 1 }
{
    let width = pool.width(a);
    complement(pool, a, width)
}

/// `a + b`, or with another operator.
pub(crate) fn operated(pool: &mut Pool, op: BinOp, a: NodeId, b: NodeId) -> NodeId
    requires room { 1 ≤ pool.old.spare }
    requires left { a.0 < length pool.old.nodes }
    requires right { b.0 < length pool.old.nodes }
    requires fit { IsThere (λ c. checked_binary op (word_at c pool.old.nodes a.0) (word_at c pool.old.nodes b.0)) }
    ensures inside { result.0 < length pool.new.nodes }
    ensures shows { Shows pool.new result (λ c. checked_binary op (word_at c pool.old.nodes a.0) (word_at c pool.old.nodes b.0)) }
    ensures grown { Grown pool.old pool.new 1 }
{
    let width = op.result_width(pool.width(a));
    binary(pool, op, a, b, width)
}

/// `test ? yes : no`
pub(crate) fn chosen(pool: &mut Pool, test: NodeId, yes: NodeId, no: NodeId) -> NodeId
    requires room { 1 ≤ pool.old.spare }
    requires test { test.0 < length pool.old.nodes }
    requires yes { yes.0 < length pool.old.nodes }
    requires no { no.0 < length pool.old.nodes }
    requires fit { IsThere (λ c. checked_mux (word_at c pool.old.nodes test.0) (word_at c pool.old.nodes yes.0) (word_at c pool.old.nodes no.0)) }
    ensures inside { result.0 < length pool.new.nodes }
    ensures shows { Shows pool.new result (λ c. checked_mux (word_at c pool.old.nodes test.0) (word_at c pool.old.nodes yes.0) (word_at c pool.old.nodes no.0)) }
    ensures grown { Grown pool.old pool.new 1 }
{
    let width = pool.width(yes);
    choose(pool, test, yes, no, width)
}

/// `a[hi:lo]`
pub(crate) fn sliced(pool: &mut Pool, a: NodeId, hi: u64, lo: u64) -> NodeId
    requires room { 1 ≤ pool.old.spare }
    requires inside { a.0 < length pool.old.nodes }
    requires fit { IsThere (λ c. checked_slice hi lo (word_at c pool.old.nodes a.0)) }
    ensures inside { result.0 < length pool.new.nodes }
    ensures shows { Shows pool.new result (λ c. checked_slice hi lo (word_at c pool.old.nodes a.0)) }
    ensures grown { Grown pool.old pool.new 1 }
{
    let width = pool.width(a);
    part(pool, a, hi as u8, lo as u8, width)
}

/// `zext(a, width)`: zeros in the high bits.
pub(crate) fn zero_extended(alloc: Global, pool: &mut Pool, a: NodeId, width: u64) -> NodeId
    requires room { 2 ≤ pool.old.spare }
    requires inside { a.0 < length pool.old.nodes }
    requires fit { IsThere (λ c. checked_zext width (word_at c pool.old.nodes a.0)) }
    ensures inside { result.0 < length pool.new.nodes }
    ensures shows { Shows pool.new result (λ c. checked_zext width (word_at c pool.old.nodes a.0)) }
    ensures grown { Grown pool.old pool.new 2 }
{
    let more = width as u8 - pool.width(a);
    if more == 0 {
        return a;
    }
    let zeros = constant(pool, more, 0);
    pair(alloc, pool, zeros, a)
}

/// `sext(a, width)`: copies of the top bit in the high bits, which are all ones or all zeros.
pub(crate) fn sign_extended(alloc: Global, pool: &mut Pool, a: NodeId, width: u64) -> NodeId
    requires room { 5 ≤ pool.old.spare }
    requires inside { a.0 < length pool.old.nodes }
    requires fit { IsThere (λ c. checked_sext width (word_at c pool.old.nodes a.0)) }
    ensures inside { result.0 < length pool.new.nodes }
    ensures shows { Shows pool.new result (λ c. checked_sext width (word_at c pool.old.nodes a.0)) }
    ensures grown { Grown pool.old pool.new 5 }
{
    let more = width as u8 - pool.width(a);
    if more == 0 {
        return a;
    }
    let front = copies(pool, a, more);
    pair(alloc, pool, front, a)
}

// n copies of the top bit.
fn copies(pool: &mut Pool, a: NodeId, count: u8) -> NodeId
    requires room { 4 ≤ pool.old.spare }
    requires inside { a.0 < length pool.old.nodes }
    requires positive { 1 ≤ count }
    requires at_most { count ≤ 64 }
    ensures wire { Wire pool.new result count }
    ensures word { (c : Cells) → word_at c pool.new.nodes result.0 ≡ copies count (word_at c pool.old.nodes a.0) }
    ensures grown { Grown pool.old pool.new 4 }
{
    let width = pool.width(a);
    let top = part(pool, a, width - 1, width - 1, width);
    let zeros = constant(pool, count, 0);
    let ones = complement(pool, zeros, count);
    choose(pool, top, ones, zeros, count)
}

// `{high, low}`
fn pair(alloc: Global, pool: &mut Pool, high: NodeId, low: NodeId) -> NodeId
    requires room { 1 ≤ pool.old.spare }
    requires high { high.0 < length pool.old.nodes }
    requires low { low.0 < length pool.old.nodes }
    requires fit { wide pool.old.nodes high.0 + wide pool.old.nodes low.0 ≤ 64 }
    ensures inside { result.0 < length pool.new.nodes }
    ensures word { (c : Cells) → word_at c pool.new.nodes result.0 ≡ concat_of (word_at c pool.old.nodes high.0) (word_at c pool.old.nodes low.0) }
    ensures grown { Grown pool.old pool.new 1 }
{
    let width = pool.width(high) + pool.width(low);
    join(pool, Operands::new(alloc, &[high, low]), width)
}
