// Operations on words.
ghost use Rattle.std.specs.Prelude.{◌≡◌, ℕ, ◌+◌, ◌-◌, ◌<◌, ◌≤◌, ◌^◌, All, cond, length, map};
ghost use Rattle.std.specs.List.{sum_by};
ghost use Rattle.kp_bits.specs.Word.{word, not_of, mux_of, slice_of};
ghost use Rattle.kp_bits.specs.Operators.{binary_of, joined_of};
ghost use Rattle.kp_net.specs.Nodes.{Cells, word_at, at, on};
ghost use Rattle.kp_net.specs.Widths.{BinaryOk, wide};
ghost use Rattle.kp_net.specs.Depth.{depth, IsNoDeeper};
ghost use Rattle.kp_net.specs.Growth.{Held, Wire, Grown};

use kp_bits::BinOp;
use kp_net::{Kind, Node, NodeId, Operands};
use kp_pool::Pool;

/// A constant.
pub fn constant(pool: &mut Pool, width: u8, value: u64) -> NodeId
    requires room { 1 ≤ pool.old.spare }
    requires positive { 1 ≤ width }
    requires at_most { width ≤ 64 }
    requires fits { value < 2 ^ width }
    ensures wire { Wire pool.new result width }
    ensures word { (c : Cells) → word_at c pool.new.nodes result.0 ≡ word width value }
    ensures value { (c : Cells) → at c pool.new.nodes result.0 ≡ value }
    ensures depth { depth pool.new.nodes result.0 ≡ 0 }
    ensures grown { Grown pool.old pool.new 1 }
{
    pool.node(Node {
        width,
        kind: Kind::Const(value),
    })
}

/// `~a`
pub fn complement(pool: &mut Pool, a: NodeId, width: u8) -> NodeId
    requires room { 1 ≤ pool.old.spare }
    requires positive { 1 ≤ width }
    requires at_most { width ≤ 64 }
    requires wire { Wire pool.old a width }
    ensures wire { Wire pool.new result width }
    ensures word { (c : Cells) → word_at c pool.new.nodes result.0 ≡ not_of (word_at c pool.old.nodes a.0) }
    ensures depth { (d : ℕ) → IsNoDeeper pool.old.nodes a d → IsNoDeeper pool.new.nodes result (d + 1) }
    ensures grown { Grown pool.old pool.new 1 }
{
    pool.node(Node {
        width,
        kind: Kind::Not(a),
    })
}

/// `a + b`, or with another operator. The width is that of the result.
pub fn binary(pool: &mut Pool, op: BinOp, a: NodeId, b: NodeId, width: u8) -> NodeId
    requires room { 1 ≤ pool.old.spare }
    requires positive { 1 ≤ width }
    requires at_most { width ≤ 64 }
    requires left { a.0 < length pool.old.nodes }
    requires right { b.0 < length pool.old.nodes }
    requires widths { BinaryOk op width (wide pool.old.nodes a.0) (wide pool.old.nodes b.0) }
    ensures wire { Wire pool.new result width }
    ensures word { (c : Cells) → word_at c pool.new.nodes result.0 ≡ binary_of op (word_at c pool.old.nodes a.0) (word_at c pool.old.nodes b.0) }
    ensures depth { (d : ℕ) → IsNoDeeper pool.old.nodes a d → IsNoDeeper pool.old.nodes b d → IsNoDeeper pool.new.nodes result (d + 1) }
    ensures grown { Grown pool.old pool.new 1 }
{
    pool.node(Node {
        width,
        kind: Kind::Binary(op, a, b),
    })
}

/// `test ? yes : no`
pub fn choose(pool: &mut Pool, test: NodeId, yes: NodeId, no: NodeId, width: u8) -> NodeId
    requires room { 1 ≤ pool.old.spare }
    requires positive { 1 ≤ width }
    requires at_most { width ≤ 64 }
    requires test { Wire pool.old test 1 }
    requires first { Wire pool.old yes width }
    requires second { Wire pool.old no width }
    ensures wire { Wire pool.new result width }
    ensures word { (c : Cells) → word_at c pool.new.nodes result.0 ≡ mux_of (word_at c pool.old.nodes test.0) (word_at c pool.old.nodes yes.0) (word_at c pool.old.nodes no.0) }
    ensures value { (c : Cells) → at c pool.new.nodes result.0 ≡ cond (on c pool.old.nodes test.0) (at c pool.old.nodes yes.0) (at c pool.old.nodes no.0) }
    ensures depth { (d : ℕ) → IsNoDeeper pool.old.nodes test d → IsNoDeeper pool.old.nodes yes d → IsNoDeeper pool.old.nodes no d → IsNoDeeper pool.new.nodes result (d + 1) }
    ensures grown { Grown pool.old pool.new 1 }
{
    pool.node(Node {
        width,
        kind: Kind::Mux(test, yes, no),
    })
}

/// `{a, b}`: the concatenation of all parts, the first in the high bits. The width is the sum of theirs.
pub fn join(pool: &mut Pool, parts: Operands, width: u8) -> NodeId
    requires room { 1 ≤ pool.old.spare }
    requires positive { 1 ≤ width }
    requires at_most { width ≤ 64 }
    requires some { 2 ≤ length parts }
    requires few { length parts ≤ 12 }
    requires inside { All (λ a. a.0 < length pool.old.nodes) parts }
    requires widths { sum_by (λ a. wide pool.old.nodes a.0) parts ≡ width }
    ensures wire { Wire pool.new result width }
    ensures word { (c : Cells) → word_at c pool.new.nodes result.0 ≡ joined_of (map (λ a. word_at c pool.old.nodes a.0) parts) }
    ensures depth { (d : ℕ) → All (λ a. IsNoDeeper pool.old.nodes a d) parts → IsNoDeeper pool.new.nodes result (d + 1) }
    ensures grown { Grown pool.old pool.new 1 }
{
    pool.node(Node {
        width,
        kind: Kind::Concat(parts),
    })
}

/// `a[hi:lo]`
pub fn part(pool: &mut Pool, a: NodeId, hi: u8, lo: u8, width: u8) -> NodeId
    requires room { 1 ≤ pool.old.spare }
    requires at_most { width ≤ 64 }
    requires wire { Wire pool.old a width }
    requires order { lo ≤ hi }
    requires within { hi < width }
    ensures wire { Wire pool.new result (hi + 1 - lo) }
    ensures word { (c : Cells) → word_at c pool.new.nodes result.0 ≡ slice_of (word_at c pool.old.nodes a.0) hi lo }
    ensures depth { (d : ℕ) → IsNoDeeper pool.old.nodes a d → IsNoDeeper pool.new.nodes result (d + 1) }
    ensures grown { Grown pool.old pool.new 1 }
{
    pool.node(Node {
        width: hi - lo + 1,
        kind: Kind::Slice(a, hi, lo),
    })
}
