// Gates on single bits.
ghost use Rattle.std.specs.Prelude.{◌≡◌, ℕ, ◌+◌, ◌≤◌, ◌&&◌, ◌||◌, ◌==◌, not, cond};
ghost use Rattle.kp_net.specs.Nodes.{Cells, at, on};
ghost use Rattle.kp_net.specs.Depth.{depth, IsNoDeeper};
ghost use Rattle.kp_net.specs.Growth.{Held, Wire, Grown};

use crate::words::{binary, choose, complement, constant};
use kp_bits::BinOp;
use kp_net::NodeId;
use kp_pool::Pool;

/// `a & b` of single bits.
pub fn both(pool: &mut Pool, a: NodeId, b: NodeId) -> NodeId
    requires room { 1 ≤ pool.old.spare }
    requires first { Wire pool.old a 1 }
    requires second { Wire pool.old b 1 }
    ensures wire { Wire pool.new result 1 }
    ensures value { (c : Cells) → on c pool.new.nodes result.0 ≡ (on c pool.old.nodes a.0 && on c pool.old.nodes b.0) }
    ensures depth { (d : ℕ) → IsNoDeeper pool.old.nodes a d → IsNoDeeper pool.old.nodes b d → IsNoDeeper pool.new.nodes result (d + 1) }
    ensures grown { Grown pool.old pool.new 1 }
{
    binary(pool, BinOp::And, a, b, 1)
}

/// `a | b` of single bits.
pub fn either(pool: &mut Pool, a: NodeId, b: NodeId) -> NodeId
    requires room { 1 ≤ pool.old.spare }
    requires first { Wire pool.old a 1 }
    requires second { Wire pool.old b 1 }
    ensures wire { Wire pool.new result 1 }
    ensures value { (c : Cells) → on c pool.new.nodes result.0 ≡ (on c pool.old.nodes a.0 || on c pool.old.nodes b.0) }
    ensures depth { (d : ℕ) → IsNoDeeper pool.old.nodes a d → IsNoDeeper pool.old.nodes b d → IsNoDeeper pool.new.nodes result (d + 1) }
    ensures grown { Grown pool.old pool.new 1 }
{
    binary(pool, BinOp::Or, a, b, 1)
}

/// `~a` of a single bit.
pub fn inverse(pool: &mut Pool, a: NodeId) -> NodeId
    requires room { 1 ≤ pool.old.spare }
    requires wire { Wire pool.old a 1 }
    ensures wire { Wire pool.new result 1 }
    ensures value { (c : Cells) → on c pool.new.nodes result.0 ≡ not (on c pool.old.nodes a.0) }
    ensures depth { (d : ℕ) → IsNoDeeper pool.old.nodes a d → IsNoDeeper pool.new.nodes result (d + 1) }
    ensures grown { Grown pool.old pool.new 1 }
{
    complement(pool, a, 1)
}

/// `a == b`, one bit. Both have the same width.
pub fn same(pool: &mut Pool, a: NodeId, b: NodeId, width: u8) -> NodeId
    requires room { 1 ≤ pool.old.spare }
    requires first { Wire pool.old a width }
    requires second { Wire pool.old b width }
    ensures wire { Wire pool.new result 1 }
    ensures value { (c : Cells) → on c pool.new.nodes result.0 ≡ (at c pool.old.nodes a.0 == at c pool.old.nodes b.0) }
    ensures depth { (d : ℕ) → IsNoDeeper pool.old.nodes a d → IsNoDeeper pool.old.nodes b d → IsNoDeeper pool.new.nodes result (d + 1) }
    ensures grown { Grown pool.old pool.new 1 }
{
    binary(pool, BinOp::Eq, a, b, 1)
}

/// `test ? yes : no` of single bits.
pub fn pick(pool: &mut Pool, test: NodeId, yes: NodeId, no: NodeId) -> NodeId
    requires room { 1 ≤ pool.old.spare }
    requires test { Wire pool.old test 1 }
    requires first { Wire pool.old yes 1 }
    requires second { Wire pool.old no 1 }
    ensures wire { Wire pool.new result 1 }
    ensures value { (c : Cells) → on c pool.new.nodes result.0 ≡ cond (on c pool.old.nodes test.0) (on c pool.old.nodes yes.0) (on c pool.old.nodes no.0) }
    ensures depth { (d : ℕ) → IsNoDeeper pool.old.nodes test d → IsNoDeeper pool.old.nodes yes d → IsNoDeeper pool.old.nodes no d → IsNoDeeper pool.new.nodes result (d + 1) }
    ensures grown { Grown pool.old pool.new 1 }
{
    choose(pool, test, yes, no, 1)
}

/// A constant of one bit.
#[tactic(auto, unfolding(kp_net::specs::Nodes::on))]
pub fn bit(pool: &mut Pool, value: bool) -> NodeId
    requires { 1 ≤ pool.old.spare }
    ensures wire { Wire pool.new result 1 }
    ensures value { (c : Cells) → on c pool.new.nodes result.0 ≡ value }
    ensures depth { depth pool.new.nodes result.0 ≡ 0 }
    ensures grown { Grown pool.old pool.new 1 }
{
    if value {
        constant(pool, 1, 1)
    } else {
        constant(pool, 1, 0)
    }
}
