// Rollback: the greatest stage that mismatches.
ghost use Rattle.std.specs.Prelude.{◌≡◌, ℕ, ◌+◌, ◌*◌, ◌<◌, ◌≤◌, if◌then◌else◌, not, leb, length, false};
ghost use Rattle.kp_net.specs.Nodes.{Cells, at, on};
ghost use Rattle.kp_net.specs.Growth.{Held, Wire, Grown};
ghost use Rattle.kp_pipeline.specs.Pipeline.{greatest};
ghost use Rattle.kp_engine.specs.Misses.{bit_at, BitsOk};

use crate::squash::Sweep;
use kp_net::NodeId;
use kp_net_gates::{bit, choose, constant, either};
use kp_pool::Pool;

/// The stages that are squashed if these of the n stages mismatch: those up to the greatest that does.
#[tactic(auto, using(kp_net::proofs::Growing::growing, crate::proofs::Greatest::bits_grown))]
pub fn sweep(pool: &mut Pool, misses: &[NodeId; 12], n: u8) -> Sweep
    requires room { 64 ≤ pool.old.spare }
    requires some { 2 ≤ n }
    requires few { n ≤ 12 }
    requires misses { BitsOk pool.old misses.now 12 }
    ensures wire { Wire pool.new result.back 4 }
    ensures wires { BitsOk pool.new result.swept 12 }
    ensures back { (c : Cells) → at c pool.new.nodes result.back.0 ≡ greatest (bit_at c pool.old misses.now) n }
    ensures swept { (c : Cells) (k : ℕ) → k < n → bit_at c pool.new result.swept k ≡ not (leb (greatest (bit_at c pool.old misses.now) n) k) }
    ensures none { (c : Cells) (k : ℕ) → n ≤ k → k < 12 → bit_at c pool.new result.swept k ≡ false }
    ensures grown { Grown pool.old pool.new (3 * n + 2) }
{
    let swept = swept_of(pool, misses.as_slice(), n);
    let back = back_of(pool, misses.as_slice(), n);
    Sweep { back, swept }
}

// One more than the number of the greatest stage that mismatches, or 0.
fn back_of(pool: &mut Pool, misses: &[NodeId], n: u8) -> NodeId
    requires room { 25 ≤ pool.old.spare }
    requires few { n ≤ 12 }
    requires within { n ≤ length misses.now }
    requires misses { BitsOk pool.old misses.now 12 }
    ensures wire { Wire pool.new result 4 }
    ensures value { (c : Cells) → at c pool.new.nodes result.0 ≡ greatest (bit_at c pool.old misses.now) n }
    ensures grown { Grown pool.old pool.new (2 * n + 1) }
{
    let mut back = constant(pool, 4, 0);
    for k in 0..n {
        back = later(pool, misses[k as usize], back, k);
    }
    back
}

// One more than the stage's number if it mismatches, else the result for the lower stages.
#[tactic(auto, using(kp_net::proofs::Growing::growing))]
fn later(pool: &mut Pool, miss: NodeId, back: NodeId, k: u8) -> NodeId
    requires room { 2 ≤ pool.old.spare }
    requires few { k < 12 }
    requires miss { Wire pool.old miss 1 }
    requires back { Wire pool.old back 4 }
    ensures wire { Wire pool.new result 4 }
    ensures value { (c : Cells) → at c pool.new.nodes result.0 ≡ (if on c pool.old.nodes miss.0 then k + 1 else at c pool.old.nodes back.0) }
    ensures grown { Grown pool.old pool.new 2 }
{
    let number = constant(pool, 4, u64::from(k) + 1);
    choose(pool, miss, number, back, 4)
}

// Bit k is 1 if a stage from k on mismatches.
fn swept_of(pool: &mut Pool, misses: &[NodeId], n: u8) -> [NodeId; 12]
    requires room { 13 ≤ pool.old.spare }
    requires few { n ≤ 12 }
    requires within { n ≤ length misses.now }
    requires misses { BitsOk pool.old misses.now 12 }
    ensures wires { BitsOk pool.new result 12 }
    ensures value { (c : Cells) (k : ℕ) → k < n → bit_at c pool.new result k ≡ not (leb (greatest (bit_at c pool.old misses.now) n) k) }
    ensures none { (c : Cells) (k : ℕ) → n ≤ k → k < 12 → bit_at c pool.new result k ≡ false }
    ensures grown { Grown pool.old pool.new (n + 1) }
{
    let zero = bit(pool, false);
    let mut swept = [zero; 12];
    let mut over = zero;
    for j in 0..n {
        let k = n - 1 - j;
        over = either(pool, over, misses[k as usize]);
        swept[k as usize] = over;
    }
    swept
}
