// Selecting the nearest hit with a balanced tree.
ghost use Rattle.std.specs.Prelude.{◌≡◌, ℕ, ◌+◌, ◌-◌, ◌*◌, ◌^◌, ◌<◌, ◌≤◌, ◌||◌, if◌then◌else◌, length, All, true};
ghost use Rattle.kp_net.specs.Nodes.{Cells, at, on};
ghost use Rattle.kp_net.specs.Widths.{wide};
ghost use Rattle.kp_net.specs.Depth.{IsNoDeeper};
ghost use Rattle.kp_net.specs.Growth.{Held, Wire, Grown};
ghost use Rattle.kp_fwd.specs.Forward.{some_hits, first_ok, first_value, CandidateOk, IsWithin, IsPickedWithin};
ghost use Rattle.kp_fwd.specs.inner.Tree.{StandsFor};

use crate::entries::{Candidate, Picked};
use kp_net::NodeId;
use kp_net_gates::{bit, choose, either, pick};
use kp_pool::Pool;

/// The first of these rows that hits, or `none` if none does, by a balanced tree: at most 6 deeper than its inputs.
#[tactic(auto, using(kp_net::proofs::Growing::growing))]
pub fn select(pool: &mut Pool, rows: &[Candidate], none: NodeId) -> Picked
    requires room { 16 * length rows.now + 8 ≤ pool.old.spare }
    requires few { length rows.now ≤ 11 }
    requires rows { All (CandidateOk pool.old (wide pool.old.nodes none.0)) rows.now }
    requires none { none.0 < length pool.old.nodes }
    ensures any_wire { Wire pool.new result.any 1 }
    ensures ok_wire { Wire pool.new result.ok 1 }
    ensures value_wire { Wire pool.new result.value (wide pool.old.nodes none.0) }
    ensures any { (c : Cells) → on c pool.new.nodes result.any.0 ≡ some_hits c pool.old rows.now }
    ensures ok { (c : Cells) → on c pool.new.nodes result.ok.0 ≡ first_ok c pool.old rows.now }
    ensures value { (c : Cells) → at c pool.new.nodes result.value.0 ≡ first_value c pool.old rows.now (at c pool.old.nodes none.0) }
    ensures depth { (d : ℕ) → All (IsWithin pool.old d) rows.now → IsNoDeeper pool.old.nodes none d → IsPickedWithin pool.new (d + 6) result }
    ensures grown { Grown pool.old pool.new (3 * length rows.now + 2) }
{
    if rows.is_empty() {
        let any = bit(pool, false);
        let ok = bit(pool, true);
        return Picked {
            any,
            ok,
            value: none,
        };
    }
    let width = pool.width(none);
    let first = first_hit(pool, rows, width);
    picked(pool, first, none, width)
}

// The row if it hits, else `none`.
#[tactic(auto, using(kp_net::proofs::Growing::growing))]
fn picked(pool: &mut Pool, first: Candidate, none: NodeId, width: u8) -> Picked
    requires room { 3 ≤ pool.old.spare }
    requires positive { 1 ≤ width }
    requires at_most { width ≤ 64 }
    requires first { CandidateOk pool.old width first }
    requires none { Wire pool.old none width }
    ensures any_wire { Wire pool.new result.any 1 }
    ensures ok_wire { Wire pool.new result.ok 1 }
    ensures value_wire { Wire pool.new result.value width }
    ensures any { (c : Cells) → on c pool.new.nodes result.any.0 ≡ on c pool.old.nodes first.hit.0 }
    ensures ok { (c : Cells) → on c pool.new.nodes result.ok.0 ≡ (if on c pool.old.nodes first.hit.0 then on c pool.old.nodes first.ok.0 else true) }
    ensures value { (c : Cells) → at c pool.new.nodes result.value.0 ≡ (if on c pool.old.nodes first.hit.0 then at c pool.old.nodes first.value.0 else at c pool.old.nodes none.0) }
    ensures depth { (d : ℕ) → IsWithin pool.old d first → IsNoDeeper pool.old.nodes none d → IsPickedWithin pool.new (d + 1) result }
    ensures grown { Grown pool.old pool.new 3 }
{
    let yes = bit(pool, true);
    let ok = pick(pool, first.hit, first.ok, yes);
    let value = choose(pool, first.hit, first.value, none, width);
    Picked {
        any: first.hit,
        ok,
        value,
    }
}

// One row that replaces these: it hits if one of them does, and then equals the first of these.
fn first_hit(pool: &mut Pool, rows: &[Candidate], width: u8) -> Candidate
    requires room { 3 * length rows.now ≤ pool.old.spare }
    requires positive { 1 ≤ width }
    requires at_most { width ≤ 64 }
    requires some { 1 ≤ length rows.now }
    requires rows { All (CandidateOk pool.old width) rows.now }
    ensures wires { CandidateOk pool.new width result }
    ensures stands { StandsFor pool.old rows.now pool.new result }
    ensures depth { (d l : ℕ) → length rows.now ≤ 2 ^ l → All (IsWithin pool.old d) rows.now → IsWithin pool.new (d + l) result }
    ensures grown { Grown pool.old pool.new (3 * length rows.now - 3) }
{
    if rows.len() == 1 {
        return rows[0];
    }
    let (near, far) = rows.split_at(rows.len() / 2);
    let first = first_hit(pool, near, width);
    let second = first_hit(pool, far, width);
    joined(pool, first, second, width)
}

// One row that replaces two.
#[tactic(auto, using(kp_net::proofs::Growing::growing))]
fn joined(pool: &mut Pool, near: Candidate, far: Candidate, width: u8) -> Candidate
    requires room { 3 ≤ pool.old.spare }
    requires positive { 1 ≤ width }
    requires at_most { width ≤ 64 }
    requires near { CandidateOk pool.old width near }
    requires far { CandidateOk pool.old width far }
    ensures hit_wire { Wire pool.new result.hit 1 }
    ensures ok_wire { Wire pool.new result.ok 1 }
    ensures value_wire { Wire pool.new result.value width }
    ensures hit { (c : Cells) → on c pool.new.nodes result.hit.0 ≡ (on c pool.old.nodes near.hit.0 || on c pool.old.nodes far.hit.0) }
    ensures ok { (c : Cells) → on c pool.new.nodes result.ok.0 ≡ (if on c pool.old.nodes near.hit.0 then on c pool.old.nodes near.ok.0 else on c pool.old.nodes far.ok.0) }
    ensures value { (c : Cells) → at c pool.new.nodes result.value.0 ≡ (if on c pool.old.nodes near.hit.0 then at c pool.old.nodes near.value.0 else at c pool.old.nodes far.value.0) }
    ensures depth { (d : ℕ) → IsWithin pool.old d near → IsWithin pool.old d far → IsWithin pool.new (d + 1) result }
    ensures grown { Grown pool.old pool.new 3 }
{
    let hit = either(pool, near.hit, far.hit);
    let ok = pick(pool, near.hit, near.ok, far.ok);
    let value = choose(pool, near.hit, near.value, far.value, width);
    Candidate { hit, ok, value }
}
