// The control of one stage: stall, update enable, full bit and wrong guesses.
ghost use Rattle.std.specs.Prelude.{◌≡◌, ◌<◌, ◌≤◌, ◌&&◌, ◌||◌, ◌==◌, not, length};
ghost use Rattle.kp_net.specs.Nodes.{Cells, at, on};
ghost use Rattle.kp_net.specs.Widths.{wide};
ghost use Rattle.kp_net.specs.Growth.{Held, Wire, Grown};

use kp_net::NodeId;
use kp_net_gates::{both, either, inverse, same};
use kp_pool::Pool;

/// Whether a stage stalls: it is full, and it has a data hazard, is stalled by the environment, or the stage above stalls.
#[tactic(auto, using(kp_net::proofs::Growing::growing))]
pub fn stall_of(pool: &mut Pool, full: NodeId, hazard: NodeId, ext: NodeId, above: NodeId) -> NodeId
    requires room { 64 ≤ pool.old.spare }
    requires full { Wire pool.old full 1 }
    requires hazard { Wire pool.old hazard 1 }
    requires ext { Wire pool.old ext 1 }
    requires above { Wire pool.old above 1 }
    ensures wire { Wire pool.new result 1 }
    ensures value { (c : Cells) → on c pool.new.nodes result.0 ≡ (on c pool.old.nodes full.0 && (on c pool.old.nodes hazard.0 || (on c pool.old.nodes ext.0 || on c pool.old.nodes above.0))) }
    ensures grown { Grown pool.old pool.new 3 }
{
    let later = either(pool, ext, above);
    let any = either(pool, hazard, later);
    both(pool, full, any)
}

/// Whether a stage updates: it is full, doesn't stall, and isn't squashed.
#[tactic(auto, using(kp_net::proofs::Growing::growing))]
pub fn update_of(pool: &mut Pool, full: NodeId, stall: NodeId, swept: NodeId) -> NodeId
    requires room { 64 ≤ pool.old.spare }
    requires full { Wire pool.old full 1 }
    requires stall { Wire pool.old stall 1 }
    requires swept { Wire pool.old swept 1 }
    ensures wire { Wire pool.new result 1 }
    ensures value { (c : Cells) → on c pool.new.nodes result.0 ≡ (on c pool.old.nodes full.0 && (not (on c pool.old.nodes stall.0) && not (on c pool.old.nodes swept.0))) }
    ensures grown { Grown pool.old pool.new 4 }
{
    let moves = inverse(pool, stall);
    let stays = inverse(pool, swept);
    let free = both(pool, moves, stays);
    both(pool, full, free)
}

/// The next full bit of a stage: it isn't squashed, and the stage below moves into it or it stalls.
#[tactic(auto, using(kp_net::proofs::Growing::growing))]
pub fn full_next(pool: &mut Pool, update_below: NodeId, stall: NodeId, swept: NodeId) -> NodeId
    requires room { 3 ≤ pool.old.spare }
    requires update_below { Wire pool.old update_below 1 }
    requires stall { Wire pool.old stall 1 }
    requires swept { Wire pool.old swept 1 }
    ensures wire { Wire pool.new result 1 }
    ensures value { (c : Cells) → on c pool.new.nodes result.0 ≡ (not (on c pool.old.nodes swept.0) && (on c pool.old.nodes update_below.0 || on c pool.old.nodes stall.0)) }
    ensures grown { Grown pool.old pool.new 3 }
{
    let stays = inverse(pool, swept);
    let comes = either(pool, update_below, stall);
    both(pool, stays, comes)
}

/// Whether a guess is wrong: its stage is full, it is pending, its truth is known, and the truth differs from it.
#[tactic(auto, using(kp_net::proofs::Growing::growing))]
pub fn mismatch(
    pool: &mut Pool,
    full: NodeId,
    pending: NodeId,
    known: NodeId,
    truth: NodeId,
    guess: NodeId,
) -> NodeId
    requires room { 64 ≤ pool.old.spare }
    requires full { Wire pool.old full 1 }
    requires pending { Wire pool.old pending 1 }
    requires known { Wire pool.old known 1 }
    requires truth { truth.0 < length pool.old.nodes }
    requires guess { Wire pool.old guess (wide pool.old.nodes truth.0) }
    ensures wire { Wire pool.new result 1 }
    ensures value { (c : Cells) → on c pool.new.nodes result.0
        ≡ (on c pool.old.nodes full.0 && (on c pool.old.nodes pending.0 && (on c pool.old.nodes known.0 && not (at c pool.old.nodes truth.0 == at c pool.old.nodes guess.0)))) }
    ensures grown { Grown pool.old pool.new 5 }
{
    let width = pool.width(truth);
    let equal = same(pool, truth, guess, width);
    let differs = inverse(pool, equal);
    let wrong = both(pool, known, differs);
    let found = both(pool, pending, wrong);
    both(pool, full, found)
}
