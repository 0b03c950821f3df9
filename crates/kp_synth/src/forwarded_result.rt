// The rows (bypass entries) of a stage.
ghost use Rattle.std.specs.Prelude.{◌≡◌, ℕ, ◌+◌, ◌<◌, ◌≤◌, ◌&&◌, ◌||◌, not, false, length};
ghost use Rattle.kp_net.specs.Widths.{wide};
ghost use Rattle.kp_pipeline.specs.Pipeline.{ok_value};
ghost use Rattle.kp_net.specs.Nodes.{Cells, at, on};
ghost use Rattle.kp_net.specs.Growth.{Held, Wire, Grown};
ghost use Rattle.kp_fwd.specs.Forward.{BitOk, PairOk, set_on, set_value as number_of_set};
ghost use Rattle.kp_synth_registers.specs.Holding.{optional};
ghost use Rattle.kp_synth_registers.specs.Meaning.{SetFits, set_value};
ghost use Rattle.kp_synth_stage.specs.Rows.{AddressOk, RowOk};

use kp_fwd::carried;
use kp_net::NodeId;
use kp_net_gates::{bit, both, either, inverse};
use kp_pool::Pool;
use kp_synth_registers::Set;
use kp_synth_stage::Row;

// Whether a hit can forward its value.
#[tactic(auto, using(kp_net::proofs::Growing::growing))]
fn ok_of(pool: &mut Pool, known: bool, has: NodeId, fresh: NodeId, stall: NodeId) -> NodeId
    requires room { 4 ≤ pool.old.spare }
    requires has { Wire pool.old has 1 }
    requires fresh { Wire pool.old fresh 1 }
    requires stall { Wire pool.old stall 1 }
    ensures wire { Wire pool.new result 1 }
    ensures value { (c : Cells) → on c pool.new.nodes result.0 ≡ (known && (on c pool.old.nodes has.0 || (on c pool.old.nodes fresh.0 && not (on c pool.old.nodes stall.0)))) }
    ensures grown { Grown pool.old pool.new 4 }
{
    if !known {
        return bit(pool, false);
    }
    let free = inverse(pool, stall);
    let leaves = both(pool, fresh, free);
    either(pool, has, leaves)
}

// A set as its two nodes.
fn pair_of(set: Option<Set>) -> Option<(NodeId, NodeId)>
    ensures fits { (p : Held) (w : ℕ) → SetFits p w set → PairOk p 1 w result }
    ensures on { (c : Cells) (p : Held) → optional (set_on c p result) (number_of_set c p result) ≡ set_value c p set }
    ensures off { (c : Cells) (p : Held) → set_on c p result ≡ false → number_of_set c p result ≡ 0 }
{
    match set {
        None => None,
        Some(set) => Some((set.enabled, set.value)),
    }
}

/// The row (bypass entry) of a stage for the reads of a target below it. `stored` is the result that the stage holds,
/// `set` what it sets in this cycle; `last` says that it is the write stage, and `halt` whether it stalls.
pub(crate) fn row_of(
    pool: &mut Pool,
    full: NodeId,
    known: bool,
    enable: Option<NodeId>,
    address: Option<NodeId>,
    stored: Set,
    set: Option<Set>,
    last: bool,
    halt: NodeId,
) -> Row
    requires room { 16 ≤ pool.old.spare }
    requires full { Wire pool.old full 1 }
    requires enable { BitOk pool.old enable }
    requires valid { Wire pool.old stored.enabled 1 }
    requires value { stored.value.0 < length pool.old.nodes }
    requires set { SetFits pool.old (wide pool.old.nodes stored.value.0) set }
    requires halt { Wire pool.old halt 1 }
    ensures ok { (a : ℕ) → AddressOk pool.old a address → RowOk pool.new a (wide pool.old.nodes stored.value.0) result }
    ensures hits { (result.full ≡ full) × (result.known ≡ known) × (result.enable ≡ enable) × (result.address ≡ address) }
    ensures value { (c : Cells) → optional (on c pool.new.nodes result.ok.0) (at c pool.new.nodes result.value.0)
        ≡ ok_value known (optional (on c pool.old.nodes stored.enabled.0) (at c pool.old.nodes stored.value.0)) (on c pool.old.nodes halt.0) (set_value c pool.old set) last }
    ensures grown { Grown pool.old pool.new 12 }
{
    let pair = pair_of(set);
    let carry = carried(pool, stored.enabled, stored.value, pair, last);
    let ok = ok_of(pool, known, carry.has, carry.fresh, halt);
    Row {
        full,
        known,
        enable,
        address,
        ok,
        value: carry.value,
    }
}
