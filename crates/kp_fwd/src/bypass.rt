// Hits, and the result that a stage carries.
ghost use Rattle.std.specs.Prelude.{◌≡◌, ◌<◌, ◌≤◌, ◌&&◌, ◌||◌, not, if◌then◌else◌, length};
ghost use Rattle.kp_net.specs.Nodes.{Cells, at, on};
ghost use Rattle.kp_net.specs.Widths.{wide};
ghost use Rattle.kp_net.specs.Growth.{Held, Wire, Grown};
ghost use Rattle.kp_fwd.specs.Forward.{enable_on, addresses_agree, BitOk, PairOk, SameWidth, set_on, set_value};

use crate::entries::Carried;
use kp_net::NodeId;
use kp_net_gates::{bit, both, choose, constant, either, inverse, same};
use kp_pool::Pool;

/// Whether a stage hits: it is full, and its intent isn't known, or is to write at the address that is read. `enable`
/// is its enable, if it has one, and `address` its address and the one that is read, if the target is a file.
#[tactic(auto, using(kp_net::proofs::Growing::growing))]
pub fn hit_of(
    pool: &mut Pool,
    full: NodeId,
    known: bool,
    enable: Option<NodeId>,
    address: Option<(NodeId, NodeId)>,
) -> NodeId
    requires room { 4 ≤ pool.old.spare }
    requires full { Wire pool.old full 1 }
    requires enable { BitOk pool.old enable }
    requires address { SameWidth pool.old address }
    ensures wire { Wire pool.new result 1 }
    ensures value { (c : Cells) → on c pool.new.nodes result.0 ≡ (on c pool.old.nodes full.0 && (not known || (enable_on c pool.old enable && addresses_agree c pool.old address))) }
    ensures grown { Grown pool.old pool.new 3 }
{
    if !known {
        return full;
    }
    let here = match enable {
        None => full,
        Some(e) => both(pool, full, e),
    };
    match address {
        None => here,
        Some((a, b)) => {
            let width = pool.width(a);
            let equal = same(pool, a, b, width);
            both(pool, here, equal)
        }
    }
}

/// The result that a stage carries: the stored one, else the value of a set in this cycle, else 0. `set` is the
/// enable of a set in the stage, and its value; `last` says that this is the write stage.
#[tactic(auto, using(kp_net::proofs::Growing::growing))]
pub fn carried(
    pool: &mut Pool,
    valid: NodeId,
    stored: NodeId,
    set: Option<(NodeId, NodeId)>,
    last: bool,
) -> Carried
    requires room { 8 ≤ pool.old.spare }
    requires valid { Wire pool.old valid 1 }
    requires stored { stored.0 < length pool.old.nodes }
    requires set { PairOk pool.old 1 (wide pool.old.nodes stored.0) set }
    ensures has_wire { Wire pool.new result.has 1 }
    ensures fresh_wire { Wire pool.new result.fresh 1 }
    ensures value_wire { Wire pool.new result.value (wide pool.old.nodes stored.0) }
    ensures has { (c : Cells) → on c pool.new.nodes result.has.0 ≡ on c pool.old.nodes valid.0 }
    ensures fresh { (c : Cells) → on c pool.new.nodes result.fresh.0 ≡ (not (on c pool.old.nodes valid.0) && (set_on c pool.old set || last)) }
    ensures value { (c : Cells) → at c pool.new.nodes result.value.0 ≡ (if on c pool.old.nodes valid.0 then at c pool.old.nodes stored.0 else set_value c pool.old set) }
    ensures grown { Grown pool.old pool.new 7 }
{
    let width = pool.width(stored);
    let ready = ready_of(pool, set, last, width);
    let now = now_of(pool, set, width);
    let absent = inverse(pool, valid);
    let fresh = both(pool, absent, ready);
    let value = choose(pool, valid, stored, now, width);
    Carried {
        has: valid,
        fresh,
        value,
    }
}

// A set is enabled now, or this is the write stage.
#[tactic(auto, using(kp_net::proofs::Growing::growing))]
fn ready_of(pool: &mut Pool, set: Option<(NodeId, NodeId)>, last: bool, width: u8) -> NodeId
    requires room { 2 ≤ pool.old.spare }
    requires set { PairOk pool.old 1 width set }
    ensures wire { Wire pool.new result 1 }
    ensures value { (c : Cells) → on c pool.new.nodes result.0 ≡ (set_on c pool.old set || last) }
    ensures grown { Grown pool.old pool.new 2 }
{
    let at_end = bit(pool, last);
    match set {
        None => at_end,
        Some((enable, _)) => either(pool, enable, at_end),
    }
}

// The value of a set in this cycle.
#[tactic(auto, using(kp_net::proofs::Growing::growing))]
fn now_of(pool: &mut Pool, set: Option<(NodeId, NodeId)>, width: u8) -> NodeId
    requires room { 2 ≤ pool.old.spare }
    requires positive { 1 ≤ width }
    requires at_most { width ≤ 64 }
    requires set { PairOk pool.old 1 width set }
    ensures wire { Wire pool.new result width }
    ensures value { (c : Cells) → at c pool.new.nodes result.0 ≡ set_value c pool.old set }
    ensures grown { Grown pool.old pool.new 2 }
{
    let zero = constant(pool, width, 0);
    match set {
        None => zero,
        Some((enable, value)) => choose(pool, enable, value, zero, width),
    }
}
