// Reads: forwarding from the stages above, and the target's own value.
ghost use Rattle.std.specs.Prelude.{◌≡◌, ◌+◌, ◌-◌, ◌*◌, ◌<◌, ◌≤◌, ◌&&◌, not, length, All, IfOk};
ghost use Rattle.kp_net.specs.Nodes.{Cells, at, on};
ghost use Rattle.kp_net.specs.Widths.{wide};
ghost use Rattle.kp_net.specs.Growth.{Held, Wire, Grown};
ghost use Rattle.kp_fwd.specs.Forward.{addresses_agree, CandidateOk, SameWidth, BitOk, enable_on};
ghost use Rattle.kp_machine.specs.Slots.{targets_of};
ghost use Rattle.kp_design.specs.Numbers.{target_at};
ghost use Rattle.kp_synth_registers.specs.Holding.{optional};
ghost use Rattle.kp_synth_registers.specs.Meaning.{Added, PutFits};
ghost use Rattle.kp_synth_stage.specs.Rows.{asked, address_is, row_hits, rows_view, own_value, source_view, AddressOk, RowOk, RowsOk, SourceOk, AskOk};
ghost use Rattle.kp_synth_stage.specs.Reading.{Matched, given, lacks, value_or_zero, ask_width, AskInside};

use crate::row::{Got, Own, Row, Source, Truth};
use kp_base::NoMemory;
use kp_fwd::{Candidate, hit_of, select};
use kp_net::{Kind, Node, NodeId};
use kp_net_gates::{bit, both, choose, constant, inverse};
use kp_pool::Pool;
use kp_stage::Design;
use std::alloc::Global;

// The two addresses to compare, if a stage writes at an address.
#[tactic(auto, using(crate::proofs::Nearest::at_none))]
fn compared(
    pool: &Pool,
    written: Option<NodeId>,
    address: Option<NodeId>,
) -> Option<(NodeId, NodeId)>
    requires written { AddressOk pool.now (ask_width pool.now address) written }
    requires address { AskInside pool.now address }
    ensures same { SameWidth pool.now result }
    ensures agree { (c : Cells) → addresses_agree c pool.now result ≡ address_is c pool.now written (asked c pool.now address) }
{
    match written {
        None => None,
        Some(q) => match address {
            None => None,
            Some(a) => Some((q, a)),
        },
    }
}

// Whether a row hits: its stage may write the target at the address that is read.
#[tactic(auto, using(kp_net::proofs::Growing::growing))]
fn row_hit(pool: &mut Pool, row: Row, address: Option<NodeId>, width: u8) -> NodeId
    requires room { 4 ≤ pool.old.spare }
    requires row { RowOk pool.old (ask_width pool.old address) width row }
    requires address { AskInside pool.old address }
    ensures wire { Wire pool.new result 1 }
    ensures value { (c : Cells) → on c pool.new.nodes result.0 ≡ row_hits c pool.old row (asked c pool.old address) }
    ensures grown { Grown pool.old pool.new 4 }
{
    let pair = compared(pool, row.address, address);
    hit_of(pool, row.full, row.known, row.enable, pair)
}

// For each row (bypass entry) whether it hits, and its value.
fn candidates(
    alloc: Global,
    pool: &mut Pool,
    rows: &[Row],
    address: Option<NodeId>,
    width: u8,
) -> Result<Vec<Candidate>, NoMemory>
    requires room { 4 * length rows.now ≤ pool.old.spare }
    requires rows { RowsOk pool.old (ask_width pool.old address) width rows.now }
    requires address { AskInside pool.old address }
    ensures ok { IfOk result (λ xs. All (CandidateOk pool.new width) xs.items) }
    ensures count { IfOk result (λ xs. length xs.items ≡ length rows.now) }
    ensures matched { IfOk result (λ xs. (c : Cells) → Matched c pool.old (asked c pool.old address) pool.new rows.now xs.items) }
    ensures grown { IfOk result (λ xs. Grown pool.old pool.new (4 * length rows.now)) }
{
    let mut all = Vec::new(alloc);
    for row in rows {
        let hit = row_hit(pool, *row, address, width);
        all.push(Candidate {
            hit,
            ok: row.ok,
            value: row.value,
        })?;
    }
    Ok(all)
}

// The truth of a read at an address, from these rows and the target's own value there.
#[tactic(auto, using(kp_net::proofs::Growing::growing))]
fn truth(
    alloc: Global,
    pool: &mut Pool,
    rows: &[Row],
    own: NodeId,
    address: Option<NodeId>,
) -> Result<Truth, NoMemory>
    requires room { 20 * length rows.now + 8 ≤ pool.old.spare }
    requires few { length rows.now ≤ 11 }
    requires rows { RowsOk pool.old (ask_width pool.old address) (wide pool.old.nodes own.0) rows.now }
    requires own { own.0 < length pool.old.nodes }
    requires address { AskInside pool.old address }
    ensures ok_wire { IfOk result (λ t. Wire pool.new t.ok 1) }
    ensures value_wire { IfOk result (λ t. Wire pool.new t.value (wide pool.old.nodes own.0)) }
    ensures value { IfOk result (λ t. (c : Cells) → optional (on c pool.new.nodes t.ok.0) (at c pool.new.nodes t.value.0) ≡ rows_view c pool.old rows.now (at c pool.old.nodes own.0) (asked c pool.old address)) }
    ensures grown { IfOk result (λ t. Grown pool.old pool.new (20 * length rows.now + 8)) }
{
    let width = pool.width(own);
    let all = candidates(alloc, pool, rows, address, width)?;
    let picked = select(pool, all.as_slice(), own);
    Ok(Truth {
        ok: picked.ok,
        value: picked.value,
    })
}

/// The value of a read under a condition, where `miss` replaces its truth if that is not available.
#[tactic(auto, using(kp_net::proofs::Growing::growing, crate::proofs::Nearest::given_value))]
pub(crate) fn taken(pool: &mut Pool, found: Truth, when: NodeId, miss: NodeId, width: u8) -> Got
    requires room { 5 ≤ pool.old.spare }
    requires positive { 1 ≤ width }
    requires at_most { width ≤ 64 }
    requires ok { Wire pool.old found.ok 1 }
    requires value { Wire pool.old found.value width }
    requires when { Wire pool.old when 1 }
    requires miss { Wire pool.old miss width }
    ensures value_wire { Wire pool.new result.value width }
    ensures lacks_wire { Wire pool.new result.lacks 1 }
    ensures value { (c : Cells) → at c pool.new.nodes result.value.0 ≡ given (on c pool.old.nodes when.0) (optional (on c pool.old.nodes found.ok.0) (at c pool.old.nodes found.value.0)) (at c pool.old.nodes miss.0) }
    ensures lacks { (c : Cells) → on c pool.new.nodes result.lacks.0 ≡ (on c pool.old.nodes when.0 && not (on c pool.old.nodes found.ok.0)) }
    ensures grown { Grown pool.old pool.new 5 }
{
    let absent = inverse(pool, found.ok);
    let lacks = both(pool, when, absent);
    let truth = choose(pool, found.ok, found.value, miss, width);
    let zero = constant(pool, width, 0);
    let value = choose(pool, when, truth, zero, width);
    Got { value, lacks }
}

// A target's own value at an address.
#[tactic(auto, using(kp_net::proofs::Growing::growing, kp_synth_registers::proofs::Growth::adding))]
fn own_node(
    pool: &mut Pool,
    d: &Design,
    t: usize,
    source: &Source,
    address: Option<NodeId>,
) -> NodeId
    requires room { 1 ≤ pool.old.spare }
    requires target { t < length (targets_of d.now.job.decls) }
    requires source { SourceOk d.now.job pool.old t source.now }
    requires address { AskOk pool.old (target_at d.now.job t).address address }
    ensures wire { Wire pool.new result (target_at d.now.job t).width }
    ensures value { (c : Cells) → at c pool.new.nodes result.0 ≡ own_value c pool.old source.now.width source.now.own (asked c pool.old address) }
    ensures added { Added d.now.job pool.old pool.new 1 }
{
    match source.own {
        Own::Register(node) => node,
        Own::File(f) => match address {
            Some(a) => pool.node(Node {
                width: source.width,
                kind: Kind::Word(f, a),
            }),
            None => constant(pool, source.width, 0),
        },
    }
}

// An optional value, or 0 if there is none.
fn value_or_zero(pool: &mut Pool, value: Option<NodeId>, width: u8) -> NodeId
    requires room { 1 ≤ pool.old.spare }
    requires positive { 1 ≤ width }
    requires at_most { width ≤ 64 }
    requires fits { PutFits pool.old width value }
    ensures wire { Wire pool.new result width }
    ensures value { (c : Cells) → at c pool.new.nodes result.0 ≡ value_or_zero c pool.old value }
    ensures grown { Grown pool.old pool.new 1 }
{
    match value {
        Some(node) => node,
        None => constant(pool, width, 0),
    }
}

/// The truth of a read of target t: of a file at the address in this node, and of a register without an address.
///
/// The pool needs capacity for 20 nodes for each row of the source, and 9 more. The only error is out of memory.
pub fn source_truth(
    alloc: Global,
    pool: &mut Pool,
    d: &Design,
    t: usize,
    source: &Source,
    address: Option<NodeId>,
) -> Result<Truth, NoMemory>
    requires room { 20 * length source.now.rows.items + 9 ≤ pool.old.spare }
    requires target { t < length (targets_of d.now.job.decls) }
    requires source { SourceOk d.now.job pool.old t source.now }
    requires address { AskOk pool.old (target_at d.now.job t).address address }
    ensures ok_wire { IfOk result (λ x. Wire pool.new x.ok 1) }
    ensures value_wire { IfOk result (λ x. Wire pool.new x.value source.now.width) }
    ensures value { IfOk result (λ x. (c : Cells) → optional (on c pool.new.nodes x.ok.0) (at c pool.new.nodes x.value.0) ≡ source_view c pool.old source.now (asked c pool.old address)) }
    ensures added { IfOk result (λ x. Added d.now.job pool.old pool.new (20 * length source.now.rows.items + 9)) }
{
    let own = own_node(pool, d, t, source, address);
    let found = truth(alloc, pool, source.rows.as_slice(), own, address)?;
    Ok(found)
}

/// The value of a read of target t, from its address, its condition and its guess.
#[tactic(auto, using(kp_net::proofs::Growing::growing))]
pub(crate) fn read_source(
    alloc: Global,
    pool: &mut Pool,
    d: &Design,
    t: usize,
    source: &Source,
    address: Option<NodeId>,
    when: Option<NodeId>,
    guess: Option<NodeId>,
) -> Result<Got, NoMemory>
    requires room { 20 * d.now.job.stages.value ≤ pool.old.spare }
    requires target { t < length (targets_of d.now.job.decls) }
    requires source { SourceOk d.now.job pool.old t source.now }
    requires address { AskOk pool.old (target_at d.now.job t).address address }
    requires when { BitOk pool.old when }
    requires guess { PutFits pool.old source.now.width guess }
    ensures value_wire { IfOk result (λ g. Wire pool.new g.value source.now.width) }
    ensures lacks_wire { IfOk result (λ g. Wire pool.new g.lacks 1) }
    ensures value { IfOk result (λ g. (c : Cells) → at c pool.new.nodes g.value.0 ≡ given (enable_on c pool.old when) (source_view c pool.old source.now (asked c pool.old address)) (value_or_zero c pool.old guess)) }
    ensures lacks { IfOk result (λ g. (c : Cells) → on c pool.new.nodes g.lacks.0 ≡ lacks (enable_on c pool.old when) (source_view c pool.old source.now (asked c pool.old address))) }
    ensures added { IfOk result (λ g. Added d.now.job pool.old pool.new (20 * d.now.job.stages.value - 4)) }
{
    let test = condition(pool, when);
    let miss = value_or_zero(pool, guess, source.width);
    let found = source_truth(alloc, pool, d, t, source, address)?;
    Ok(taken(pool, found, test, miss, source.width))
}

/// An optional condition; it is true if omitted.
pub(crate) fn condition(pool: &mut Pool, when: Option<NodeId>) -> NodeId
    requires room { 1 ≤ pool.old.spare }
    requires wire { BitOk pool.old when }
    ensures wire { Wire pool.new result 1 }
    ensures value { (c : Cells) → on c pool.new.nodes result.0 ≡ enable_on c pool.old when }
    ensures grown { Grown pool.old pool.new 1 }
{
    match when {
        None => bit(pool, true),
        Some(node) => node,
    }
}
