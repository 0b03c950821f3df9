//! The rows (bypass entries) that a stage adds to the targets, for the reads in the stages below it.
ghost use Rattle.std.specs.Prelude.{◌≡◌, ℕ, suc, ◌+◌, ◌*◌, ◌<◌, ◌≤◌, ◌∷◌, List, None, length, get_or, slice_get, true, IfOk};
ghost use Rattle.kp_pipeline.specs.Pipeline.{PipelineState, Inputs, stall, outcome};
ghost use Rattle.kp_machine.specs.Machine.{machine_of};
ghost use Rattle.kp_machine.specs.Slots.{targets_of};
ghost use Rattle.kp_net.specs.Nodes.{Cells};
ghost use Rattle.kp_net.specs.Growth.{Held, Wire, Grown};
ghost use Rattle.kp_fwd.specs.Forward.{BitOk, enable_on};
ghost use Rattle.kp_design.specs.Numbers.{target_at};
ghost use Rattle.kp_synth_registers.specs.Holding.{Holds};
ghost use Rattle.kp_design.specs.Fits.{EnableFits, AddressFits};
ghost use Rattle.kp_synth_registers.specs.Meaning.{Ready, IsTest, SetFits, set_value};
ghost use Rattle.kp_synth_stage.specs.Rows.{AddressOk, address_is, SourceOk, SourcesOk};
ghost use Rattle.kp_synth.specs.inner.Seeing.{Nearer};
ghost use Rattle.kp_synth.specs.inner.Whole.{enabled_by, addressed_by, SetMeans, SetsMean, Few, AllNearer};

use crate::forwarded_result::row_of;
use kp_base::NoMemory;
use kp_design::Layout;
use kp_net::NodeId;
use kp_pool::Pool;
use kp_synth_registers::{Reads, Set, pipe_in, result_in};
use kp_synth_stage::{Row, Source};

// Whether a result is enabled, by its enable pipe, if it has one.
fn enable_in(
    pool: &mut Pool,
    layout: &Layout<'_>,
    reads: &Reads,
    pipe: Option<u32>,
    stage: u32,
) -> Option<NodeId>
    requires room { 1 ≤ pool.old.spare }
    requires fits { EnableFits layout.now pipe }
    requires stage { stage < layout.now.stages.value }
    requires ready { Ready layout.now pool.old reads.now }
    ensures bit { BitOk pool.new result }
    ensures value { (c : Cells) (st : PipelineState) (i : Inputs) → Holds layout.now c st i → enable_on c pool.new result ≡ enabled_by (st.stage stage).instruction.pipes pipe }
    ensures grown { Grown pool.old pool.new 1 }
{
    match pipe {
        None => None,
        Some(x) => Some(pipe_in(pool, layout, reads, x, stage)),
    }
}

// The address that a result is written at, by its address pipe, if it has one.
fn address_in(
    pool: &mut Pool,
    layout: &Layout<'_>,
    reads: &Reads,
    target: u32,
    pipe: Option<u32>,
    stage: u32,
) -> Option<NodeId>
    requires room { 1 ≤ pool.old.spare }
    requires fits { AddressFits layout.now target pipe }
    requires stage { stage < layout.now.stages.value }
    requires ready { Ready layout.now pool.old reads.now }
    ensures address { AddressOk pool.new (target_at layout.now target).address result }
    ensures value { (c : Cells) (st : PipelineState) (i : Inputs) → Holds layout.now c st i → (a : ℕ) → address_is c pool.new result a ≡ addressed_by (st.stage stage).instruction.pipes pipe a }
    ensures grown { Grown pool.old pool.new 1 }
{
    match pipe {
        None => None,
        Some(x) => Some(pipe_in(pool, layout, reads, x, stage)),
    }
}

// Adds a row at the front.
fn put_first(source: &mut Source, row: Row) -> Result<(), NoMemory>
    ensures rows { IfOk result (λ u. source.new.rows.items ≡ row ∷ source.old.rows.items) }
    ensures own { source.new.own ≡ source.old.own }
    ensures width { source.new.width ≡ source.old.width }
{
    source.rows.insert(0, row)?;
    Ok(())
}

// The row that stage k adds to a target. `set` is what the stage sets in this cycle, and `halt` says whether it stalls.
#[tactic(auto, using(kp_net::proofs::Growing::growing))]
pub(crate) fn add_row(
    pool: &mut Pool,
    layout: &Layout<'_>,
    reads: &Reads,
    k: u32,
    t: u32,
    set: Option<Set>,
    source: &mut Source,
    full: NodeId,
    halt: NodeId,
) -> Result<(), NoMemory>
    requires room { 20 ≤ pool.old.spare }
    requires stage { k < layout.now.stages.value }
    requires target { t < length (targets_of layout.now.decls) }
    requires ready { Ready layout.now pool.old reads.now }
    requires source { SourceOk layout.now pool.old t source.old }
    requires few { length source.old.rows.items + 2 ≤ layout.now.stages.value }
    requires set { SetFits pool.old (target_at layout.now t).width set }
    requires set_means { SetMeans layout.now pool.old k t set }
    requires full { Wire pool.old full 1 }
    requires full_is_test { IsTest layout.now pool.old full (λ st i. (st.stage k).full) }
    requires halt { Wire pool.old halt 1 }
    requires halt_is_test { IsTest layout.now pool.old halt (λ st i. stall (machine_of layout.now) st i k) }
    ensures source { IfOk result (λ u. SourceOk layout.now pool.new t source.new) }
    ensures few { IfOk result (λ u. length source.new.rows.items ≤ length source.old.rows.items + 1) }
    ensures nearer { IfOk result (λ u. Nearer layout.now k t pool.old source.old pool.new source.new) }
    ensures grown { IfOk result (λ u. Grown pool.old pool.new 20) }
{
    match layout.port(t) {
        None => Ok(()),
        Some(port) => {
            if k <= port.write {
                let stored = result_in(pool, layout, reads, t, k);
                let enable = enable_in(pool, layout, reads, port.enable, k);
                let address = address_in(pool, layout, reads, t, port.address, k);
                let row = row_of(
                    pool,
                    full,
                    port.known <= k,
                    enable,
                    address,
                    stored,
                    set,
                    k == port.write,
                    halt,
                );
                put_first(source, row)?;
            }
            Ok(())
        }
    }
}

/// The rows that stage k adds to all targets.
pub(crate) fn add_rows(
    pool: &mut Pool,
    layout: &Layout<'_>,
    reads: &Reads,
    k: u32,
    sets: &[Option<Set>],
    sources: &mut [Source],
    full: NodeId,
    halt: NodeId,
) -> Result<(), NoMemory>
    requires room { 20 * length (targets_of layout.now.decls) ≤ pool.old.spare }
    requires later { 1 ≤ k }
    requires stage { k < layout.now.stages.value }
    requires ready { Ready layout.now pool.old reads.now }
    requires sources { SourcesOk layout.now pool.old sources.old }
    requires few { Few layout.now k sources.old }
    requires sets { SetsMean layout.now pool.old k sets.now }
    requires full { Wire pool.old full 1 }
    requires full_is_test { IsTest layout.now pool.old full (λ st i. (st.stage k).full) }
    requires halt { Wire pool.old halt 1 }
    requires halt_is_test { IsTest layout.now pool.old halt (λ st i. stall (machine_of layout.now) st i k) }
    ensures sources { IfOk result (λ u. SourcesOk layout.now pool.new sources.new) }
    ensures few { IfOk result (λ u. (j : ℕ) → k ≡ suc j → Few layout.now j sources.new) }
    ensures nearer { IfOk result (λ u. AllNearer layout.now k (length (targets_of layout.now.decls)) pool.old sources.old pool.new sources.new) }
    ensures grown { IfOk result (λ u. Grown pool.old pool.new (20 * length (targets_of layout.now.decls))) }
{
    for t in 0..layout.target_count() {
        add_row(
            pool,
            layout,
            reads,
            k,
            t,
            sets[t as usize],
            &mut sources[t as usize],
            full,
            halt,
        )?;
    }
    Ok(())
}
