//! The inputs of a stage: the values of its pipes, the hints, and its bit of the stall word.
ghost use Rattle.std.specs.Prelude.{◌≡◌, ℕ, ◌+◌, ◌<◌, ◌≤◌, length, IfOk};
ghost use Rattle.kp_pipeline.specs.Pipeline.{PipelineState, Inputs};
ghost use Rattle.kp_machine.specs.Slots.{targets_of, pipes_of, hints_of};
ghost use Rattle.kp_net.specs.Growth.{Held, Wire, Grown};
ghost use Rattle.kp_machine.specs.Machine.{registers_before, files_before};
ghost use Rattle.kp_design.specs.Numbers.{target_at};
ghost use Rattle.kp_synth_registers.specs.Meaning.{Ready, IsTest, Added};
ghost use Rattle.kp_synth_stage.specs.Rows.{OwnOk, SourcesOk};
ghost use Rattle.kp_synth_stage.specs.Work.{SlotsHave};
ghost use Rattle.kp_synth.specs.inner.Seeing.{SeesAbove, PipesIn, HintsIn};
ghost use Rattle.kp_synth.specs.inner.Whole.{Few, OwnMeans, Bare};

use kp_base::NoMemory;
use kp_design::Layout;
use kp_net::NodeId;
use kp_net_gates::part;
use kp_pool::Pool;
use kp_synth_registers::{Key, Reads, kept, pipe_in};
use kp_synth_stage::{Own, Slot, Source};
use std::alloc::Global;

// The values of the pipes in stage k.
pub(crate) fn pipes_in(
    alloc: Global,
    pool: &mut Pool,
    layout: &Layout<'_>,
    reads: &Reads,
    slots: &[Slot],
    k: u32,
) -> Result<Vec<NodeId>, NoMemory>
    requires room { length (pipes_of layout.now.decls) ≤ pool.old.spare }
    requires slots { slots.now ≡ pipes_of layout.now.decls }
    requires stage { k < layout.now.stages.value }
    requires ready { Ready layout.now pool.old reads.now }
    ensures nodes { IfOk result (λ ns. SlotsHave pool.new (pipes_of layout.now.decls) ns.items) }
    ensures values { IfOk result (λ ns. PipesIn layout.now pool.new ns.items k) }
    ensures grown { IfOk result (λ ns. Grown pool.old pool.new (length (pipes_of layout.now.decls))) }
{
    let _spare = pool.spare();
    let mut nodes = Vec::new(alloc);
    for x in 0..slots.len() {
        nodes.push(pipe_in(pool, layout, reads, x as u32, k))?;
    }
    Ok(nodes)
}

// The values of the hints.
pub(crate) fn hints_in(
    alloc: Global,
    pool: &Pool,
    layout: &Layout<'_>,
    reads: &Reads,
    slots: &[Slot],
) -> Result<Vec<NodeId>, NoMemory>
    requires few { length (hints_of layout.now.decls) ≤ pool.now.spare }
    requires slots { slots.now ≡ hints_of layout.now.decls }
    requires ready { Ready layout.now pool.now reads.now }
    ensures nodes { IfOk result (λ ns. SlotsHave pool.now (hints_of layout.now.decls) ns.items) }
    ensures values { IfOk result (λ ns. HintsIn layout.now pool.now ns.items) }
{
    let _spare = pool.spare();
    let mut nodes = Vec::new(alloc);
    for h in 0..slots.len() {
        nodes.push(kept(pool, layout, reads, Key::Hint(h as u32)))?;
    }
    Ok(nodes)
}

// The bit of stage k in the stall word.
pub(crate) fn ext_in(pool: &mut Pool, layout: &Layout<'_>, reads: &Reads, k: u32) -> NodeId
    requires room { 1 ≤ pool.old.spare }
    requires stage { k < layout.now.stages.value }
    requires ready { Ready layout.now pool.old reads.now }
    ensures wire { Wire pool.new result 1 }
    ensures is_test { IsTest layout.now pool.new result (λ st i. i.ext k) }
    ensures grown { Grown pool.old pool.new 1 }
{
    let n = layout.stages() as u8;
    let bit = k as u8;
    part(pool, reads.ext, bit, bit, n)
}

// A target with only its own value. `file` is its number among the files, if it is one.
fn source_of(
    alloc: Global,
    pool: &Pool,
    layout: &Layout<'_>,
    reads: &Reads,
    t: u32,
    file: u32,
) -> Source
    requires target { t < length (targets_of layout.now.decls) }
    requires file { file ≡ files_before (targets_of layout.now.decls) t }
    requires ready { Ready layout.now pool.now reads.now }
    ensures { Bare layout.now pool.now t result }
{
    let _n = layout.stages();
    let width = layout.width(t);
    let own = own_of(pool, layout, reads, t, file);
    Source {
        own,
        width,
        rows: Vec::new(alloc),
    }
}

// A target's own value.
fn own_of(pool: &Pool, layout: &Layout<'_>, reads: &Reads, t: u32, file: u32) -> Own
    requires target { t < length (targets_of layout.now.decls) }
    requires file { file ≡ files_before (targets_of layout.now.decls) t }
    requires ready { Ready layout.now pool.now reads.now }
    ensures own { OwnOk layout.now pool.now t result }
    ensures value { OwnMeans layout.now pool.now t (target_at layout.now t).width result }
{
    if layout.is_register(t) {
        Own::Register(kept(pool, layout, reads, Key::Visible(t)))
    } else {
        Own::File(file)
    }
}

// The number of registers among the targets up to and including this one.
fn registers_with(layout: &Layout<'_>, t: u32, registers: u32) -> u32
    requires target { t < length (targets_of layout.now.decls) }
    requires registers { registers ≡ registers_before (targets_of layout.now.decls) t }
    requires few { registers ≤ t }
    ensures registers { result ≡ registers_before (targets_of layout.now.decls) (t + 1) }
    ensures few { result ≤ t + 1 }
{
    let _count = layout.target_count();
    if layout.is_register(t) {
        registers + 1
    } else {
        registers
    }
}

/// What the last stage sees: the visible registers and files.
pub(crate) fn sources_in(
    alloc: Global,
    pool: &Pool,
    layout: &Layout<'_>,
    reads: &Reads,
) -> Result<Vec<Source>, NoMemory>
    requires ready { Ready layout.now pool.now reads.now }
    ensures sources { IfOk result (λ ss. SourcesOk layout.now pool.now ss.items) }
    ensures few { IfOk result (λ ss. (k : ℕ) → k + 1 ≤ layout.now.stages.value → Few layout.now k ss.items) }
    ensures sees { IfOk result (λ ss. (k : ℕ) → layout.now.stages.value ≡ k + 1 → SeesAbove layout.now pool.now ss.items k) }
{
    let mut sources = Vec::new(alloc);
    let mut registers = 0;
    for t in 0..layout.target_count() {
        sources.push(source_of(alloc, pool, layout, reads, t, t - registers))?;
        registers = registers_with(layout, t, registers);
    }
    Ok(sources)
}
