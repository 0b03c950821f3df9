//! The steps of synthesis, in order.
ghost use Rattle.std.specs.Prelude.{◌≡◌, ◌+◌, ◌<◌, ◌≤◌, ℕ, [], length, get_or, IfOk, OnOk};
ghost use Rattle.kp_stage.specs.Counts.{summary_of};
ghost use Rattle.kp_stage.specs.Start.{start_of, IsStartOf};
ghost use Rattle.kp_net.specs.Growth.{Held};
ghost use Rattle.kp_net.specs.Names.{IsNamed};
ghost use Rattle.kp_net.specs.Widths.{Distinct};
ghost use Rattle.kp_synth_registers.specs.Meaning.{Added, CellsFit, Ready};
ghost use Rattle.kp_synth_next.specs.Bound as bounds;
ghost use Rattle.kp_synth_next.specs.Control.{AllSay};
ghost use Rattle.kp_synth_next.specs.Shows as place;
ghost use Rattle.kp_synth.specs.Known.{HasStages, Named, no_names};
ghost use Rattle.kp_synth.specs.inner.Rooms.{reading_room, inside_room, closing_room};

use crate::bound::enough_nodes;
use crate::netlist::close;
use crate::stages::{Stages, run_stages};
use kp_base::NoMemory;
use kp_build::Env;
use kp_design::Layout;
use kp_net::Netlist;
use kp_pool::Pool;
use kp_stage::{Design, Start};
use kp_synth_registers::{Outcome, Reads, read_cells};
use kp_synth_stage::Slots;
use std::alloc::Global;

/// The netlist of a design, and the nodes of its stages.
#[derive(Drop)]
pub struct Synthesis<'a> {
    /// The netlist.
    pub net: Netlist,
    /// For each stage the nodes of what it does.
    pub outcomes: Vec<Outcome>,
    /// For each stage the nodes of its names: pipes, samples and hints, and its lets and reads.
    pub names: Vec<Env<'a>>,
}

/// The netlist of a design, with the nodes of its stages; its registers and files are identified by their indices.
pub(crate) fn make<'a>(
    alloc: Global,
    design: &'a Design,
    start: &Start,
) -> Result<Synthesis<'a>, NoMemory>
    requires begins { start.now ≡ start_of design.now.job }
    requires suits { IsStartOf design.now.job start.now }
    ensures shows { IfOk result (λ s. place.Shows s.net design.now.job) }
    ensures named { IfOk result (λ s. IsNamed s.net) }
    ensures distinct { IfOk result (λ s. Distinct s.net.nodes) }
    ensures few { IfOk result (λ s. length s.net.nodes ≤ bounds.node_bound (summary_of design.now.job)) }
    ensures stages { IfOk result (λ s. HasStages s.net design.now.job s.outcomes.items s.names.items) }
{
    let layout = Layout::of(alloc, design)?;
    let pool = Pool::reserve(alloc, enough_nodes(design))?;
    fill(alloc, pool, &layout, start)
}

// The nodes and parts of a layout, in an empty pool.
fn fill<'a>(
    alloc: Global,
    pool: Pool,
    layout: &Layout<'a>,
    start: &Start,
) -> Result<Synthesis<'a>, NoMemory>
    requires empty { pool.nodes ≡ [] }
    requires room { reading_room layout.now + inside_room layout.now + closing_room layout.now ≤ pool.spare }
    requires begins { start.now ≡ start_of layout.now }
    requires suits { IsStartOf layout.now start.now }
    ensures shows { IfOk result (λ s. place.Shows s.net layout.now) }
    ensures named { IfOk result (λ s. IsNamed s.net) }
    ensures distinct { IfOk result (λ s. Distinct s.net.nodes) }
    ensures few { IfOk result (λ s. length s.net.nodes ≤ pool.spare) }
    ensures stages { IfOk result (λ s. HasStages s.net layout.now s.outcomes.items s.names.items) }
{
    let mut pool = pool;
    let reads = read_cells(alloc, &mut pool, layout)?;
    let staged = stages(alloc, &mut pool, layout, &reads)?;
    let net = close(
        alloc,
        pool,
        layout,
        &reads,
        staged.outcomes.as_slice(),
        start,
    )?;
    let Stages { outcomes, names } = staged;
    Ok(Synthesis {
        net,
        outcomes,
        names,
    })
}

// The nodes of the stages.
#[tactic(auto, unfolding(crate::specs::inner::Rooms::inside_room))]
fn stages<'a>(
    alloc: Global,
    pool: &mut Pool,
    layout: &Layout<'a>,
    reads: &Reads,
) -> Result<Stages<'a>, NoMemory>
    requires room { inside_room layout.now ≤ pool.old.spare }
    requires ready { Ready layout.now pool.old reads.now }
    ensures says { IfOk result (λ s. AllSay layout.now pool.new s.outcomes.items) }
    ensures name_count { IfOk result (λ s. length s.names.items ≡ layout.now.stages.value) }
    ensures names { IfOk result (λ s. (k : ℕ) → k < layout.now.stages.value → Named layout.now pool.new k (get_or s.names.items k no_names)) }
    ensures added { OnOk result (Added layout.now pool.old pool.new (inside_room layout.now)) }
{
    let slots = Slots::of(alloc, layout.design())?;
    let stages = run_stages(alloc, pool, layout, reads, &slots)?;
    Ok(stages)
}
