//! The netlist of the pipelined machine of a design.
//!
//! `synth` combines the results of the lower crates: the design by numbers (kp_design), the nodes that read
//! the registers (kp_synth_registers), the nodes of a stage (kp_synth_stage), and the next
//! values of registers and files (kp_synth_next). The other parts of the netlist, its registers, files and ports with
//! their names and start values, are built here (`netlist`). What it means that a netlist shows (implements) the
//! pipelined machine is defined in kp_implements.
//!
//! `run_stages` makes the nodes of all stages, from the last to the first. The nodes of a stage mean what the pipelined machine does in it (`Says` of
//! kp_synth_registers). A read in a stage sees the stages above it by rows (bypass entries), one for each of them that may write its target: so the
//! stages are built from the last one down, and each of them adds its rows for those below. `specs/Stages` bounds the number of nodes.
#![tactic(auto)]

mod bound;
mod bypass_entries;
mod files;
mod flow;
mod forwarded_result;
mod labels;
mod misprediction;
mod netlist;
mod pipeline_stage;
mod registers;
mod stage;
mod stage_inputs;
mod stages;

ghost use Rattle.std.specs.Prelude.{◌≡◌, ◌≤◌, length, IfOk};
ghost use Rattle.kp_stage.specs.Counts.{summary_of};
ghost use Rattle.kp_stage.specs.Start.{start_of, IsStartOf};
ghost use Rattle.kp_net.specs.Names.{IsNamed};
ghost use Rattle.kp_net.specs.Widths.{Distinct};
ghost use Rattle.kp_synth_next.specs.Bound as bounds;
ghost use Rattle.kp_implements.specs.{Shows.Shows, Shows.IsInOrder, Anew.BeginsAnew};
ghost use Rattle.kp_synth.specs.{Carrying.Carries, Known.HasStages};

use crate::bound::enough_nodes;
use crate::flow::make;
pub use flow::Synthesis;
use kp_base::NoMemory;
use kp_net::Netlist;
use kp_stage::{Design, Start};
use std::alloc::Global;

/// A netlist that shows the pipelined machine of the design from its start state on, and restarts after each reset
/// with the present contents of its files. The only error is out of memory.
///
/// Its registers hold the state of the pipeline, each as the key of its number says (`carries`).
///
/// It has a reset, a stall bit for each stage and a port for each sample. No two of its nodes are equal, and there
/// are at most `node_bound` of them, so its size grows with that of the expressions, and with the entries of the
/// tables times the stages.
pub fn synth(alloc: Global, design: &Design, start: &Start) -> Result<Netlist, NoMemory>
    requires begins { start.now ≡ start_of design.now.job }
    requires suits { IsStartOf design.now.job start.now }
    ensures shows { IfOk result (λ net. Shows net design.now.job) }
    ensures anew { IfOk result (λ net. BeginsAnew net design.now.job) }
    ensures carries { IfOk result (λ net. Carries net design.now.job) }
    ensures named { IfOk result (λ net. IsNamed net) }
    ensures order { IfOk result (λ net. IsInOrder net design.now.job) }
    ensures distinct { IfOk result (λ net. Distinct net.nodes) }
    ensures few { IfOk result (λ net. length net.nodes ≤ bounds.node_bound (summary_of design.now.job)) }
{
    let Synthesis {
        net,
        outcomes,
        names,
    } = synth_stages(alloc, design, start)?;
    drop(outcomes);
    drop(names);
    Ok(net)
}

/// The same netlist, with the nodes of its stages: what each does, and what its names are (`stages`). The only error is out of memory.
#[tactic(auto, using(crate::proofs::Showing::shows, crate::proofs::Showing::begins_anew, crate::proofs::Showing::carries, crate::proofs::Showing::in_order))]
pub fn synth_stages<'a>(
    alloc: Global,
    design: &'a Design,
    start: &Start,
) -> Result<Synthesis<'a>, NoMemory>
    requires begins { start.now ≡ start_of design.now.job }
    requires suits { IsStartOf design.now.job start.now }
    ensures shows { IfOk result (λ s. Shows s.net design.now.job) }
    ensures anew { IfOk result (λ s. BeginsAnew s.net design.now.job) }
    ensures carries { IfOk result (λ s. Carries s.net design.now.job) }
    ensures named { IfOk result (λ s. IsNamed s.net) }
    ensures order { IfOk result (λ s. IsInOrder s.net design.now.job) }
    ensures distinct { IfOk result (λ s. Distinct s.net.nodes) }
    ensures few { IfOk result (λ s. length s.net.nodes ≤ bounds.node_bound (summary_of design.now.job)) }
    ensures stages { IfOk result (λ s. HasStages s.net design.now.job s.outcomes.items s.names.items) }
{
    make(alloc, design, start)
}

/// The most nodes that the netlist of a design has, by the numbers of its machine. Takes no memory.
pub fn node_bound(design: &Design) -> u32
    ensures { result ≡ bounds.node_bound (summary_of design.now.job) }
{
    enough_nodes(design)
}
