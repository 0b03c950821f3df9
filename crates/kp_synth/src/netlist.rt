//! The finished netlist.
ghost use Rattle.std.specs.Prelude.{◌≡◌, ℕ, ◌+◌, ◌*◌, ◌<◌, ◌≤◌, length, get_or, None, IfOk};
ghost use Rattle.kp_base.specs.First.{first};
ghost use Rattle.kp_width.specs.Widths.{widths_of};
ghost use Rattle.kp_stage.specs.Stages.{broken_of};
ghost use Rattle.kp_stage.specs.Start.{start_of, IsStartOf};
ghost use Rattle.kp_machine.specs.Slots.{targets_of};
ghost use Rattle.kp_net.specs.Growth.{Wire};
ghost use Rattle.kp_net.specs.Names.{IsNamed};
ghost use Rattle.kp_net.specs.Widths.{Distinct};
ghost use Rattle.kp_synth_registers.specs.Keys.{key_at, key_width, keys_of};
ghost use Rattle.kp_synth_registers.specs.Meaning.{CellsFit, Ready, node_at};
ghost use Rattle.kp_synth_next.specs.Control.{AllSay};
ghost use Rattle.kp_synth_next.specs.Shows.{Shows};
ghost use Rattle.kp_synth.specs.inner.{Built.net_parts, Built.Spelled, Descending.Contains};

use crate::files::{files, sample_ports};
use crate::labels::label;
use crate::registers::registers;
use kp_base::{List, NoMemory};
use kp_design::Layout;
use kp_net::{Netlist, Parts};
use kp_pool::Pool;
use kp_stage::Start;
use kp_synth_next::{Ends, close_nodes};
use kp_synth_registers::{Keys, Outcome, Reads};
use std::alloc::Global;

// The parts other than the nodes. The job violates no rule.
#[tactic(auto, using(crate::proofs::Spelled::module_spelled))]
fn assembled(
    alloc: Global,
    pool: &Pool,
    layout: &Layout<'_>,
    keys: &Keys,
    start: &Start,
    ends: &Ends,
) -> Result<Parts, NoMemory>
    requires keys { keys.now ≡ keys_of layout.now }
    requires start { IsStartOf layout.now start.now }
    requires nexts { length ends.now.nexts.items ≡ length (keys_of layout.now) }
    requires ports { length ends.now.ports.items ≡ length (targets_of layout.now.decls) }
    requires wires { (r : ℕ) → r < length (keys_of layout.now) → Wire pool.now (node_at ends.now.nexts.items r) (key_width layout.now (key_at layout.now r)) }
    ensures parts { IfOk result (λ parts. parts ≡ net_parts layout.now start.now ends.now.nexts.items ends.now.ports.items ends.now.row) }
    ensures spelled { IfOk result (λ parts. Spelled parts) }
    ensures names { first (widths_of layout.now).asked ≡ None }
    ensures stages { broken_of layout.now ≡ None }
{
    let job = layout.design().job();
    let name = label(alloc, b'm', &job.name.name)?;
    let samples = sample_ports(alloc, layout)?;
    let regs = registers(
        alloc,
        pool,
        layout,
        keys,
        start.regs.as_slice(),
        ends.nexts.as_slice(),
    )?;
    let files = files(alloc, layout, start.files.as_slice(), ends.ports.as_slice())?;
    Ok(Parts {
        name,
        ext: layout.stages() as u8,
        reset: true,
        samples: List::new(samples),
        regs: List::new(regs),
        files: List::new(files),
        full: ends.row.full,
        ue: ends.row.ue,
        back: ends.row.back,
    })
}

/// The netlist of the nodes of all stages: it shows the pipelined machine of the job, and its names are valid in a
/// Verilog text. `start` is the start state of the job, and the outcomes are those of its stages, the first stage
/// first.
///
/// Error: `NoMemory` if the other parts can't be allocated. Then the pool has been dropped.
pub(crate) fn close(
    alloc: Global,
    pool: Pool,
    layout: &Layout<'_>,
    reads: &Reads,
    outs: &[Outcome],
    start: &Start,
) -> Result<Netlist, NoMemory>
    requires room { 159 + 9 * length (keys_of layout.now) + 9 * length (targets_of layout.now.decls) ≤ pool.spare }
    requires begins { start.now ≡ start_of layout.now }
    requires suits { IsStartOf layout.now start.now }
    requires cells { CellsFit layout.now pool }
    requires ready { Ready layout.now pool reads.now }
    requires says { AllSay layout.now pool outs.now }
    ensures shows { IfOk result (λ net. Shows net layout.now) }
    ensures named { IfOk result (λ net. IsNamed net) }
    ensures distinct { IfOk result (λ net. Distinct net.nodes) }
    ensures few { IfOk result (λ net. length net.nodes ≤ length pool.nodes + (113 + 9 * length (keys_of layout.now) + 9 * length (targets_of layout.now.decls))) }
    ensures contains { IfOk result (λ net. Contains pool (113 + 9 * length (keys_of layout.now) + 9 * length (targets_of layout.now.decls)) net) }
{
    let mut pool = pool;
    let ends = close_nodes(alloc, &mut pool, layout, reads, outs)?;
    let parts = assembled(alloc, &pool, layout, &reads.keys, start, &ends)?;
    Ok(pool.close(parts))
}
