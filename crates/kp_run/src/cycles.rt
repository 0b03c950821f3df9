// A netlist that runs together with a monitor.
ghost use Rattle.std.specs.Prelude.{◌≡◌, ◌+◌, ◌<◌, ◌≤◌, ◌^◌, [], false, length, IfOk};
ghost use Rattle.kp_stage.specs.Start.{stall_word, input};
ghost use Rattle.kp_image.specs.{Spans.word_in, Feeds.row_in};
ghost use Rattle.kp_net.specs.Netlist.{Net, row_of, state_after, last_of};
ghost use Rattle.kp_cycle.specs.Steps.{SamplesFit, given};
ghost use Rattle.kp_sched.specs.Monitors.{HasSeen};
ghost use Rattle.kp_implements.specs.{Naming.sample_ports, Shows.HasOutputs};
ghost use Rattle.kp_run.specs.Cycles.{HasRows, after_cycles, input_at, inputs_to};

use kp_base::{NoMemory, Row};
use kp_bits::Bits;
use kp_cycle::Sim;
use kp_frontend::Accepted;
use kp_image::{InputPattern, Sections};
use kp_net::Netlist;
use kp_sched::Monitor;
use kp_stage::Design;
use std::alloc::Global;

/// The rows of a run, and their counts.
#[derive(Drop)]
pub struct Cycles {
    pub rows: Vec<Row>,
    pub monitor: Monitor,
}

/// A run of a netlist, and the simulator after its last cycle.
#[derive(Drop)]
pub(crate) struct Ran<'n> {
    pub cycles: Cycles,
    pub sim: Sim<'n>,
}

/// Runs `count` cycles of a netlist under the stall words and the samples of a job, from its start state and with the reset never raised. All memory,
/// with 6 bytes for each row, is allocated before the first cycle; the only error is out of memory.
pub fn cycles_of(
    alloc: Global,
    job: &Accepted,
    net: &Netlist,
    count: u32,
) -> Result<Cycles, NoMemory>
    requires outputs { HasOutputs net.now }
    requires samples { net.now.parts.samples ≡ sample_ports job.now.design.job }
    ensures { IfOk result (λ c. HasRows job.now.design.job net.now count c.rows.items c.monitor) }
{
    let ran = run_of(alloc, job, net, count)?;
    Ok(ran.cycles)
}

/// The same, with the simulator after these cycles.
pub(crate) fn run_of<'n>(
    alloc: Global,
    job: &Accepted,
    net: &'n Netlist,
    count: u32,
) -> Result<Ran<'n>, NoMemory>
    requires outputs { HasOutputs net.now }
    requires samples { net.now.parts.samples ≡ sample_ports job.now.design.job }
    ensures rows { IfOk result (λ r. HasRows job.now.design.job net.now count r.cycles.rows.items r.cycles.monitor) }
    ensures net { IfOk result (λ r. r.sim.net ≡ net.now) }
    ensures state { IfOk result (λ r. r.sim.state ≡ last_of net.now (inputs_to job.now.design.job count)) }
{
    let mut sim = Sim::open(alloc, net)?;
    let mut samples = job.sections.inputs.row(alloc, 0)?;
    let room = samples.as_mut_slice();
    let mut rows = Vec::with_capacity(alloc, count as usize)?;
    let mut monitor = monitor_of(&job.design);
    for cycle in 0..count {
        let row = next_cycle(&mut sim, job, room, cycle);
        rows.push(row).unwrap();
        monitor.cycle(row);
    }
    let cycles = Cycles { rows, monitor };
    Ok(Ran { cycles, sim })
}

/// A monitor of the runs of a job that has counted no cycle.
pub fn monitor_of(design: &Design) -> Monitor
    ensures stages { result.stages ≡ design.now.job.stages.value }
    ensures seen { HasSeen result [] }
{
    let stages = design.job().stages.value;
    Monitor::open(stages as u8)
}

/// Runs the next cycle of a netlist that has run under the stall words and the samples of its job for `cycle` cycles. `room` is as in `step`.
pub fn next_cycle(sim: &mut Sim<'_>, job: &Accepted, room: &mut [Bits], cycle: u32) -> Row
    requires samples { sim.old.net.parts.samples ≡ sample_ports job.now.design.job }
    requires room { length room.old ≡ length job.now.sections.inputs }
    ensures row { (net : Net) → sim.old ≡ after_cycles job.now.design.job net cycle
        → result ≡ row_of net (input_at job.now.design.job cycle) (last_of net (inputs_to job.now.design.job cycle)) }
    ensures sim { (net : Net) → sim.old ≡ after_cycles job.now.design.job net cycle → sim.new ≡ after_cycles job.now.design.job net (cycle + 1) }
    ensures room { length room.new ≡ length room.old }
{
    // The invariant of the type, for the proof only.
    let _kept = job.design.job();
    step(sim, &job.sections, room, u64::from(cycle))
}

/// Runs one cycle of a netlist under the stall word and the samples of a job, with the reset not raised. `room` is a buffer for the sample values,
/// with one entry for each sample. Allocates nothing.
pub fn step(sim: &mut Sim<'_>, sections: &Sections, room: &mut [Bits], cycle: u64) -> Row
    requires room { length room.old ≡ length sections.now.inputs }
    requires few { length room.old < 2 ^ 32 }
    requires fits { SamplesFit sim.old.net (row_in sections.now.inputs cycle) }
    ensures row { result ≡ row_of sim.old.net (given (word_in sections.now.stalls cycle) false (row_in sections.now.inputs cycle)) sim.old.state }
    ensures state { sim.new ≡ record sim.old {
      state = state_after sim.old.net (given (word_in sections.now.stalls cycle) false (row_in sections.now.inputs cycle)) sim.old.state;
    } }
    ensures room { length room.new ≡ length room.old }
{
    fill(&sections.inputs, cycle, room);
    sim.step_with(sections.stalls.word(cycle), false, room)
}

/// Writes the values of the samples in a cycle to a buffer with one entry for each sample.
pub fn fill(inputs: &InputPattern, cycle: u64, room: &mut [Bits])
    requires room { length room.old ≡ length inputs.now }
    requires few { length room.old < 2 ^ 32 }
    ensures { room.new ≡ row_in inputs.now cycle }
{
    for x in 0..room.len() {
        room[x] = inputs.value(x as u32, cycle);
    }
}
