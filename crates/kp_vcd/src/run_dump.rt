// The dump of a run.
ghost use Rattle.std.specs.Prelude.{◌≡◌, ℕ, ◌<◌, length, get_or, IfOk};
ghost use Rattle.kp_implements.specs.Shows.{Shows};
ghost use Rattle.kp_vcd.specs.{Recording.recorded, Dumps.values_at, Dumps.own_run, Dumps.vcd_dump, inner.Shown.ArePlaces};

use crate::run_places::places_of;
use crate::run_signals::{module_of, signals_of};
use crate::run_values::{registers_in, values_behind, values_in};
use crate::{Dump, Moment, Recorder};
use kp_base::{List, NoMemory};
use kp_cycle::Sim;
use kp_frontend::Accepted;
use kp_net::Netlist;
use kp_run::laws::a_job_gives_its_own_inputs;
use kp_run::next_cycle;
use std::alloc::Global;

/// The dump of the run of a job's pipelined machine over `count` cycles, under the stall words and the samples of the job. The netlist implements
/// this machine. All memory is allocated here, for the changes, for one list of values at a time, and for the simulator; the only error is out of
/// memory.
#[tactic(auto, unfolding(crate::specs::Dumps::vcd_dump))]
pub fn dump_of(alloc: Global, job: &Accepted, net: &Netlist, count: u32) -> Result<Dump, NoMemory>
    requires { Shows net.now job.now.design.job }
    ensures { IfOk result (λ d. d ≡ vcd_dump count job.now.design.job) }
{
    let module = module_of(alloc, &job.design)?;
    let signals = signals_of(alloc, &job.design)?;
    let decls = job.design.job().decls.as_slice();
    let places = places_of(alloc, decls, net.parts().regs.as_slice())?;
    let moments = moments_of(alloc, job, net, places.as_slice(), count)?;
    Ok(Dump {
        module,
        signals: List::new(signals),
        moments,
    })
}

// The changes of a run.
fn moments_of(
    alloc: Global,
    job: &Accepted,
    net: &Netlist,
    places: &[u32],
    count: u32,
) -> Result<List<Moment>, NoMemory>
    requires shows { Shows net.now job.now.design.job }
    requires places { ArePlaces job.now.design.job net.now places.now }
    ensures { IfOk result (λ ms. ms ≡ recorded (values_at job.now.design.job (own_run job.now.design.job count)) count) }
{
    let stages = job.design.job().stages.value as u8;
    a_job_gives_its_own_inputs(job);
    let mut sim = Sim::open(alloc, net)?;
    let mut samples = job.sections.inputs.row(alloc, 0)?;
    let room = samples.as_mut_slice();
    let last = u64::from(count);
    let mut recorder = Recorder::new(alloc, last);
    for cycle in 0..count {
        let registers = registers_in(alloc, &sim, places)?;
        let row = next_cycle(&mut sim, job, room, cycle);
        let now = values_in(alloc, stages, row, registers.as_slice())?;
        recorder.record(now)?;
    }
    let registers = registers_in(alloc, &sim, places)?;
    let now = values_behind(alloc, registers.as_slice())?;
    recorder.record(now)?;
    Ok(recorder.into_moments())
}
