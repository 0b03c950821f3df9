// A netlist that runs, and the states of the sequential machine that it shows.
ghost use Rattle.std.specs.Prelude.{◌≡◌, ◌+◌, ◌-◌, ◌<◌, ◌≤◌, ℕ, [], ◌∷◌, length, get_or, All, IfOk, MatchOption, None};
ghost use Rattle.kp_cycle.specs.Steps.{written_in};
ghost use Rattle.kp_implements.specs.Shows.{Shows};
ghost use Rattle.kp_implements.specs.Naming.{sample_ports};
ghost use Rattle.kp_net.specs.Netlist.{Net, last_of, row_of};
ghost use Rattle.kp_run.specs.Cycles.{after_cycles, input_at, inputs_to};
ghost use Rattle.kp_watch.specs.inner.Changes.{AreNoted};
ghost use Rattle.kp_until.specs.Untils.{IsUntil};
ghost use Rattle.kp_until_run.specs.Ending.{retired_in, states_in};
ghost use Rattle.kp_until_run.specs.inner.Pasts.{AreNear, IsFoundAt, NoneAt, Shown};
ghost use Rattle.kp_until_run.specs.inner.Races.{AreReached, IsAt};

use crate::hunt::{Found, found_at};
use crate::past::{Past, note_all};
use kp_base::{NoMemory, Row};
use kp_bits::Bits;
use kp_cycle::Sim;
use kp_frontend::Accepted;
use kp_net::Netlist;
use kp_run::{fill, monitor_of};
use kp_sched::Monitor;
use kp_until::Until;
use std::alloc::Global;

/// A netlist with the monitor of its rows, the past of its targets, and the least numbers of cycles in which as many instructions retire as have retired, and one,
/// two, three and four fewer. `room` and `written` are buffers for the sample values of a cycle and for the addresses that it writes.
#[derive(Drop)]
pub(crate) struct Race<'n> {
    pub sim: Sim<'n>,
    pub monitor: Monitor,
    pub past: Past,
    pub reached: [u32; 5],
    pub room: Vec<Bits>,
    pub written: Vec<Option<u32>>,
}

impl<'n> Race<'n> {
    /// The start of a run of at most `_limit` cycles. All memory is allocated here; the only error is out of memory.
    pub fn open(
        alloc: Global,
        job: &Accepted,
        net: &'n Netlist,
        _limit: u32,
    ) -> Result<Race<'n>, NoMemory>
        requires shows { Shows net.now job.now.design.job }
        requires shown { Shown job.now.design.job net.now _limit }
        ensures { IfOk result (λ r. IsAt job.now.design.job net.now _limit 0 r) }
    {
        // The invariant of the type, for the proof only.
        let _kept = job.design.job();
        let sim = Sim::open(alloc, net)?;
        let past = Past::open(alloc, job, &sim, _limit)?;
        let room = job.sections.inputs.row(alloc, 0)?;
        let written = vec![in alloc; None; net.parts().files.as_slice().len()]?;
        Ok(Race {
            sim,
            monitor: monitor_of(&job.design),
            past,
            reached: [0; 5],
            room,
            written,
        })
    }

    /// How many instructions have retired.
    pub fn retired(&self, job: &Accepted, _net: &Netlist, _cycle: u32, _limit: u32) -> u64
        requires shows { Shows _net.now job.now.design.job }
        requires at { IsAt job.now.design.job _net.now _limit _cycle self.now }
        ensures { result ≡ retired_in job.now.design.job _cycle }
    {
        // The invariant of the type, for the proof only.
        let _kept = job.design.job();
        self.monitor.passed(self.monitor.stages() - 1)
    }

    /// The first condition that holds after these.
    pub fn found(
        &self,
        job: &Accepted,
        net: &Netlist,
        untils: &[Until],
        cycle: u32,
        limit: u32,
    ) -> Option<Found>
        requires shows { Shows net.now job.now.design.job }
        requires untils { All (IsUntil job.now.design.job) untils.now }
        requires at { IsAt job.now.design.job net.now limit cycle self.now }
        requires near { AreNear job.now.design.job limit cycle }
        ensures { MatchOption result (NoneAt job.now.design.job (states_in job.now.design.job limit) untils.now (retired_in job.now.design.job cycle))
            (IsFoundAt job.now.design.job (states_in job.now.design.job limit) untils.now (retired_in job.now.design.job cycle)) }
    {
        let retired = self.retired(job, net, cycle, limit);
        let histories = self.past.histories.as_slice();
        found_at(job, histories, untils, retired, cycle, limit)
    }

    /// Runs one cycle.
    pub fn step(&mut self, job: &Accepted, _net: &Netlist, cycle: u32, _limit: u32)
        requires shows { Shows _net.now job.now.design.job }
        requires shown { Shown job.now.design.job _net.now _limit }
        requires low { cycle < _limit }
        requires at { IsAt job.now.design.job _net.now _limit cycle self.old }
        ensures { IsAt job.now.design.job _net.now _limit (cycle + 1) self.new }
    {
        // The invariant of the type, for the proof only.
        let _kept = job.design.job();
        let last = self.monitor.stages() - 1;
        let before = self.monitor.passed(last);
        let room = self.room.as_mut_slice();
        let written = self.written.as_mut_slice();
        let row = run_cycle(&mut self.sim, job, room, written, cycle);
        self.monitor.cycle(row);
        let retired = self.monitor.passed(last);
        self.reached = reached_after(&self.reached, cycle + 1, before, retired);
        let histories = self.past.histories.as_mut_slice();
        let places = self.past.places.as_slice();
        let homes = self.past.homes.as_slice();
        let noted = self.written.as_slice();
        note_all(
            job, histories, places, homes, &self.sim, noted, row.ue, cycle, _limit,
        );
    }
}

// The least numbers of cycles after one more cycle, in which an instruction retires or none.
fn reached_after(reached: &[u32; 5], cycles: u32, before: u64, retired: u64) -> [u32; 5]
    ensures more { before < retired → result ≡ cycles ∷ get_or reached.now 0 0 ∷ get_or reached.now 1 0 ∷ get_or reached.now 2 0 ∷ get_or reached.now 3 0 ∷ [] }
    ensures still { retired ≤ before → result ≡ reached.now }
{
    if retired > before {
        [cycles, reached[0], reached[1], reached[2], reached[3]]
    } else {
        *reached
    }
}

// Runs one cycle of a netlist under the stall word and the samples of its job, and notes where it writes files.
fn run_cycle(
    sim: &mut Sim<'_>,
    job: &Accepted,
    room: &mut [Bits],
    written: &mut [Option<u32>],
    cycle: u32,
) -> Row
    requires samples { sim.old.net.parts.samples ≡ sample_ports job.now.design.job }
    requires room { length room.old ≡ length job.now.sections.inputs }
    requires written { length written.old ≡ length sim.old.net.parts.files }
    ensures row { (net : Net) → sim.old ≡ after_cycles job.now.design.job net cycle
        → result ≡ row_of net (input_at job.now.design.job cycle) (last_of net (inputs_to job.now.design.job cycle)) }
    ensures sim { (net : Net) → sim.old ≡ after_cycles job.now.design.job net cycle → sim.new ≡ after_cycles job.now.design.job net (cycle + 1) }
    ensures room { length room.new ≡ length room.old }
    ensures noted { (net : Net) → sim.old ≡ after_cycles job.now.design.job net cycle → AreNoted job.now.design.job net cycle written.new }
{
    // The invariant of the type, for the proof only.
    let _kept = job.design.job();
    let now = u64::from(cycle);
    fill(&job.sections.inputs, now, room);
    let stalls = job.sections.stalls.word(now);
    sim.step_noting(stalls, false, room, written)
}
