// A finished run, with all that is printed of it.
ghost use Rattle.std.specs.Prelude.{◌≡◌, ℕ, ◌+◌, ◌<◌, ◌≤◌, ◌^◌, length, get_or, IfOk};
ghost use Rattle.std.specs.Option.{ForNone, ForSome};
ghost use Rattle.std.specs.List.{All};
ghost use Rattle.kp_bits.specs.Word.{word};
ghost use Rattle.kp_machine.specs.Slots.{targets_of};
ghost use Rattle.kp_sched.specs.{Monitors.HasSeen, Rows.rows_seen};
ghost use Rattle.kp_implements.specs.{Naming.sample_ports, Naming.value_shown, Shows.HasOutputs, Shows.IsOfJob, Shows.Shows};
ghost use Rattle.kp_machine.specs.Words.{HasWord, target};
ghost use Rattle.kp_run.specs.Boards.{due_behind, passes_behind};
ghost use Rattle.kp_run.specs.Cycles.{HasRows};
ghost use Rattle.kp_run.specs.inner.Boards.{IsBoard, HasCounts};
ghost use Rattle.kp_run.specs.inner.Finals.{AreFinals};

use crate::columns::columns_of;
use crate::cycles::{Cycles, cycles_of, run_of};
use crate::finals::{Words, finals_of};
use crate::homes::homes_of;
use crate::lanes::machines_after;
use crate::laws::a_run_shows_the_pipeline;
use kp_base::NoMemory;
use kp_bits::Bits;
use kp_cycle::Sim;
use kp_frontend::Accepted;
use kp_machine::laws::a_design_is_accepted;
use kp_net::Netlist;
use kp_seq::SeqMachine;
use kp_stage::Design;
use std::alloc::Global;

/// A run of a job that has ended: its rows with their counts, and the values of the sequential machine after them.
pub struct Board<'a> {
    pub design: &'a Design,
    pub cycles: Cycles,
    lanes: Lanes<'a>,
    finals: Option<Vec<Words>>,
    pub ghost few: { length design.now.job.decls < 2 ^ 32 },
    pub ghost seen: { HasSeen cycles.monitor cycles.rows.items },
    pub ghost stages: { cycles.monitor.stages ≡ design.now.job.stages.value },
    ghost counts: { HasCounts design.now.job cycles.rows.items lanes.homes.items },
    ghost is: { ForNone finals (IsBoard design.now.job cycles.rows.items lanes.machines.items lanes.homes.items) },
    ghost are: { ForSome finals (λ fs. AreFinals design.now.job (due_behind design.now.job cycles.rows.items) fs.items) },
}

impl Drop for Board<'_> {
    fn drop(self) {
        let Board {
            design: _,
            cycles,
            lanes,
            finals,
        } = self;
        drop(cycles);
        drop(lanes);
        drop(finals);
    }
}

// The machines after a run, and for each target the number of the machine that has its value.
struct Lanes<'a> {
    machines: Vec<SeqMachine<'a>>,
    homes: Vec<u8>,
}

impl Drop for Lanes<'_> {
    fn drop(self) {
        let Lanes { machines, homes } = self;
        drop(machines);
        drop(homes);
    }
}

impl<'a> Board<'a> {
    /// The specified value of a target at an address: that of the sequential machine after as many instructions as the target reflects. The targets
    /// are the registers and files in the order of declaration, and a register has address 0.
    pub fn value(&self, t: u32, address: u32) -> Bits
        requires { HasWord self.now.design.now.job t address }
        ensures { result ≡ word (target self.now.design.now.job t).width (due_behind self.now.design.now.job self.now.cycles.rows.items t address) }
    {
        match &self.finals {
            Some(finals) => finals[t as usize].at(address),
            None => {
                let home = self.lanes.homes[t as usize];
                self.lanes.machines[usize::from(home)].value(t, address)
            }
        }
    }

    /// The number of instructions that a target reflects: those that its write stage has completed, and 0 if it has no result.
    pub fn behind(&self, t: u32) -> u64
        requires { t < length (targets_of self.now.design.now.job.decls) }
        ensures { result ≡ passes_behind self.now.design.now.job self.now.cycles.rows.items t }
    {
        let home = self.lanes.homes[t as usize];
        if home < self.cycles.monitor.stages() {
            self.cycles.monitor.passed(home)
        } else {
            0
        }
    }
}

/// The run of a netlist over `count` cycles under the stall words and the samples of a job, with the values of the sequential machine after it. The
/// only error is out of memory.
pub fn board_of<'a>(
    alloc: Global,
    job: &'a Accepted,
    net: &Netlist,
    count: u32,
) -> Result<Board<'a>, NoMemory>
    requires outputs { HasOutputs net.now }
    requires samples { net.now.parts.samples ≡ sample_ports job.now.design.job }
    ensures job { IfOk result (λ b. b.design.now.job ≡ job.now.design.job) }
    ensures rows { IfOk result (λ b. HasRows job.now.design.job net.now count b.cycles.rows.items b.cycles.monitor) }
{
    let cycles = cycles_of(alloc, job, net, count)?;
    let lanes = lanes_of(alloc, job, &cycles)?;
    Ok(Board {
        design: &job.design,
        cycles,
        lanes,
        finals: None,
    })
}

/// The same for a netlist that implements the machine of the job: then its state after the last cycle has the specified values, and no instruction is
/// executed.
pub fn board_shown<'a>(
    alloc: Global,
    job: &'a Accepted,
    net: &Netlist,
    count: u32,
) -> Result<Board<'a>, NoMemory>
    requires { Shows net.now job.now.design.job }
    ensures job { IfOk result (λ b. b.design.now.job ≡ job.now.design.job) }
    ensures rows { IfOk result (λ b. HasRows job.now.design.job net.now count b.cycles.rows.items b.cycles.monitor) }
{
    // The invariant of the type, for the proof only.
    let _kept = job.design.job();
    a_run_shows_the_pipeline(job);
    let run = run_of(alloc, job, net, count)?;
    board_with(alloc, job, run.cycles, &run.sim)
}

/// A run that has ended, where a netlist has the specified values in its state after it. The only error is out of memory.
pub fn board_with<'a>(
    alloc: Global,
    job: &'a Accepted,
    cycles: Cycles,
    sim: &Sim<'_>,
) -> Result<Board<'a>, NoMemory>
    requires of_job { IsOfJob sim.now.net job.now.design.job }
    requires seen { HasSeen cycles.monitor cycles.rows.items }
    requires stages { cycles.monitor.stages ≡ job.now.design.job.stages.value }
    requires values { (t a : ℕ) → HasWord job.now.design.job t a
        → value_shown job.now.design.job sim.now.net sim.now.state t a ≡ due_behind job.now.design.job cycles.rows.items t a }
    ensures job { IfOk result (λ b. b.design.now.job ≡ job.now.design.job) }
    ensures cycles { IfOk result (λ b. b.cycles ≡ cycles) }
{
    // The invariant of the type, for the proof only.
    let _kept = job.design.job();
    a_design_is_accepted(&job.design);
    let finals = finals_of(alloc, &job.design, sim)?;
    let homes = homes_of(alloc, &job.design)?;
    let machines = Vec::new(alloc);
    Ok(Board {
        design: &job.design,
        cycles,
        lanes: Lanes { machines, homes },
        finals: Some(finals),
    })
}

fn lanes_of<'a>(alloc: Global, job: &'a Accepted, cycles: &Cycles) -> Result<Lanes<'a>, NoMemory>
    requires seen { HasSeen cycles.now.monitor cycles.now.rows.items }
    requires stages { cycles.now.monitor.stages ≡ job.now.design.job.stages.value }
    ensures { IfOk result (λ l. IsBoard job.now.design.job cycles.now.rows.items l.machines.items l.homes.items) }
{
    // The invariant of the type, for the proof only.
    let _kept = job.design.job();
    a_design_is_accepted(&job.design);
    let columns = columns_of(alloc, job, cycles.rows.as_slice())?;
    let machines = machines_after(alloc, job, &cycles.monitor, columns.as_slice())?;
    let homes = homes_of(alloc, &job.design)?;
    Ok(Lanes { machines, homes })
}
