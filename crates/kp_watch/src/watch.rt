// The comparison of a complete run.
ghost use Rattle.std.specs.Prelude.{◌≡◌, ◌≤◌, MatchOption, IfOk, vec_capacity};
ghost use Rattle.std.specs.Option.{ForNone};
ghost use Rattle.kp_bits.specs.Word.{word};
ghost use Rattle.kp_net.specs.Netlist.{run, last_of};
ghost use Rattle.kp_run.specs.Cycles.{HasRows, inputs_to};
ghost use Rattle.kp_machine.specs.Words.{target};
ghost use Rattle.kp_implements.specs.Shows.{HasOutputs, IsOfJob};
ghost use Rattle.kp_watch.specs.Watching.{own_due, Agrees, IsFirstDifference};
ghost use Rattle.kp_run.specs.Cycles.{own_trace};
ghost use Rattle.kp_watch.specs.inner.Beside.{AreTables, HaveCome, Answers};

use crate::changes::difference_after;
use crate::compare::{Tables, difference_in};
use crate::lockstep::{Beside, tables_of};
use kp_base::NoMemory;
use kp_frontend::Accepted;
use kp_machine::laws::a_design_is_accepted;
use kp_net::Netlist;
use kp_run::{Board, Cycles, Difference, board_of, board_with, columns_in};
use std::alloc::Global;

/// The run of a netlist over `count` cycles, under the stall words and the samples of a job, and the first difference between its values and those of
/// the sequential machine of the job. All registers and all words of files are compared in the state before the first cycle, and all registers and the
/// words that either side wrote in the state after each cycle. Where there is no difference, the values after the run are taken from the netlist. The
/// only error is out of memory.
pub fn watched<'a>(
    alloc: Global,
    job: &'a Accepted,
    net: &Netlist,
    count: u32,
) -> Result<(Board<'a>, Option<Difference>), NoMemory>
    requires of_job { IsOfJob net.now job.now.design.job }
    requires outputs { HasOutputs net.now }
    ensures job { IfOk result (λ w. w.0.design.now.job ≡ job.now.design.job) }
    ensures rows { IfOk result (λ w. HasRows job.now.design.job net.now count w.0.cycles.rows.items w.0.cycles.monitor) }
    ensures difference { IfOk result (λ w. MatchOption w.1 (Agrees job.now.design.job net.now count)
        (λ d. IsFirstDifference job.now.design.job net.now count d.cycle d.target d.address
        × (d.found ≡ word (target job.now.design.job d.target).width ((own_trace job.now.design.job net.now count).visible d.cycle d.target d.address))
        × (d.due ≡ word (target job.now.design.job d.target).width (own_due job.now.design.job net.now count d.cycle d.target d.address)))) }
{
    let columns = columns_in(alloc, job, net, count)?;
    let tables = tables_of(alloc, job, net, columns)?;
    let mut both = Beside::open(alloc, job, net, &tables, count)?;
    let found = compare(job, &tables, &mut both, count);
    drop(tables);
    match found {
        Some(difference) => {
            drop(both);
            Ok((board_of(alloc, job, net, count)?, Some(difference)))
        }
        None => Ok((board_after(alloc, job, both, count)?, None)),
    }
}

// The run of a netlist that agrees with the machines of its job in all states of `count` cycles.
fn board_after<'a>(
    alloc: Global,
    job: &'a Accepted,
    both: Beside<'_, '_>,
    count: u32,
) -> Result<Board<'a>, NoMemory>
    requires of_job { IsOfJob both.sim.net job.now.design.job }
    requires agrees { Agrees job.now.design.job both.sim.net count }
    requires state { both.sim.state ≡ last_of both.sim.net (inputs_to job.now.design.job count) }
    requires rows { HasRows job.now.design.job both.sim.net count both.rows.items both.monitor }
    ensures job { IfOk result (λ b. b.design.now.job ≡ job.now.design.job) }
    ensures rows { IfOk result (λ b. HasRows job.now.design.job both.entry.sim.net count b.cycles.rows.items b.cycles.monitor) }
{
    let cycles = Cycles {
        rows: both.rows,
        monitor: both.monitor,
    };
    board_with(alloc, job, cycles, &both.sim)
}

// Compares both in each state of `count` cycles: in the first one all words, and after each cycle those that were written, since all others are as
// they were.
fn compare(
    job: &Accepted,
    tables: &Tables,
    both: &mut Beside<'_, '_>,
    count: u32,
) -> Option<Difference>
    requires of_job { IsOfJob both.old.sim.net job.now.design.job }
    requires tables { AreTables job.now.design.job both.old.sim.net (run both.old.sim.net (inputs_to job.now.design.job count)).rows tables.now }
    requires come { HaveCome job.now.design.job both.old.sim.net tables.now 0 both.old }
    requires space { count ≤ vec_capacity both.old.rows }
    ensures difference { Answers job.now.design.job both.old.sim.net count result }
    ensures come { ForNone result (HaveCome job.now.design.job both.old.sim.net tables.now count both.new) }
{
    // The invariant of the type, for the proof only.
    let _kept = job.design.job();
    a_design_is_accepted(&job.design);
    let machines = both.machines.as_slice();
    if let Some(difference) = difference_in(job, tables, &both.sim, machines, 0) {
        return Some(difference);
    }
    for cycle in 0..count {
        both.step(job, tables, cycle);
        if let Some(difference) = difference_after(job, tables, both, cycle + 1) {
            return Some(difference);
        }
    }
    None
}
