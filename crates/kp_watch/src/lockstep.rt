// A netlist and the sequential machines of its job, in lockstep.
ghost use Rattle.std.specs.Prelude.{◌≡◌, ◌+◌, ◌<◌, ◌≤◌, ℕ, List, length, IfOk, vec_capacity};
ghost use Rattle.kp_base.specs.declared.row.Row as masks;
ghost use Rattle.kp_machine.specs.Slots.{sample_stages};
ghost use Rattle.kp_stage.specs.Start.{AreSamples};
ghost use Rattle.kp_implements.specs.{Naming.sample_ports, Shows.HasOutputs, Shows.IsOfJob};
ghost use Rattle.kp_run.specs.Columns.{AreColumns, row_taken};
ghost use Rattle.kp_watch.specs.inner.Beside.{AreTables, HaveCome};
ghost use Rattle.kp_watch.specs.inner.Changes.{AreNoted};
ghost use Rattle.kp_watch.specs.inner.Machines.{AreNeeded};

use crate::compare::Tables;
use crate::machines::{advance, machines_of, needed_of};
use crate::results::results_of;
use kp_base::{NoMemory, Row};
use kp_bits::Bits;
use kp_cycle::Sim;
use kp_frontend::Accepted;
use kp_net::Netlist;
use kp_run::{Column, fill, homes_of, monitor_of, places_of};
use kp_sched::Monitor;
use kp_seq::SeqMachine;
use std::alloc::Global;

/// A netlist and the sequential machines of its job, with the rows so far and their monitor, a buffer for the sample values of a cycle, and for each
/// file the address that the netlist wrote in the last cycle.
#[derive(Drop)]
pub(crate) struct Beside<'a, 'n> {
    pub sim: Sim<'n>,
    pub machines: Vec<SeqMachine<'a>>,
    pub rows: Vec<Row>,
    pub monitor: Monitor,
    pub room: Vec<Bits>,
    pub written: Vec<Option<u32>>,
}

/// The tables of a run in which instructions read these samples. The only error is out of memory.
pub(crate) fn tables_of(
    alloc: Global,
    job: &Accepted,
    net: &Netlist,
    columns: Vec<Column>,
) -> Result<Tables, NoMemory>
    requires { IsOfJob net.now job.now.design.job }
    ensures { IfOk result (λ tables. (rows : List masks.Row) → AreColumns job.now.design.job rows columns.items → AreTables job.now.design.job net.now rows tables) }
{
    let places = places_of(alloc, &job.design, net)?;
    let homes = homes_of(alloc, &job.design)?;
    let results = results_of(alloc, job, places.len())?;
    let machines = job.design.job().stages.value as usize + 1;
    let needed = needed_of(alloc, homes.as_slice(), machines)?;
    Ok(Tables {
        places,
        homes,
        columns,
        results,
        needed,
    })
}

impl<'a, 'n> Beside<'a, 'n> {
    /// The netlist and the machines in their start states, with space for `count` rows. The only error is out of memory.
    pub fn open(
        alloc: Global,
        job: &'a Accepted,
        net: &'n Netlist,
        tables: &Tables,
        count: u32,
    ) -> Result<Beside<'a, 'n>, NoMemory>
        requires outputs { HasOutputs net.now }
        requires samples { length tables.now.columns.items ≡ length (sample_stages job.now.design.job.decls) }
        ensures come { IfOk result (λ both. HaveCome job.now.design.job net.now tables.now 0 both) }
        ensures space { IfOk result (λ both. count ≤ vec_capacity both.rows) }
    {
        // The invariant of the type, for the proof only.
        let _kept = job.design.job();
        let sim = Sim::open(alloc, net)?;
        let machines = machines_of(alloc, job)?;
        let room = job.sections.inputs.row(alloc, 0)?;
        let written = vec![in alloc; None; net.parts().files.as_slice().len()]?;
        let rows = Vec::with_capacity(alloc, count as usize)?;
        let monitor = monitor_of(&job.design);
        Ok(Beside {
            sim,
            machines,
            rows,
            monitor,
            room,
            written,
        })
    }

    /// Runs one cycle more: the netlist under the job's own inputs, with its row stored and its writes noted, and the machines of the targets according
    /// to that row.
    pub fn step(&mut self, job: &Accepted, tables: &Tables, cycle: u32)
        requires samples { self.old.sim.net.parts.samples ≡ sample_ports job.now.design.job }
        requires many { length tables.now.columns.items ≡ length (sample_stages job.now.design.job.decls) }
        requires fit { (i : ℕ) → AreSamples job.now.design.job.decls (row_taken tables.now.columns.items i) }
        requires needed { AreNeeded job.now.design.job tables.now.needed.items }
        requires come { HaveCome job.now.design.job self.old.sim.net tables.now cycle self.old }
        requires space { cycle < vec_capacity self.old.rows }
        ensures come { HaveCome job.now.design.job self.old.sim.net tables.now (cycle + 1) self.new }
        ensures noted { AreNoted job.now.design.job self.old.sim.net cycle self.new.written.items }
        ensures space { vec_capacity self.old.rows ≤ vec_capacity self.new.rows }
    {
        // The invariant of the type, for the proof only.
        let _kept = job.design.job();
        let room = self.room.as_mut_slice();
        let now = u64::from(cycle);
        fill(&job.sections.inputs, now, room);
        let stalls = job.sections.stalls.word(now);
        let written = self.written.as_mut_slice();
        let row = self.sim.step_noting(stalls, false, room, written);
        self.rows.push(row).unwrap();
        let columns = tables.columns.as_slice();
        let needed = tables.needed.as_slice();
        let machines = self.machines.as_mut_slice();
        let rows = self.rows.as_slice();
        advance(
            job,
            columns,
            needed,
            machines,
            &self.monitor,
            room,
            rows,
            cycle,
        );
        self.monitor.cycle(row);
    }
}
