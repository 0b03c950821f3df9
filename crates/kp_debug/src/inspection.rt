// A run of a job with a current cycle.
ghost use Rattle.std.specs.Prelude.{◌≡◌, IfOk, OnOk};
ghost use Rattle.kp_base.specs.Bytes.{Writes};
ghost use Rattle.kp_base.specs.Causes.{HasCause};
ghost use Rattle.kp_run.specs.Cycles.{inputs_to};
ghost use Rattle.kp_implements.specs.Shows.{Shows};
ghost use Rattle.kp_debug.specs.Inspecting.{all_cycles, whole_run, printed, ends_in, AreOfJob};

use crate::commands::run_commands;
use crate::inputs::{all_cycles, rows_to, words_to};
use crate::session::Session;
use kp_base::{NoMemory, Sink, SinkFault};
use kp_debug_script::Command;
use kp_frontend::Accepted;
use kp_net::Netlist;
use kp_run::laws::a_job_gives_its_own_inputs;
use std::alloc::Global;
use std::marker::Model;

/// A job and its run over 100,000 cycles, under its own stall words and samples, specified by the job and the current cycle.
pub struct Inspection<'a> {
    session: Session<'a>,
    net: &'a Netlist,
    job: &'a Accepted,
}

impl Drop for Inspection<'_> {
    fn drop(self) {
        let Inspection {
            session,
            net: _,
            job: _,
        } = self;
        drop(session);
    }
}

impl<'a> Model for Inspection<'a> {
    ghost use Rattle.std.specs.Coded.{codes};
    ghost use Rattle.kp_ast.specs.contracts.tree.ExprKind as e;
    ghost use Rattle.kp_debug.specs.Inspecting.{Inspected};
    ghost use Rattle.kp_debug.specs.inner.Standing.{IsInspection};

    ghost Value = { Inspected };

    ghost coded = { Prim.hlevel (codes, e.the_row.coded) };

    ghost view = { λ i. record { job = i.job.now.design.job; cycle = i.session.cycle } };

    ghost invariant = { λ i. IsInspection i.job.now.design.job i.net.now i.session };
}

impl<'a> Inspection<'a> {
    /// The run of a netlist that implements the machine of a job, in cycle 0. All memory is allocated here; the only error is out of memory.
    pub fn open(
        alloc: Global,
        net: &'a Netlist,
        job: &'a Accepted,
    ) -> Result<Inspection<'a>, NoMemory>
        requires { Shows net.now job.now.design.job }
        ensures { IfOk result (λ i. i ≡ record { job = job.now.design.job; cycle = 0 }) }
    {
        let session = session_of(alloc, net, job)?;
        Ok(Inspection { session, net, job })
    }

    /// Executes the commands of a script, writes what each of them prints, and stays in the cycle where they end. A fault comes only from the sink,
    /// which then has a prefix of the text. Allocates nothing.
    pub fn write<K: Sink>(&mut self, commands: &[Command], sink: &mut K) -> Result<(), SinkFault>
        requires { AreOfJob self.old.job commands.now }
        ensures job { self.new.job ≡ self.old.job }
        ensures text { Writes (K.held sink.old) (K.held sink.new) (printed self.old.job (whole_run self.old.job) self.old.cycle commands.now) result }
        ensures cycle { OnOk result (self.new.cycle ≡ ends_in (whole_run self.old.job) self.old.cycle commands.now) }
        ensures cause { HasCause (K.faults sink.old) (K.faults sink.new) result }
    {
        a_job_gives_its_own_inputs(self.job);
        run_commands(&mut self.session, self.net, self.job, commands, sink)
    }
}

// The session of a netlist under the stall words and samples of a job.
fn session_of<'a>(alloc: Global, net: &'a Netlist, job: &Accepted) -> Result<Session<'a>, NoMemory>
    requires { Shows net.now job.now.design.job }
    ensures { IfOk result (λ s. s ≡ record { net = net.now; inputs = inputs_to job.now.design.job all_cycles; cycle = 0 }) }
{
    // The invariant of the type, for the proof only.
    let _kept = job.design.job();
    let count = all_cycles();
    let exts = words_to(alloc, &job.sections.stalls, count)?;
    let samples = rows_to(alloc, &job.sections.inputs, count)?;
    Session::open(alloc, net, exts, samples)
}
