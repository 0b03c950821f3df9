// `debug`: the pipelined machine of a job, stepped through by the commands of a script.
ghost use Rattle.std.specs.Prelude.{◌≤◌, length, IfOk, Ok, Some};
ghost use Rattle.kp_base.specs.Check.{Gives};
ghost use Rattle.kp_implements.specs.Shows.{Shows};
ghost use Rattle.kp_debug_script.specs.Scripts.{script_of};
ghost use Rattle.kp_words.specs.declared.commands.Command.TheVariants.{Debug};
ghost use Rattle.kp_debug.specs.Inspecting.{printed, whole_run, AreOfJob};
ghost use Rattle.kp_tool.specs.{Due.DueFor, Scripted.DueOfScriptHead, Ends.Ends, inner.OfJob.of_targets-prop};

use crate::failure::Failure;
use crate::outcome::{Outcome, finish};
use kp_base::{NoMemory, Refused, Sink, SinkFault};
use kp_debug::Inspection;
use kp_debug::laws::a_script_is_of_its_job;
use kp_debug_script::{Command, read_script};
use kp_frontend::{Accepted, Head, judge_head};
use kp_net::Netlist;
use kp_synth::synth;
use std::alloc::Global;

/// `debug`: steps through the pipelined machine of a job by the script after it, and writes what its commands print.
pub fn debug<K: Sink>(alloc: Global, input: &[u8], sink: &mut K) -> Result<u8, Failure>
    requires { length input.now ≤ 16777216 }
    ensures { Ends K.held K.faults ⊥ (DueFor (Some Debug) input.now) sink.old sink.new result }
{
    let head = judge_head(alloc, input)?;
    let end = on_script(alloc, &head, input, sink);
    drop(head);
    end
}

// The same for the script after a job that violates no rule.
fn on_script<K: Sink>(alloc: Global, head: &Head, input: &[u8], sink: &mut K) -> Result<u8, Failure>
    requires short { length input.now ≤ 16777216 }
    requires within { head.now.rest ≤ length input.now }
    ensures { Ends K.held K.faults ⊥ (DueOfScriptHead input.now (Ok (head.now.job.design.job, head.now.rest))) sink.old sink.new result }
{
    let commands = commands_of(alloc, head, input)?;
    let net = machine_of(alloc, &head.job)?;
    let inspection = Inspection::open(alloc, &net, &head.job)?;
    let script = Scripted {
        inspection,
        commands: commands.as_slice(),
    };
    finish(script, sink)
}

// The commands of the script after a job.
fn commands_of(alloc: Global, head: &Head, input: &[u8]) -> Result<Vec<Command>, Refused>
    requires short { length input.now ≤ 16777216 }
    requires within { head.now.rest ≤ length input.now }
    ensures read { Gives result (script_of head.now.job.design.job.decls input.now head.now.rest) (λ commands. commands.items) }
    ensures of_job { IfOk result (λ commands. AreOfJob head.now.job.design.job commands.items) }
{
    a_script_is_of_its_job();
    let decls = head.job.design.job().decls.as_slice();
    read_script(alloc, input, head.rest, decls)
}

// The netlist of a job's pipelined machine. The only error is out of memory.
fn machine_of(alloc: Global, job: &Accepted) -> Result<Netlist, NoMemory>
    ensures { IfOk result (λ net. Shows net job.now.design.job) }
{
    // The invariant of the type, for the proof only.
    let _kept = job.design.job();
    synth(alloc, &job.design, &job.sections.start)
}

// The run of a job's machine, and the commands of a script for the job.
#[derive(Drop)]
struct Scripted<'a> {
    inspection: Inspection<'a>,
    commands: &'a [Command],
    ghost of_job: { AreOfJob inspection.job commands.now } by { Prim.hlevel of_targets-prop },
}

impl Outcome for Scripted<'_> {
    ghost status = { λ _. 0 };

    ghost text = { λ s. printed s.inspection.job (whole_run s.inspection.job) s.inspection.cycle s.commands.now };

    fn write<K: Sink>(self, sink: &mut K) -> Result<u8, SinkFault> {
        let Scripted {
            mut inspection,
            commands,
        } = self;
        let end = inspection.write(commands, sink);
        drop(inspection);
        end?;
        Ok(0)
    }
}
