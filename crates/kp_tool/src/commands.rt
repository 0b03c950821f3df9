// The list of commands.
ghost use Rattle.std.specs.Prelude.{◌≤◌, length, Some};
ghost use Rattle.kp_words.specs.declared.commands.Command.TheVariants.{OnJob};
ghost use Rattle.kp_tool.specs.{Due.DueFor, Due.DueOfJob, Ends.Ends};

use crate::asm::asm;
use crate::check::check;
use crate::debug::debug;
use crate::equiv::equiv;
use crate::failure::Failure;
use crate::generate::generate;
use crate::pipe::pipe;
use crate::read::read;
use crate::seq::seq;
use crate::sim::sim;
use crate::timing::timing;
use crate::vcd::vcd;
use crate::watch::watch;
use kp_base::Sink;
use kp_frontend::{Accepted, judge};
use kp_words::{Command, JobCommand};
use std::alloc::Global;

/// Carries out a command on an input of at most 16 MiB. Nothing is written if it violates a rule: the line of the rule is left to the caller.
pub fn carry_out<K: Sink>(
    alloc: Global,
    command: Command,
    input: &[u8],
    sink: &mut K,
) -> Result<u8, Failure>
    requires { length input.now ≤ 16777216 }
    ensures { Ends K.held K.faults ⊥ (DueFor (Some command) input.now) sink.old sink.new result }
{
    match command {
        Command::OnJob(command) => on_job(alloc, command, input, sink),
        Command::Assemble => asm(alloc, input, sink),
        Command::Read => read(alloc, input, sink),
        Command::Watch(count) => watch(alloc, count, input, sink),
        Command::Compare => equiv(alloc, input, sink),
        Command::Debug => debug(alloc, input, sink),
        Command::Generate(number, count) => generate(alloc, number, count, sink),
    }
}

// The commands that read a job: checks the rules on the input, and carries the command out over its job, which is dropped on return.
fn on_job<K: Sink>(
    alloc: Global,
    command: JobCommand,
    input: &[u8],
    sink: &mut K,
) -> Result<u8, Failure>
    requires { length input.now ≤ 16777216 }
    ensures { Ends K.held K.faults ⊥ (DueFor (Some (OnJob command)) input.now) sink.old sink.new result }
{
    let job = judge(alloc, input)?;
    let end = of_job(alloc, command, &job, sink);
    drop(job);
    end
}

// The list of these commands.
fn of_job<K: Sink>(
    alloc: Global,
    command: JobCommand,
    job: &Accepted,
    sink: &mut K,
) -> Result<u8, Failure>
    ensures { Ends K.held K.faults ⊥ (DueOfJob command job.now.design.job) sink.old sink.new result }
{
    match command {
        JobCommand::Seq(count) => seq(alloc, count, job, sink),
        JobCommand::Check => check(job, sink),
        JobCommand::Sim(count) => sim(alloc, count, job, sink),
        JobCommand::Vcd(count) => vcd(alloc, count, job, sink),
        JobCommand::Timing(count) => timing(alloc, count, job, sink),
        JobCommand::Pipe => pipe(alloc, job, sink),
    }
}
