// `vcd N`: the value changes of the pipelined machine of a job.
ghost use Rattle.std.specs.Prelude.{◌≡◌, IfOk};
ghost use Rattle.kp_words.specs.declared.commands.JobCommand.TheVariants.{Vcd};
ghost use Rattle.kp_vcd.specs.{Text.dump_text, Dumps.vcd_text};
ghost use Rattle.kp_tool.specs.{Due.DueOfJob, Ends.Ends};

use crate::failure::Failure;
use crate::outcome::{Outcome, finish};
use kp_base::{NoMemory, Sink, SinkFault};
use kp_frontend::Accepted;
use kp_synth::synth;
use kp_vcd::{Dump, dump_of, write_dump};
use std::alloc::Global;

/// `vcd N`: runs the pipelined machine of a job over `count` cycles, and writes its value changes.
pub fn vcd<K: Sink>(alloc: Global, count: u32, job: &Accepted, sink: &mut K) -> Result<u8, Failure>
    ensures { Ends K.held K.faults ⊥ (DueOfJob (Vcd count) job.now.design.job) sink.old sink.new result }
{
    let dump = dumped(alloc, count, job)?;
    finish(dump, sink)
}

// The changes of the job's pipelined machine over `count` cycles. Its netlist is dropped on return. The only error is out of memory.
fn dumped(alloc: Global, count: u32, job: &Accepted) -> Result<Dump, NoMemory>
    ensures { IfOk result (λ d. dump_text d ≡ vcd_text count job.now.design.job) }
{
    // The invariant of the type, for the proof only.
    let _kept = job.design.job();
    let net = synth(alloc, &job.design, &job.sections.start)?;
    dump_of(alloc, job, &net, count)
}

impl Outcome for Dump {
    ghost status = { λ _. 0 };

    ghost text = { λ dump. dump_text dump };

    fn write<K: Sink>(self, sink: &mut K) -> Result<u8, SinkFault> {
        write_dump(&self, sink)?;
        Ok(0)
    }
}
