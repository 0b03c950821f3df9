// `timing N`: the timeline of a job without guesses and samples.
ghost use Rattle.kp_words.specs.declared.commands.JobCommand.TheVariants.{Timing as Timed};
ghost use Rattle.kp_timing.specs.Lines.{timing_text};
ghost use Rattle.kp_tool.specs.{Due.DueOfJob, Ends.Ends};

use crate::failure::Failure;
use crate::outcome::{Outcome, finish};
use kp_base::{Sink, SinkFault};
use kp_frontend::Accepted;
use kp_timing::{Timing, timing_of, untimed, write_timing};
use std::alloc::Global;

/// `timing N`: writes the timeline of `count` cycles of a job. The only rule of its own is E38.
pub fn timing<K: Sink>(
    alloc: Global,
    count: u32,
    job: &Accepted,
    sink: &mut K,
) -> Result<u8, Failure>
    ensures { Ends K.held K.faults ⊥ (DueOfJob (Timed count) job.now.design.job) sink.old sink.new result }
{
    match untimed(job.design.job()) {
        Some(refusal) => Err(Failure::Refused(refusal)),
        None => {
            let timing = timing_of(alloc, job, count)?;
            finish(timing, sink)
        }
    }
}

impl Outcome for Timing<'_> {
    ghost status = { λ _. 0 };

    ghost text = { λ timing. timing_text timing.timeline.job timing.count };

    fn write<K: Sink>(self, sink: &mut K) -> Result<u8, SinkFault> {
        write_timing(self, sink)?;
        Ok(0)
    }
}
