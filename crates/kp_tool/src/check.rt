// `check`: the numbers of a job that violates no rule.
ghost use Rattle.kp_stage.specs.Counts.{summary_of};
ghost use Rattle.kp_words.specs.declared.commands.JobCommand.TheVariants.{Check};
ghost use Rattle.kp_report.specs.Texts.{accepted_line};
ghost use Rattle.kp_tool.specs.{Due.DueOfJob, Ends.Ends};

use crate::failure::Failure;
use crate::outcome::{Outcome, finish};
use kp_base::{Sink, SinkFault};
use kp_frontend::Accepted;
use kp_report::write_accepted;
use kp_stage::Design;

/// `check`: writes the line of counts of a job.
pub fn check<K: Sink>(job: &Accepted, sink: &mut K) -> Result<u8, Failure>
    ensures { Ends K.held K.faults ⊥ (DueOfJob Check job.now.design.job) sink.old sink.new result }
{
    finish(&job.design, sink)
}

impl Outcome for &Design {
    ghost status = { λ _. 0 };

    ghost text = { λ design. accepted_line design.now.job.name.name (summary_of design.now.job) };

    fn write<K: Sink>(self, sink: &mut K) -> Result<u8, SinkFault> {
        write_accepted(self, sink)?;
        Ok(0)
    }
}
