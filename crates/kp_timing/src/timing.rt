// A timeline that is ready to be written.
ghost use Rattle.std.specs.Prelude.{◌≡◌, IfOk, None};
ghost use Rattle.std.specs.Coded.{codes};
ghost use Rattle.kp_ast.specs.contracts.tree.ExprKind as tree;
ghost use Rattle.kp_stage.specs.Start.{start_of, stall_word};
ghost use Rattle.kp_image.specs.Spans.{word_in};
ghost use Rattle.kp_timing.specs.Timed.{IsOpened};
ghost use Rattle.kp_timing.specs.Unfit.{untimed};

use crate::Timeline;
use kp_base::NoMemory;
use kp_frontend::Accepted;
use kp_image::StallPattern;
use std::alloc::Global;

/// An opened timeline, the stall words of its job, and the number of cycles to run.
#[derive(Drop)]
pub struct Timing<'a> {
    pub timeline: Timeline<'a>,
    pub stalls: &'a StallPattern,
    pub count: u32,
    pub ghost opened: { IsOpened timeline.job (start_of timeline.job) timeline } by { Prim.hlevel (codes, tree.the_row.coded) },
    pub ghost stalled: { word_in stalls.now ≡ stall_word timeline.job },
}

/// The timeline of a job without guesses and samples from its own start state. All memory is allocated here; the only error is out of memory.
pub fn timing_of<'a>(alloc: Global, job: &'a Accepted, count: u32) -> Result<Timing<'a>, NoMemory>
    requires { untimed job.now.design.job ≡ None }
    ensures job { IfOk result (λ t. t.timeline.job ≡ job.now.design.job) }
    ensures count { IfOk result (λ t. t.count ≡ count) }
{
    // The invariant of the type, for the proof only.
    let _kept = job.design.job();
    let timeline = Timeline::open(alloc, &job.design, &job.sections.start)?;
    Ok(Timing {
        timeline,
        stalls: &job.sections.stalls,
        count,
    })
}
