// What the stages show in a cycle.
ghost use Rattle.std.specs.Prelude.{◌≡◌, ◌<◌, ◌≤◌, IfOk, length};
ghost use Rattle.kp_machine.specs.Machine.{values_in};
ghost use Rattle.kp_machine.specs.Slots.{sample_stages};
ghost use Rattle.kp_run.specs.Columns.{row_taken};
ghost use Rattle.kp_sched.specs.Rows.{bit_of};
ghost use Rattle.kp_stalls.specs.Cycles.{stages_from};
ghost use Rattle.kp_stalls_run.specs.Runs.{settled};
ghost use Rattle.kp_stalls_run.specs.inner.Running.{stage_now};

use crate::samples::{Samples, is_settled};
use kp_base::{NoMemory, Row};
use kp_frontend::Accepted;
use kp_sched::Monitor;
use kp_stalls::{Fate, Stage};
use std::alloc::Global;

/// A cycle: its number, its row, its stall word, and what becomes of the instructions in the stages.
#[derive(Clone, Copy)]
pub(crate) struct Moment<'a> {
    pub cycle: u64,
    pub row: Row,
    pub word: u16,
    pub fates: &'a [Fate; 12],
}

/// What the stages show in a cycle. The only error is out of memory.
#[tactic(auto, using(crate::proofs::Steps::stage_more, crate::proofs::Steps::stages_end))]
pub(crate) fn stages_at(
    alloc: Global,
    job: &Accepted,
    samples: &Samples,
    moment: &Moment<'_>,
    monitor: &Monitor,
) -> Result<Vec<Stage>, NoMemory>
    requires stages { samples.now.stages.items ≡ sample_stages job.now.design.job.decls }
    requires columns { length samples.now.columns.items ≡ length (sample_stages job.now.design.job.decls) }
    ensures count { IfOk result (λ stages. length stages.items ≡ monitor.now.stages) }
    ensures stages { IfOk result (λ stages. stages.items ≡ stages_from (stage_now moment.now.word
        (settled job.now.design.job (λ j. values_in (row_taken samples.now.columns.items j)) moment.now.cycle) monitor.now.counts moment.now.fates.now moment.now.row) monitor.now.stages 0) }
{
    let mut stages = Vec::new(alloc);
    for k in 0..monitor.stages() {
        stages.push(stage_at(job, samples, moment, monitor, k))?;
    }
    Ok(stages)
}

fn stage_at(
    job: &Accepted,
    samples: &Samples,
    moment: &Moment<'_>,
    monitor: &Monitor,
    k: u8,
) -> Stage
    requires stage { k < monitor.now.stages }
    requires few { monitor.now.stages ≤ 12 }
    requires stages { samples.now.stages.items ≡ sample_stages job.now.design.job.decls }
    requires columns { length samples.now.columns.items ≡ length (sample_stages job.now.design.job.decls) }
    ensures { result ≡ stage_now moment.now.word
        (settled job.now.design.job (λ j. values_in (row_taken samples.now.columns.items j)) moment.now.cycle) monitor.now.counts moment.now.fates.now moment.now.row k }
{
    let number = monitor.count(k);
    Stage {
        full: is_set(moment.row.full, k),
        moves: is_set(moment.row.ue, k),
        squashed: k < moment.row.back,
        held: is_set(moment.word, k),
        fate: moment.fates[usize::from(k)],
        settled: is_settled(job, samples, moment.cycle, u64::from(k), number),
        number,
    }
}

// Bit k of a mask.
fn is_set(word: u16, k: u8) -> bool
    requires { k < 16 }
    ensures { result ≡ bit_of word k }
{
    (word >> k) % 2 == 1
}
