// Whether the samples of a stage have the values that an instruction takes.
ghost use Rattle.std.specs.Prelude.{◌≡◌, ◌<◌, IfOk, length};
ghost use Rattle.kp_machine.specs.Machine.{values_in};
ghost use Rattle.kp_machine.specs.Slots.{sample_stages};
ghost use Rattle.kp_run.specs.Columns.{row_taken};
ghost use Rattle.kp_stalls_run.specs.Runs.{settled, settles as settles_in};

use kp_ast::Decl;
use kp_base::NoMemory;
use kp_frontend::Accepted;
use kp_run::Column;
use std::alloc::Global;

/// The samples of a run: the stage of each, and the values that the instructions take.
pub(crate) struct Samples {
    pub stages: Vec<u64>,
    pub columns: Vec<Column>,
}

impl Drop for Samples {
    fn drop(self) {
        let Samples { stages, columns } = self;
        drop(stages);
        drop(columns);
    }
}

/// The stages of the samples. The only error is out of memory.
pub(crate) fn stages_of(alloc: Global, decls: &[Decl]) -> Result<Vec<u64>, NoMemory>
    ensures { IfOk result (λ stages. stages.items ≡ sample_stages decls.now) }
{
    let mut stages = Vec::new(alloc);
    for decl in decls {
        if let Decl::Sample(_, _, stage) = decl {
            stages.push(stage.value)?;
        }
    }
    Ok(stages)
}

/// Whether the samples of stage k have in a cycle the values that instruction i takes.
#[tactic(auto, using(crate::proofs::Settling::settled_more, crate::proofs::Settling::settled_all, crate::proofs::Settling::unsettled))]
pub(crate) fn is_settled(job: &Accepted, samples: &Samples, cycle: u64, k: u64, i: u64) -> bool
    requires stages { samples.now.stages.items ≡ sample_stages job.now.design.job.decls }
    requires columns { length samples.now.columns.items ≡ length (sample_stages job.now.design.job.decls) }
    ensures { result ≡ settled job.now.design.job (λ j. values_in (row_taken samples.now.columns.items j)) cycle k i }
{
    for x in 0..samples.columns.len() {
        if !settles(job, samples, cycle, k, i, x) {
            return false;
        }
    }
    true
}

// Whether sample x, if it is one of stage k, has in a cycle the value that instruction i takes.
fn settles(job: &Accepted, samples: &Samples, cycle: u64, k: u64, i: u64, x: usize) -> bool
    requires stages { samples.now.stages.items ≡ sample_stages job.now.design.job.decls }
    requires columns { length samples.now.columns.items ≡ length (sample_stages job.now.design.job.decls) }
    requires sample { x < length samples.now.columns.items }
    ensures { result ≡ settles_in job.now.design.job (λ j. values_in (row_taken samples.now.columns.items j)) cycle k i x }
{
    if samples.stages[x] != k {
        return true;
    }
    // The invariant of the type, for the proof only.
    let _kept = job.design.job();
    let now = job.sections.inputs.value(x as u32, cycle);
    now.value() == samples.columns[x].word(i).value()
}
