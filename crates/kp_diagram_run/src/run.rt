// The run of a job that its diagram shows.
ghost use Rattle.std.specs.Prelude.{◌≡◌, ◌≤◌, ◌<◌, ℕ, true, length, get_or, map, string_bytes, IfOk};
ghost use Rattle.kp_machine.specs.Machine.{inputs_from, pipe_of};
ghost use Rattle.kp_sched.specs.Rows.{rows_seen};
ghost use Rattle.kp_image.specs.Spans.{word_in};
ghost use Rattle.kp_diagram_text.specs.Charts.{IsDrawable, are_names, figure_of, rows_of};
ghost use Rattle.kp_diagram_run.specs.{Figures.IsRunOf, Figures.job_figure, Figures.job_rows, inner.Words.words_to};

use kp_base::{NoMemory, Row};
use kp_diagram_text::Chart;
use kp_frontend::Accepted;
use kp_run::cycles_of;
use kp_run::laws::{a_job_gives_its_own_inputs, a_run_shows_the_pipeline};
use kp_synth::synth;
use std::alloc::Global;

/// The rows and the stall words of a run of a job.
pub struct JobRun {
    pub rows: Vec<Row>,
    pub words: Vec<u16>,
}

impl Drop for JobRun {
    fn drop(self) {
        let JobRun { rows, words } = self;
        drop(rows);
        drop(words);
    }
}

/// Runs the pipelined machine of a job for `count` cycles, under the job's own stall words and samples. The only error is out of memory.
pub fn run_job(alloc: Global, job: &Accepted, count: u32) -> Result<JobRun, NoMemory>
    ensures { IfOk result (λ r. IsRunOf job.now.design.job count r.rows.items r.words.items) }
{
    let rows = rows_of(alloc, job, count)?;
    let words = words_of(alloc, job, count)?;
    Ok(JobRun { rows, words })
}

/// What the diagram of a run of a job is drawn from, with names of the stages or none. The job is the one that was run.
pub fn chart_of<'a>(job: &'a Accepted, run: &'a JobRun, names: &'a [String]) -> Chart<'a>
    ensures figure { (n : ℕ) → IsRunOf job.now.design.job n run.now.rows.items run.now.words.items
        → figure_of result ≡ job_figure (map string_bytes names.now) n job.now.design.job }
    ensures rows { (n : ℕ) → IsRunOf job.now.design.job n run.now.rows.items run.now.words.items → rows_of result ≡ job_rows n job.now.design.job }
    ensures drawable { (n : ℕ) → IsRunOf job.now.design.job n run.now.rows.items run.now.words.items → n ≤ 100000
        → are_names (map string_bytes names.now) job.now.design.job.stages.value ≡ true → IsDrawable result }
{
    a_job_gives_its_own_inputs(job);
    let tree = job.design.job();
    let stages = tree.stages.value as u8;
    let rows = run.rows.as_slice();
    let words = run.words.as_slice();
    Chart {
        name: tree.name.name.bytes(),
        stages,
        rows,
        words,
        names,
    }
}

// The rows of the job's pipelined machine. The netlist is dropped with its run.
fn rows_of(alloc: Global, job: &Accepted, count: u32) -> Result<Vec<Row>, NoMemory>
    ensures rows { IfOk result (λ rows. rows_seen job.now.design.job.stages.value rows.items
        ≡ (pipe_of job.now.design.job (inputs_from job.now.design.job 0 count)).rows) }
    ensures count { IfOk result (λ rows. length rows.items ≡ count) }
{
    // The invariant of the type, for the proof only.
    let _kept = job.design.job();
    a_run_shows_the_pipeline(job);
    let net = synth(alloc, &job.design, &job.sections.start)?;
    let cycles = cycles_of(alloc, job, &net, count)?;
    Ok(cycles.rows)
}

// The stall words of `count` cycles.
fn words_of(alloc: Global, job: &Accepted, count: u32) -> Result<Vec<u16>, NoMemory>
    ensures { IfOk result (λ words. words.items ≡ words_to (word_in job.now.sections.stalls) count) }
{
    let mut words = Vec::new(alloc);
    for cycle in 0..count {
        words.push(job.sections.stalls.word(u64::from(cycle)))?;
    }
    Ok(words)
}
