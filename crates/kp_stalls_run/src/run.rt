// The lines of a run, cycle by cycle.
ghost use Rattle.std.specs.Prelude.{◌≡◌, ℕ, ◌<◌, ◌^◌, ◌++◌, List, [], drop, IfOk, OnOk, length, get_or};
ghost use Rattle.kp_machine.specs.Machine.{inputs_from, machine_of, values_in};
ghost use Rattle.kp_machine.specs.Slots.{sample_stages};
ghost use Rattle.kp_pipeline.specs.Rows.{taken};
ghost use Rattle.kp_run.specs.Columns.{row_taken};
ghost use Rattle.kp_sched.specs.Rows.{bit_of, rows_seen};
ghost use Rattle.kp_stage.specs.Start.{AreSamples};
ghost use Rattle.kp_stalls.specs.declared.fate.Fate.TheVariants.{Open};
ghost use Rattle.kp_stalls.specs.Causes.{lines_down};
ghost use Rattle.kp_stalls.specs.Occupants.{occupants_of, report, stored};
ghost use Rattle.kp_stalls.specs.Cycles.{fate_in, lines_from, stages_from};
ghost use Rattle.kp_sites.specs.Sites.{sited};
ghost use Rattle.kp_stalls.specs.Windows.{Follows};
ghost use Rattle.kp_stalls_run.specs.Runs.{job_stalls, settled};
ghost use Rattle.kp_stalls_run.specs.inner.Running.{StaysClose, stage_now};

use crate::guesses::add_values;
use crate::reach::reach;
use crate::samples::{Samples, stages_of};
use crate::stages::{Moment, stages_at};
use kp_base::{NoMemory, Row};
use kp_bits::Bits;
use kp_diagram_run::run_job;
use kp_frontend::Accepted;
use kp_machine::laws::a_design_is_accepted;
use kp_run::columns_of;
use kp_run::laws::a_job_gives_its_own_inputs;
use kp_sched::Monitor;
use kp_stalls::{Fate, Line, Window, add_lines, fates_of};
use std::alloc::Global;

/// The lines of the run of a job over `count` cycles, under the job's own stall words and samples. The only error is out of memory.
pub fn stalls_of(alloc: Global, job: &Accepted, count: u32) -> Result<Vec<Line>, NoMemory>
    ensures { IfOk result (λ lines. lines.items ≡ job_stalls count job.now.design.job) }
{
    a_design_is_accepted(&job.design);
    a_job_gives_its_own_inputs(job);
    let run = run_job(alloc, job, count)?;
    let lines = lines_of(alloc, job, run.rows.as_slice(), run.words.as_slice());
    drop(run);
    let mut lines = lines?;
    add_values(alloc, job, lines.as_mut_slice())?;
    Ok(lines)
}

// The lines of a run with these rows and stall words.
fn lines_of(
    alloc: Global,
    job: &Accepted,
    rows: &[Row],
    words: &[u16],
) -> Result<Vec<Line>, NoMemory>
    requires words { length words.now ≡ length rows.now }
    requires few { length rows.now < 2 ^ 32 }
    requires close { StaysClose job.now.design.job.stages.value (rows_seen job.now.design.job.stages.value rows.now) }
    ensures { let job = job.now.design.job in let seen = rows_seen job.stages.value rows.now in
        let given = taken (machine_of job) (inputs_from job 0 (length seen)) seen in
        IfOk result (λ lines. lines.items ≡ lines_from (sited job) (λ T. bit_of (get_or words.now T 0)) (settled job given) (report job given) 0 (λ k. 0) seen) }
{
    let tree = job.design.job();
    let n = tree.stages.value as u8;
    let stages = stages_of(alloc, tree.decls.as_slice())?;
    let columns = columns_of(alloc, job, rows)?;
    let samples = Samples { stages, columns };
    let fates = fates_of(alloc, n, rows)?;
    let mut window = Window::open(alloc, &job.design, &job.sections.start)?;
    let mut room = job.sections.inputs.row(alloc, 0)?;
    let known = Known {
        job,
        rows,
        words,
        samples: &samples,
        fates: fates.as_slice(),
    };
    let mut lines = Vec::new(alloc);
    add_cycles(alloc, &known, &mut window, room.as_mut_slice(), &mut lines)?;
    Ok(lines)
}

// A run, with all that is known of it before its lines.
#[derive(Clone, Copy)]
struct Known<'a> {
    job: &'a Accepted,
    rows: &'a [Row],
    words: &'a [u16],
    samples: &'a Samples,
    fates: &'a [[Fate; 12]],
}

// The lines of all cycles. `room` is a buffer for the sample values of an instruction.
fn add_cycles(
    alloc: Global,
    known: &Known<'_>,
    window: &mut Window<'_>,
    room: &mut [Bits],
    lines: &mut Vec<Line>,
) -> Result<(), NoMemory>
    requires words { length known.now.words.now ≡ length known.now.rows.now }
    requires few { length known.now.rows.now < 2 ^ 32 }
    requires close { StaysClose known.now.job.now.design.job.stages.value (rows_seen known.now.job.now.design.job.stages.value known.now.rows.now) }
    requires stages { known.now.samples.now.stages.items ≡ sample_stages known.now.job.now.design.job.decls }
    requires columns { length known.now.samples.now.columns.items ≡ length (sample_stages known.now.job.now.design.job.decls) }
    requires count { length known.now.fates.now ≡ length known.now.rows.now }
    requires fates { (T k : ℕ) → T < length known.now.rows.now → k < known.now.job.now.design.job.stages.value
        → get_or (get_or known.now.fates.now T []) k Open ≡ fate_in known.now.job.now.design.job.stages.value (rows_seen known.now.job.now.design.job.stages.value (drop T known.now.rows.now)) k }
    requires job { window.old.machine.job ≡ known.now.job.now.design.job }
    requires sites { window.old.sites ≡ sited known.now.job.now.design.job }
    requires next { window.old.next ≡ 0 }
    requires follows { Follows known.now.job.now.design.job (λ i. values_in (row_taken known.now.samples.now.columns.items i)) window.old }
    requires room { length room.old ≡ length known.now.samples.now.columns.items }
    requires samples { (i : ℕ) → AreSamples known.now.job.now.design.job.decls (row_taken known.now.samples.now.columns.items i) }
    ensures { let job = known.now.job.now.design.job in let given : ℕ → ℕ → ℕ = λ i. values_in (row_taken known.now.samples.now.columns.items i) in
        OnOk result (lines.new.items ≡ lines.old.items ++ lines_from (sited job) (λ T. bit_of (get_or known.now.words.now T 0)) (settled job given) (report job given) 0 (λ k. 0)
        (rows_seen job.stages.value known.now.rows.now)) }
{
    let tree = known.job.design.job();
    let n = tree.stages.value as u8;
    let mut monitor = Monitor::open(n);
    for cycle in 0..known.rows.len() {
        reach(
            window,
            known.samples.columns.as_slice(),
            room,
            monitor.count(0),
        );
        let moment = Moment {
            cycle: cycle as u64,
            row: known.rows[cycle],
            word: known.words[cycle],
            fates: &known.fates[cycle],
        };
        add_cycle(
            alloc,
            known.job,
            known.samples,
            &moment,
            &monitor,
            window,
            lines,
        )?;
        monitor.cycle(moment.row);
    }
    Ok(())
}

// The lines of a cycle, by the numbers of the instructions in the stages.
fn add_cycle(
    alloc: Global,
    job: &Accepted,
    samples: &Samples,
    moment: &Moment<'_>,
    monitor: &Monitor,
    window: &Window<'_>,
    lines: &mut Vec<Line>,
) -> Result<(), NoMemory>
    requires stages { samples.now.stages.items ≡ sample_stages job.now.design.job.decls }
    requires columns { length samples.now.columns.items ≡ length (sample_stages job.now.design.job.decls) }
    requires monitor { monitor.now.stages ≡ window.now.sites.stages }
    ensures { OnOk result (lines.new.items ≡ lines.old.items ++ lines_down window.now.sites moment.now.cycle
        (occupants_of (stored window.now.ring) (stages_from (stage_now moment.now.word (settled job.now.design.job (λ i. values_in (row_taken samples.now.columns.items i)) moment.now.cycle)
        monitor.now.counts moment.now.fates.now moment.now.row) monitor.now.stages 0)) window.now.sites.stages) }
{
    let stages = stages_at(alloc, job, samples, moment, monitor)?;
    let end = add_lines(
        lines,
        window.sites(),
        moment.cycle as usize,
        stages.as_slice(),
        window,
    );
    drop(stages);
    end
}
