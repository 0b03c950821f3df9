// The sequential machine, as it goes from one instruction to another.
ghost use Rattle.std.specs.Prelude.{◌≡◌, ◌≤◌, ℕ, All, IfOk, OnOk, length};
ghost use Rattle.kp_stage.specs.Start.{AreSamples};
ghost use Rattle.kp_run.specs.Columns.{row_taken};
ghost use Rattle.kp_machine.specs.Machine.{values_in};
ghost use Rattle.kp_seq.specs.Running.{state};
ghost use Rattle.kp_diagram_labels.specs.Labels.{HasShown};
ghost use Rattle.kp_diagram_labels.specs.Texts.{no_words, word_in, words_in};
ghost use Rattle.kp_diagram_labels.specs.inner.Runs.{HasRun, given};

use crate::columns::width_of;
use crate::label::{Label, Shown};
use kp_base::NoMemory;
use kp_bits::Bits;
use kp_design::Layout;
use kp_frontend::Accepted;
use kp_run::{Column, take};
use kp_seq::SeqMachine;
use std::alloc::Global;

/// A machine, and how many instructions it has executed.
#[derive(Drop)]
pub(crate) struct Trace<'a> {
    pub machine: SeqMachine<'a>,
    pub ran: u64,
}

impl<'a> Trace<'a> {
    /// The start of a job. The only error is out of memory.
    pub fn open(alloc: Global, job: &'a Accepted) -> Result<Self, NoMemory>
        ensures run { IfOk result (λ t. (values : ℕ → ℕ → ℕ) → HasRun job.now.design.job values t.ran t.machine) }
        ensures start { IfOk result (λ t. t.ran ≡ 0) }
    {
        let design = &job.design;
        // The invariant of the type, for the proof only.
        let _kept = design.job();
        let machine = SeqMachine::open(alloc, design, &job.sections.start)?;
        Ok(Trace { machine, ran: 0 })
    }

    /// Goes to the state before instruction `to`: on from the present one, or from the start if that is past. `room` is a buffer for the sample values of an
    /// instruction. The only error is out of memory.
    pub fn go_to(
        &mut self,
        alloc: Global,
        job: &'a Accepted,
        columns: &[Column],
        room: &mut [Bits],
        to: u64,
    ) -> Result<(), NoMemory>
        requires room { length room.old ≡ length columns.now }
        requires samples { (i : ℕ) → AreSamples job.now.design.job.decls (row_taken columns.now i) }
        requires run { HasRun job.now.design.job (given columns.now) self.old.ran self.old.machine }
        ensures room { OnOk result (length room.new ≡ length room.old) }
        ensures run { OnOk result (HasRun job.now.design.job (given columns.now) self.new.ran self.new.machine) }
        ensures at { OnOk result (self.new.ran ≡ to) }
    {
        self.rewind(alloc, job, columns, to)?;
        self.advance(job, columns, room, to);
        Ok(())
    }

    // Goes back to the start, if it is past instruction `to`.
    fn rewind(
        &mut self,
        alloc: Global,
        job: &'a Accepted,
        _columns: &[Column],
        to: u64,
    ) -> Result<(), NoMemory>
        requires { HasRun job.now.design.job (given _columns.now) self.old.ran self.old.machine }
        ensures run { OnOk result (HasRun job.now.design.job (given _columns.now) self.new.ran self.new.machine) }
        ensures forward { OnOk result (self.new.ran ≤ to) }
    {
        if self.ran <= to {
            return Ok(());
        }
        let start = Trace::open(alloc, job)?;
        *self = start;
        Ok(())
    }

    // Executes the instructions up to number `to`, which is excluded.
    fn advance(&mut self, _job: &Accepted, columns: &[Column], room: &mut [Bits], to: u64)
        requires forward { self.old.ran ≤ to }
        requires room { length room.old ≡ length columns.now }
        requires samples { (i : ℕ) → AreSamples _job.now.design.job.decls (row_taken columns.now i) }
        requires run { HasRun _job.now.design.job (given columns.now) self.old.ran self.old.machine }
        ensures room { length room.new ≡ length room.old }
        ensures run { HasRun _job.now.design.job (given columns.now) self.new.ran self.new.machine }
        ensures at { self.new.ran ≡ to }
    {
        for i in self.ran..to {
            take(columns, i, room);
            self.machine.step_unrecorded(room);
        }
        self.ran = to;
    }
}

/// The values that labels have in the next instruction of a machine, which reads these samples. The machine stays as it is. The only error is out of memory.
pub(crate) fn values_next(
    alloc: Global,
    layout: &Layout<'_>,
    labels: &[Label],
    row: &[Bits],
    machine: &mut SeqMachine<'_>,
) -> Result<Vec<Option<Bits>>, NoMemory>
    requires job { machine.old.job ≡ layout.now }
    requires labels { All (λ (l : Label). HasShown layout.now l.shown) labels.now }
    requires samples { AreSamples layout.now.decls row.now }
    ensures values { IfOk result (λ values. values.items ≡ words_in layout.now (state machine.old) (values_in row.now) labels.now) }
    ensures same { OnOk result (machine.new ≡ machine.old) }
{
    let mut values = Vec::new(alloc);
    for label in labels {
        values.push(Some(value_next(layout, label.shown, row, machine)))?;
    }
    Ok(values)
}

/// No values. The only error is out of memory.
pub(crate) fn no_values(alloc: Global, labels: &[Label]) -> Result<Vec<Option<Bits>>, NoMemory>
    ensures { IfOk result (λ values. values.items ≡ no_words labels.now) }
{
    let values = vec![in alloc; None; labels.len()]?;
    Ok(values)
}

// The value of what is shown.
fn value_next(layout: &Layout<'_>, shown: Shown, row: &[Bits], machine: &mut SeqMachine<'_>) -> Bits
    requires job { machine.old.job ≡ layout.now }
    requires shown { HasShown layout.now shown }
    requires samples { AreSamples layout.now.decls row.now }
    ensures value { result ≡ word_in layout.now (state machine.old) (values_in row.now) shown }
    ensures same { machine.new ≡ machine.old }
{
    match shown {
        Shown::Word(target, address) => machine.value(target, address),
        Shown::Computed(what) => {
            let value = machine.next_value(row, what);
            Bits::of(width_of(layout, shown), value)
        }
    }
}
