// The lines of a run with what their text needs.
ghost use Rattle.std.specs.Prelude.{◌≡◌, ℕ, ◌+◌, ◌-◌, ◌<◌, ◌^◌, ◌==◌, IfOk, cond, get_or, length, map, string_bytes};
ghost use Rattle.kp_stalls_text.specs.Labels.{labels_from};
ghost use Rattle.kp_stalls_text.specs.Reports.{AreWaits};
ghost use Rattle.kp_stalls_text.specs.Text.{is_wait_for};

use crate::labels::{Label, labels_of};
use kp_ast::Block;
use kp_base::NoMemory;
use kp_stalls::{Cause, Line};
use std::alloc::Global;
use std::marker::Model;

/// The lines of a run, with names of the stages, the labels of the reads and the number of waits for each of them. A stage past the end of the names has its
/// number.
pub struct Report<'a> {
    names: &'a [String],
    labels: Vec<Label>,
    lines: Vec<Line>,
    waits: Vec<u64>,
}

impl Drop for Report<'_> {
    fn drop(self) {
        let Report {
            names: _,
            labels,
            lines,
            waits,
        } = self;
        drop(labels);
        drop(lines);
        drop(waits);
    }
}

impl<'a> Model for Report<'a> {
    ghost use Rattle.std.specs.Prelude.{length, map, string_bytes};
    ghost use Rattle.kp_stalls_text.specs.Reports.{AreWaits, Reported};

    ghost Value = { Reported };

    ghost view = { λ r. record { names = map string_bytes r.names.now; labels = r.labels.items; lines = r.lines.items; waits = r.waits.items } };

    ghost invariant = { λ r. AreWaits (length r.labels.items) r.lines.items r.waits.items };
}

impl<'a> Report<'a> {
    /// The report of these lines, whose reads are in these blocks, with these names of the stages. The only error is out of memory.
    pub fn of(
        alloc: Global,
        blocks: &[Block],
        names: &'a [String],
        lines: Vec<Line>,
    ) -> Result<Report<'a>, NoMemory>
        ensures names { IfOk result (λ r. r.names ≡ map string_bytes names.now) }
        ensures labels { IfOk result (λ r. r.labels ≡ labels_from blocks.now) }
        ensures lines { IfOk result (λ r. r.lines ≡ lines.items) }
    {
        let labels = labels_of(alloc, blocks)?;
        let waits = waits_of(alloc, labels.len(), lines.as_slice())?;
        Ok(Report {
            names,
            labels,
            lines,
            waits,
        })
    }

    /// The names of the stages.
    pub(crate) fn names(&self) -> &'a [String]
        ensures { map string_bytes result.now ≡ self.now.names }
    {
        self.names
    }

    /// The labels of the reads.
    pub(crate) fn labels(&self) -> &[Label]
        ensures { result.now ≡ self.now.labels }
    {
        self.labels.as_slice()
    }

    /// The lines.
    pub(crate) fn lines(&self) -> &[Line]
        ensures { result.now ≡ self.now.lines }
    {
        self.lines.as_slice()
    }

    /// The number of waits for each read.
    pub(crate) fn waits(&self) -> &[u64]
        ensures value { result.now ≡ self.now.waits }
        ensures waits { AreWaits (length self.now.labels) self.now.lines result.now }
    {
        self.waits.as_slice()
    }
}

// For each of so many reads the number of lines that wait for it.
fn waits_of(alloc: Global, reads: usize, lines: &[Line]) -> Result<Vec<u64>, NoMemory>
    ensures { IfOk result (λ waits. AreWaits reads lines.now waits.items) }
{
    let mut waits = vec![in alloc; 0u64; reads]?;
    for line in lines {
        add_wait(waits.as_mut_slice(), line.cause);
    }
    Ok(waits)
}

fn add_wait(waits: &mut [u64], cause: Cause)
    requires { (i : ℕ) → i < length waits.old → get_or waits.old i 0 < 2 ^ 64 - 1 }
    ensures count { length waits.new ≡ length waits.old }
    ensures waits { (i : ℕ) → i < length waits.old → get_or waits.new i 0 ≡ get_or waits.old i 0 + cond (is_wait_for i cause) 1 0 }
{
    if let Cause::Value(wait) = cause {
        count_read(waits, wait.read);
    }
}

// One more wait for read number r, if there is such a read.
fn count_read(waits: &mut [u64], r: usize)
    requires { (i : ℕ) → i < length waits.old → get_or waits.old i 0 < 2 ^ 64 - 1 }
    ensures count { length waits.new ≡ length waits.old }
    ensures waits { (i : ℕ) → i < length waits.old → get_or waits.new i 0 ≡ get_or waits.old i 0 + cond (r == i) 1 0 }
{
    if r < waits.len() {
        waits[r] += 1;
    }
}
