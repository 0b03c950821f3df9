//! Whether two designs describe the same instruction: the nodes of both, in one pool, are the same.
ghost use Rattle.std.specs.Prelude.{◌≡◌, ◌≢◌, ◌≤◌, true, false, IfOk, MatchOption};
ghost use Rattle.kp_machine.specs.Slots.{targets_of, samples_of};
ghost use Rattle.kp_stage.specs.Start.{start_of, IsStartOf};
ghost use Rattle.kp_same.specs.{Rooms.job_room, Same.SameInstruction, Verdicts.Says, Verdicts.SaysOfTarget};

use crate::difference::{Difference, first_difference};
use crate::sinks::sinks_of;
use kp_base::{List, NoMemory};
use kp_bits::Bits;
use kp_pool::Pool;
use kp_stage::{Design, Start};
use kp_synth_stage::{Slot, Slots};
use std::alloc::Global;

// How many nodes the pool has capacity for: those of any two jobs.
const ROOM: u32 = 2_097_152;

/// Whether two jobs were shown to be the same; and if they weren't, the first that differs.
#[derive(Clone, Copy, PartialEq, Eq)]
pub enum Verdict {
    /// They describe the same instruction, and have the same start values.
    Alike,
    /// The registers and files differ in a name, a width or their order.
    Targets,
    /// The same of the samples.
    Samples,
    /// The start values of registers and files differ.
    Start,
    /// A part of a target wasn't shown to be the same. This is no proof of a difference.
    NotShown(Difference),
}

// Equal names and widths.
fn same_slot(a: &Slot, b: &Slot) -> bool
    ensures same { result ≡ true → a.now ≡ b.now }
    ensures other { result ≡ false → a.now ≢ b.now }
{
    a.width == b.width && a.address == b.address && *a.name() == *b.name()
}

#[tactic(auto, using(crate::proofs::Agreeing::same_cons, crate::proofs::Agreeing::other_head, crate::proofs::Agreeing::other_tail))]
fn same_slots(a: &[Slot], b: &[Slot]) -> bool
    ensures same { result ≡ true → a.now ≡ b.now }
    ensures other { result ≡ false → a.now ≢ b.now }
{
    match a.split_first() {
        None => b.is_empty(),
        Some((x, xs)) => match b.split_first() {
            None => false,
            Some((y, ys)) => same_slot(x, y) && same_slots(xs, ys),
        },
    }
}

#[tactic(auto, using(crate::proofs::Agreeing::same_cons, crate::proofs::Agreeing::other_head, crate::proofs::Agreeing::other_tail))]
fn same_regs(a: &[Bits], b: &[Bits]) -> bool
    ensures same { result ≡ true → a.now ≡ b.now }
    ensures other { result ≡ false → a.now ≢ b.now }
{
    match a.split_first() {
        None => b.is_empty(),
        Some((x, xs)) => match b.split_first() {
            None => false,
            Some((y, ys)) => *x == *y && same_regs(xs, ys),
        },
    }
}

#[tactic(auto, using(crate::proofs::Agreeing::same_cons, crate::proofs::Agreeing::other_head, crate::proofs::Agreeing::other_tail))]
fn same_files(a: &[List<u64>], b: &[List<u64>]) -> bool
    ensures same { result ≡ true → a.now ≡ b.now }
    ensures other { result ≡ false → a.now ≢ b.now }
{
    match a.split_first() {
        None => b.is_empty(),
        Some((x, xs)) => match b.split_first() {
            None => false,
            Some((y, ys)) => x.as_slice() == y.as_slice() && same_files(xs, ys),
        },
    }
}

// Equal values of registers and words of files.
#[tactic(auto, using(crate::proofs::Agreeing::same_parts, crate::proofs::Agreeing::other_regs, crate::proofs::Agreeing::other_files))]
fn same_start(a: &Start, b: &Start) -> bool
    ensures same { result ≡ true → a.now ≡ b.now }
    ensures other { result ≡ false → a.now ≢ b.now }
{
    same_regs(a.regs.as_slice(), b.regs.as_slice())
        && same_files(a.files.as_slice(), b.files.as_slice())
}

// The nodes of a job are at most half of the capacity.
#[tactic(auto, using(crate::proofs::Room::few))]
fn fits_twice(design: &Design)
    ensures { job_room design.now.job ≤ 1048576 }
{
    let _job = design.job();
}

// The first part of a target that isn't the same, or none where the instructions are.
fn difference(alloc: Global, a: &Design, b: &Design) -> Result<Option<Difference>, NoMemory>
    requires targets { targets_of a.now.job.decls ≡ targets_of b.now.job.decls }
    requires samples { samples_of a.now.job.decls ≡ samples_of b.now.job.decls }
    ensures { IfOk result (λ d. MatchOption d (SameInstruction a.now.job b.now.job) (SaysOfTarget a.now.job b.now.job)) }
{
    let _first = a.job();
    let _second = b.job();
    fits_twice(a);
    fits_twice(b);
    let mut pool = Pool::reserve(alloc, ROOM)?;
    let left = sinks_of(alloc, &mut pool, a)?;
    let right = sinks_of(alloc, &mut pool, b)?;
    Ok(first_difference(left.as_slice(), right.as_slice()))
}

/// Whether two jobs are the same, with their start values. The only error is out of memory.
pub fn compare(
    alloc: Global,
    a: &Design,
    a_start: &Start,
    b: &Design,
    b_start: &Start,
) -> Result<Verdict, NoMemory>
    requires first { a_start.now ≡ start_of a.now.job }
    requires second { b_start.now ≡ start_of b.now.job }
    requires suits { IsStartOf a.now.job a_start.now }
    ensures { IfOk result (Says a.now.job b.now.job) }
{
    let _first = a.job();
    let one = Slots::of(alloc, a)?;
    let other = Slots::of(alloc, b)?;
    if !same_slots(one.targets.as_slice(), other.targets.as_slice()) {
        return Ok(Verdict::Targets);
    }
    if !same_slots(one.samples.as_slice(), other.samples.as_slice()) {
        return Ok(Verdict::Samples);
    }
    if !same_start(a_start, b_start) {
        return Ok(Verdict::Start);
    }
    match difference(alloc, a, b)? {
        None => Ok(Verdict::Alike),
        Some(difference) => Ok(Verdict::NotShown(difference)),
    }
}
