// What the end of a run is said to be.
ghost use Rattle.std.specs.Prelude.{◌≡◌, ◌<◌, ◌^◌, ◌++◌, [], if◌then◌else◌, length, All, OnOk, IfSome, None, Some, Option, MatchOption, codes, decimal, map, option_map, get_or};
ghost use Rattle.kp_machine.specs.{Slots.targets_of, Words.HasWord, Words.target, Words.no_slot};
ghost use Rattle.kp_report.specs.Texts.{values_differing, word_named};
ghost use Rattle.kp_runner.specs.Texts.{bound_text, count_differing, counts_text, end_line, end_status, met_text, missed_text, verdict_text};
ghost use Rattle.kp_runner.specs.inner.Saying.{IsOfJob};

use crate::appending::{put_all, put_number, put_rate, put_value};
use crate::state::name_of;
use itoa::Buffer;
use kp_base::NoMemory;
use kp_bits::Bits;
use kp_design::Layout;
use kp_until::Bound;
use kp_until_run::Missed;

/// Appends the condition that ended a run, and the numbers of instructions and cycles.
#[tactic(auto, using(std::proofs::Common::append_assoc))]
pub(crate) fn put_end(
    out: &mut Vec<u8>,
    name: &[u8],
    retired: u64,
    cycles: u32,
) -> Result<(), NoMemory>
    requires { retired < 2 ^ 32 }
    ensures { OnOk result (out.new.items ≡ out.old.items ++ end_line name.now retired cycles) }
{
    put_counts(out, name, retired, cycles)?;
    put_rate(out, cycles, retired)?;
    out.extend_from_slice(b"\n")?;
    Ok(())
}

#[tactic(auto, unfolding(crate::specs::Texts::counts_text))]
fn put_counts(out: &mut Vec<u8>, name: &[u8], retired: u64, cycles: u32) -> Result<(), NoMemory>
    ensures { OnOk result (out.new.items ≡ out.old.items ++ counts_text name.now retired cycles) }
{
    let (mut instructions, mut clocks) = (Buffer::new(), Buffer::new());
    let pieces = [
        name,
        b": retired ".as_slice(),
        instructions.format(retired).as_bytes(),
        b" in ".as_slice(),
        clocks.format(cycles).as_bytes(),
        b" cycles".as_slice(),
    ];
    put_all(out, &pieces)
}

/// Appends the first expectation that isn't met, or how many are.
pub(crate) fn put_verdict(
    out: &mut Vec<u8>,
    layout: &Layout<'_>,
    lines: usize,
    retired: u64,
    cycles: u32,
    missed: &Option<Missed>,
) -> Result<(), NoMemory>
    requires { IfSome missed.now (IsOfJob layout.now) }
    ensures { OnOk result (out.new.items ≡ out.old.items ++ verdict_text layout.now lines retired cycles missed.now) }
{
    match missed {
        Some(Missed::Word(t, a, found, expected)) => {
            put_word(out, layout, *t, *a, *found, *expected)
        }
        Some(Missed::Retired(bound)) => put_count(out, b"retired", retired, *bound),
        Some(Missed::Cycles(bound)) => put_count(out, b"cycles", u64::from(cycles), *bound),
        None => put_met(out, lines),
    }
}

#[tactic(auto, unfolding(crate::specs::Texts::met_text), using(std::proofs::Common::append_assoc))]
fn put_met(out: &mut Vec<u8>, lines: usize) -> Result<(), NoMemory>
    ensures { OnOk result (out.new.items ≡ out.old.items ++ met_text lines) }
{
    if lines == 0 {
        return Ok(());
    }
    out.extend_from_slice(b"expected ")?;
    put_number(out, lines as u64)?;
    out.extend_from_slice(b": all met\n")?;
    Ok(())
}

// A number that isn't within its bound.
#[tactic(auto, unfolding(crate::specs::Texts::count_differing), using(std::proofs::Common::append_assoc))]
fn put_count(out: &mut Vec<u8>, name: &[u8], number: u64, bound: Bound) -> Result<(), NoMemory>
    ensures { OnOk result (out.new.items ≡ out.old.items ++ count_differing name.now number bound) }
{
    out.extend_from_slice(b"differs ")?;
    out.extend_from_slice(name)?;
    out.extend_from_slice(b" ")?;
    put_number(out, number)?;
    out.extend_from_slice(b" ")?;
    out.extend_from_slice(relation(bound.most))?;
    put_number(out, bound.number)?;
    out.extend_from_slice(b"\n")?;
    Ok(())
}

fn relation(most: bool) -> &'static [u8]
    ensures { result.now ≡ (if most then codes "<=" else []) }
{
    if most { b"<=" } else { b"" }
}

// A word that has another value than the expected one.
#[tactic(auto, using(std::proofs::Common::append_assoc))]
fn put_word(
    out: &mut Vec<u8>,
    layout: &Layout<'_>,
    t: u32,
    a: u32,
    found: Bits,
    expected: Bits,
) -> Result<(), NoMemory>
    requires { t < length (targets_of layout.now.decls) }
    ensures { OnOk result (out.new.items ≡ out.old.items ++ (codes "differs " ++ (word_named (target layout.now t) a ++ values_differing found expected))) }
{
    out.extend_from_slice(b"differs ")?;
    put_named(out, layout, t, a)?;
    put_values(out, found, expected)
}

// The name of a word.
#[tactic(auto, unfolding(kp_report::specs::Texts::word_named), using(std::proofs::Common::append_assoc))]
fn put_named(out: &mut Vec<u8>, layout: &Layout<'_>, t: u32, a: u32) -> Result<(), NoMemory>
    requires { t < length (targets_of layout.now.decls) }
    ensures { OnOk result (out.new.items ≡ out.old.items ++ word_named (target layout.now t) a) }
{
    let name = name_of(layout.job().decls.as_slice(), t);
    if layout.is_register(t) {
        return put_all(out, &[name]);
    }
    out.extend_from_slice(name)?;
    out.extend_from_slice(b"[")?;
    put_number(out, u64::from(a))?;
    out.extend_from_slice(b"]")?;
    Ok(())
}

// A value, and the expected one.
#[tactic(auto, unfolding(kp_report::specs::Texts::values_differing), using(std::proofs::Common::append_assoc))]
fn put_values(out: &mut Vec<u8>, found: Bits, expected: Bits) -> Result<(), NoMemory>
    ensures { OnOk result (out.new.items ≡ out.old.items ++ values_differing found expected) }
{
    out.extend_from_slice(b" ")?;
    put_value(out, found)?;
    out.extend_from_slice(b" ")?;
    put_value(out, expected)?;
    out.extend_from_slice(b"\n")?;
    Ok(())
}
