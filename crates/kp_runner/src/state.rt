// The state at the end of a run.
ghost use Rattle.std.specs.Prelude.{◌≡◌, ◌+◌, ◌-◌, ◌<◌, ◌≤◌, ◌^◌, ◌++◌, length, option_map, All, OnOk, IfSome, None, get_or, [], ◌∷◌};
ghost use Rattle.kp_machine.specs.{Slots.targets_of, Words.HasWord, Words.target, Words.no_slot};
ghost use Rattle.kp_seq.specs.Running.{state};
ghost use Rattle.kp_until.specs.Parts.{IsPart};
ghost use Rattle.kp_runner.specs.Texts.{changed_text, kept_line, kept_lines, part_text, parts_text, register_text, state_text, target_text};
ghost use Rattle.kp_runner.specs.inner.Keeping.{keep_of, keeps, HasSpan};
ghost use Rattle.kp_report.specs.{States.targets_in, Texts.word_line};

use crate::appending::{put_number, put_value};
use kp_ast::Decl;
use kp_base::NoMemory;
use kp_bits::Bits;
use kp_design::Layout;
use kp_report::targets_in;
use kp_seq::SeqMachine;
use kp_until::{Index, Part};
use kp_until_run::Contents;

/// Which words of a file are printed.
#[derive(Clone, Copy)]
enum Keep {
    All,
    NotZero,
    Changed,
}

/// Appends the state at the end of a run: the parts that are chosen, or what differs from the state of a machine at the start.
pub(crate) fn put_state(
    out: &mut Vec<u8>,
    layout: &Layout<'_>,
    first: &SeqMachine<'_>,
    last: &Contents<'_>,
    only: &Option<Vec<Part>>,
) -> Result<(), NoMemory>
    requires first { first.now.job ≡ layout.now }
    requires last { last.now.job ≡ layout.now }
    requires only { IfSome only.now (λ parts. All (IsPart layout.now) parts.items) }
    ensures { OnOk result (out.new.items ≡ out.old.items ++ state_text layout.now (state first.now) (state last.now) (option_map (λ parts. parts.items) only.now)) }
{
    for t in 0..layout.target_count() {
        put_target(out, layout, first, last, only, t)?;
    }
    Ok(())
}

// The same for one target.
fn put_target(
    out: &mut Vec<u8>,
    layout: &Layout<'_>,
    first: &SeqMachine<'_>,
    last: &Contents<'_>,
    only: &Option<Vec<Part>>,
    t: u32,
) -> Result<(), NoMemory>
    requires first { first.now.job ≡ layout.now }
    requires last { last.now.job ≡ layout.now }
    requires only { IfSome only.now (λ parts. All (IsPart layout.now) parts.items) }
    requires target { t < length (targets_of layout.now.decls) }
    ensures { OnOk result (out.new.items ≡ out.old.items ++ target_text layout.now (state first.now) (state last.now) (option_map (λ parts. parts.items) only.now) t) }
{
    match only {
        Some(parts) => put_parts(out, layout, first, last, t, parts.as_slice()),
        None => put_changed(out, layout, first, last, t),
    }
}

// What differs from the start.
fn put_changed(
    out: &mut Vec<u8>,
    layout: &Layout<'_>,
    first: &SeqMachine<'_>,
    last: &Contents<'_>,
    t: u32,
) -> Result<(), NoMemory>
    requires first { first.now.job ≡ layout.now }
    requires last { last.now.job ≡ layout.now }
    requires target { t < length (targets_of layout.now.decls) }
    ensures { OnOk result (out.new.items ≡ out.old.items ++ changed_text (target layout.now t) (state first.now t) (state last.now t)) }
{
    if layout.is_register(t) {
        put_register(out, layout, last, t)
    } else {
        let words = 1u32 << layout.address(t);
        put_words(out, layout, Keep::Changed, first, last, t, 0, words)
    }
}

// The parts of a target.
fn put_parts(
    out: &mut Vec<u8>,
    layout: &Layout<'_>,
    first: &SeqMachine<'_>,
    last: &Contents<'_>,
    t: u32,
    parts: &[Part],
) -> Result<(), NoMemory>
    requires first { first.now.job ≡ layout.now }
    requires last { last.now.job ≡ layout.now }
    requires target { t < length (targets_of layout.now.decls) }
    requires parts { All (IsPart layout.now) parts.now }
    ensures { OnOk result (out.new.items ≡ out.old.items ++ parts_text t (target layout.now t) (state last.now t) parts.now) }
{
    for part in parts {
        put_part(out, layout, first, last, t, *part)?;
    }
    Ok(())
}

// A part, if it is one of this target.
fn put_part(
    out: &mut Vec<u8>,
    layout: &Layout<'_>,
    first: &SeqMachine<'_>,
    last: &Contents<'_>,
    t: u32,
    part: Part,
) -> Result<(), NoMemory>
    requires first { first.now.job ≡ layout.now }
    requires last { last.now.job ≡ layout.now }
    requires target { t < length (targets_of layout.now.decls) }
    requires part { IsPart layout.now part }
    ensures { OnOk result (out.new.items ≡ out.old.items ++ part_text t (target layout.now t) (state last.now t) part) }
{
    if part.target != t {
        return Ok(());
    }
    let words = 1u32 << layout.address(t);
    match part.index {
        Index::Whole if layout.is_register(t) => put_register(out, layout, last, t),
        Index::Whole => put_words(out, layout, Keep::NotZero, first, last, t, 0, words),
        Index::One(a) => put_words(out, layout, Keep::All, first, last, t, a, 1),
        Index::Between(a, b) => put_words(out, layout, Keep::All, first, last, t, a, b + 1 - a),
        Index::Others => Ok(()),
    }
}

// A register.
#[tactic(auto, unfolding(kp_report::specs::Texts::register_value, kp_report::specs::Texts::ending_of), using(std::proofs::Common::append_assoc))]
fn put_register(
    out: &mut Vec<u8>,
    layout: &Layout<'_>,
    last: &Contents<'_>,
    t: u32,
) -> Result<(), NoMemory>
    requires last { last.now.job ≡ layout.now }
    requires target { t < length (targets_of layout.now.decls) }
    ensures { OnOk result (out.new.items ≡ out.old.items ++ register_text (target layout.now t) (state last.now t)) }
{
    out.extend_from_slice(name_of(layout.job().decls.as_slice(), t))?;
    out.extend_from_slice(b" = ")?;
    put_value(out, last.value(t, 0))?;
    out.extend_from_slice(b"\n")?;
    Ok(())
}

// The words of a file from an address on, of which some are kept.
fn put_words(
    out: &mut Vec<u8>,
    layout: &Layout<'_>,
    keep: Keep,
    first: &SeqMachine<'_>,
    last: &Contents<'_>,
    t: u32,
    from: u32,
    count: u32,
) -> Result<(), NoMemory>
    requires first { first.now.job ≡ layout.now }
    requires last { last.now.job ≡ layout.now }
    requires span { HasSpan layout.now t from count }
    ensures { OnOk result (out.new.items ≡ out.old.items ++ kept_lines (target layout.now t) (keep_of keep (state first.now t) (state last.now t)) (state last.now t) from count) }
{
    for k in 0..count {
        put_kept(out, layout, keep, first, last, t, from + k)?;
    }
    Ok(())
}

// A word of a file, if it is kept.
fn put_kept(
    out: &mut Vec<u8>,
    layout: &Layout<'_>,
    keep: Keep,
    first: &SeqMachine<'_>,
    last: &Contents<'_>,
    t: u32,
    a: u32,
) -> Result<(), NoMemory>
    requires first { first.now.job ≡ layout.now }
    requires last { last.now.job ≡ layout.now }
    requires word { HasWord layout.now t a }
    ensures { OnOk result (out.new.items ≡ out.old.items ++ kept_line (target layout.now t) (keep_of keep (state first.now t) (state last.now t)) (state last.now t) a) }
{
    let value = last.value(t, a);
    if is_kept(keep, first.value(t, a), value) {
        put_word(out, name_of(layout.job().decls.as_slice(), t), a, value)
    } else {
        Ok(())
    }
}

fn is_kept(keep: Keep, first: Bits, value: Bits) -> bool
    ensures { result ≡ keeps keep first.value value.value }
{
    match keep {
        Keep::All => true,
        Keep::NotZero => value.value() != 0,
        Keep::Changed => value.value() != first.value(),
    }
}

// A word of a file.
#[tactic(auto, unfolding(kp_report::specs::Texts::word_value, kp_report::specs::Texts::ending_of), using(std::proofs::Common::append_assoc))]
fn put_word(out: &mut Vec<u8>, name: &[u8], address: u32, value: Bits) -> Result<(), NoMemory>
    ensures { OnOk result (out.new.items ≡ out.old.items ++ word_line name.now address value None) }
{
    out.extend_from_slice(name)?;
    out.extend_from_slice(b"[")?;
    put_number(out, u64::from(address))?;
    out.extend_from_slice(b"] = ")?;
    put_value(out, value)?;
    out.extend_from_slice(b"\n")?;
    Ok(())
}

/// The name of a target.
pub(crate) fn name_of(decls: &[Decl], target: u32) -> &[u8]
    requires { target < length (targets_of decls.now) }
    ensures { result.now ≡ (get_or (targets_of decls.now) target no_slot).name }
{
    let mut left = target;
    for decl in decls {
        let here = targets_in(decl);
        if left < here {
            return name_in(decl);
        }
        left -= here;
    }
    &[]
}

// The name that a declaration of a target declares.
fn name_in(decl: &Decl) -> &[u8]
    requires { targets_in decl.now ≡ 1 }
    ensures { result.now ≡ (get_or (targets_of (decl.now ∷ [])) 0 no_slot).name }
{
    match decl {
        Decl::Reg(n, _, _) | Decl::File(n, _, _) => n.name.bytes(),
        _ => &[],
    }
}
