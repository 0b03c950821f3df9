// The rules of the sections.
ghost use Rattle.std.specs.Prelude.{◌≡◌, [], IfOk, OnOk, map, take, unwrap_or};
ghost use Rattle.kp_base.specs.{First.Answers, First.first, Findings.findings, Findings.with_answers};
ghost use Rattle.kp_width.specs.Declarations.{name_of};
ghost use Rattle.kp_stage.specs.Start.{first_address};
ghost use Rattle.kp_image.specs.Faults.{refusal_of};
ghost use Rattle.kp_image.specs.Sections.{broken_unless, found, declared_by, declared_in, literal_of, no_word, values_of, address_of, target_of, entry_of, step_of, stall_of, sample_of, input_of, asked_by, sections_of};

use crate::fault::SectionFault;
use kp_ast::{Decl, Image, Inputs, Job, Lit, Name, NameKind, Named, Num, Stalls};
use kp_base::{Finding, Findings, List, NoMemory, Place, Refusal, Refused};
use kp_bits::LiteralFault;
use std::alloc::Global;

// What is declared under a name: its kind, the place of the name, the width of its words, and how many it has.
#[derive(Clone, Copy)]
pub(crate) struct Declared {
    kind: NameKind,
    at: Place,
    width: u64,
    words: u64,
}

/// The violations in the sections of a job, up to `most`, in text order: of each entry the first. The only error is out of memory.
#[tactic(auto, using(kp_base::proofs::Collecting::first_of_all))]
pub fn section_findings(
    alloc: Global,
    job: &Job,
    most: usize,
) -> Result<Findings<Finding<SectionFault>>, NoMemory>
    ensures { IfOk result (λ f. f.found ≡ take most (findings (asked_by job.now))) }
{
    let mut notes = Findings::new(alloc, most);
    note_sections(&mut notes, job)?;
    Ok(notes)
}

// Whether the sections violate no rule, or the first one that they violate.
#[tactic(auto, using(crate::proofs::Unbroken::verdict))]
pub(crate) fn check(alloc: Global, job: &Job) -> Result<(), Refused>
    ensures { Answers result (first (sections_of job.now).asked) (λ _. Unit {0}) }
{
    let found = section_findings(alloc, job, 1)?;
    match found.as_slice().first().copied() {
        Some(finding) => Err(Refused::Rule(refusal_of(finding))),
        None => Ok(()),
    }
}

fn refusal_of(finding: Finding<SectionFault>) -> Refusal
    ensures { result ≡ refusal_of finding }
{
    Refusal::e(finding.fault.rule(), finding.place)
}

#[tactic(auto, unfolding(crate::specs::Sections::asked_by), using(kp_base::proofs::Collecting::append))]
fn note_sections(notes: &mut Findings<Finding<SectionFault>>, job: &Job) -> Result<(), NoMemory>
    ensures { OnOk result (notes.new ≡ with_answers notes.old (asked_by job.now)) }
{
    let decls = job.decls.as_slice();
    note_image(notes, decls, entries(&job.image))?;
    note_stalls(notes, job.stages.value, entries(&job.stalls))?;
    note_inputs(notes, decls, entries(&job.inputs))
}

// The entries of a section: none if the job doesn't have it.
pub(crate) fn entries<T>(section: &Option<List<T>>) -> &[T]
    ensures { result.now ≡ unwrap_or section.now [] }
{
    match section {
        Some(entries) => entries.as_slice(),
        None => &[],
    }
}

// The first address that an entry writes.
pub(crate) fn first_address(e: &Image) -> u64
    ensures { result ≡ first_address e.now }
{
    match e.address {
        Some(n) => n.value,
        None => 0,
    }
}

fn note_image(
    notes: &mut Findings<Finding<SectionFault>>,
    decls: &[Decl],
    entries: &[Image],
) -> Result<(), NoMemory>
    ensures { OnOk result (notes.new ≡ with_answers notes.old (map (entry_of decls.now) entries.now)) }
{
    for e in entries {
        notes.note(of_entry(decls, e))?;
    }
    Ok(())
}

fn note_stalls(
    notes: &mut Findings<Finding<SectionFault>>,
    stages: u64,
    entries: &[Stalls],
) -> Result<(), NoMemory>
    ensures { OnOk result (notes.new ≡ with_answers notes.old (map (stall_of stages) entries.now)) }
{
    for e in entries {
        notes.note(of_stall(stages, e))?;
    }
    Ok(())
}

fn note_inputs(
    notes: &mut Findings<Finding<SectionFault>>,
    decls: &[Decl],
    entries: &[Inputs],
) -> Result<(), NoMemory>
    ensures { OnOk result (notes.new ≡ with_answers notes.old (map (input_of decls.now) entries.now)) }
{
    for e in entries {
        notes.note(of_input(decls, e))?;
    }
    Ok(())
}

#[tactic(auto, unfolding(crate::specs::Sections::entry_of))]
fn of_entry(decls: &[Decl], e: &Image) -> Option<Finding<SectionFault>>
    ensures { result ≡ entry_of decls.now e.now }
{
    let name = e.name.at;
    let Some(declared) = declared_in(decls, &e.name.name) else {
        return found(SectionFault::Unknown, name);
    };
    let target = of_target(name, declared, e.address);
    let address = of_address(name, declared.words, e.address);
    let values = of_values(name, declared, first_address(e), e.values.as_slice());
    target.or(address.or(values))
}

// The declaration of a name.
fn declared_in(decls: &[Decl], name: &Name) -> Option<Declared>
    ensures { result ≡ declared_in decls.now name.now }
{
    for decl in decls {
        if name_of(decl).name == *name {
            return Some(declared_by(decl));
        }
    }
    None
}

fn name_of(decl: &Decl) -> &Named
    ensures { result.now ≡ name_of decl.now }
{
    match decl {
        Decl::Reg(name, _, _)
        | Decl::File(name, _, _)
        | Decl::Pipe(name, _)
        | Decl::Hint(name, _, _)
        | Decl::Sample(name, _, _) => name,
        Decl::Target(result) => &result.name,
        Decl::Func(func) => &func.name,
    }
}

fn declared_by(decl: &Decl) -> Declared
    ensures { result ≡ declared_by decl.now }
{
    let at = name_of(decl).at;
    let (kind, width, words) = match decl {
        Decl::Reg(_, width, _) => (NameKind::Reg, width.value, 1),
        Decl::File(_, width, address) => {
            let bits = address.value.min(16);
            (NameKind::File(bits as u8), width.value, 1 << bits)
        }
        Decl::Pipe(_, width) => (NameKind::Pipe, width.value, 1),
        Decl::Hint(_, width, _) => (NameKind::Hint, width.value, 1),
        Decl::Target(result) => (NameKind::Target, result.width.value, 1),
        Decl::Func(func) => (NameKind::Func, func.width.value, 1),
        Decl::Sample(_, width, _) => (NameKind::Sample, width.value, 1),
    };
    Declared {
        kind,
        at,
        width,
        words,
    }
}

fn of_target(name: Place, declared: Declared, address: Option<Num>) -> Option<Finding<SectionFault>>
    ensures { result ≡ target_of name declared.kind declared.at address }
{
    let at = declared.at;
    match (declared.kind, address) {
        (NameKind::Reg, None) | (NameKind::File(_), Some(_)) => None,
        (NameKind::Reg, Some(_)) => found(SectionFault::NeedlessAddress { declared: at }, name),
        (NameKind::File(_), None) => found(SectionFault::NoAddress { declared: at }, name),
        (kind, _) => found(SectionFault::Empty { kind, declared: at }, name),
    }
}

fn of_address(name: Place, words: u64, address: Option<Num>) -> Option<Finding<SectionFault>>
    ensures { result ≡ address_of name words address }
{
    let Num { value: address, at } = address?;
    let fault = SectionFault::AddressBeyond {
        name,
        words,
        address,
    };
    broken_unless(address < words, fault, at)
}

// The literals for the words from one on.
fn of_values(
    name: Place,
    declared: Declared,
    first: u64,
    values: &[Lit],
) -> Option<Finding<SectionFault>>
    ensures { result ≡ values_of name declared first values.now }
{
    let mut address = first;
    for lit in values {
        if address >= declared.words {
            return found(no_word(name, declared), lit.at);
        }
        let answer = of_literal(name, declared, lit);
        if answer.is_some() {
            return answer;
        }
        address += 1;
    }
    None
}

// A literal where there is no word for it.
fn no_word(name: Place, declared: Declared) -> SectionFault
    ensures { result ≡ no_word declared.kind name declared.words }
{
    match declared.kind {
        NameKind::Reg => SectionFault::SecondStart { name },
        _ => SectionFault::WordBeyond {
            name,
            words: declared.words,
        },
    }
}

// Checks that a literal is a word, and has the width of its destination.
fn of_literal(name: Place, declared: Declared, lit: &Lit) -> Option<Finding<SectionFault>>
    ensures { result ≡ literal_of name declared lit.now }
{
    let Declared { kind, width, .. } = declared;
    let value = lit.literal.value;
    match lit.literal.fit() {
        Ok(word) => {
            let found = word.width();
            let fault = SectionFault::ValueWidth {
                name,
                kind,
                width,
                found,
                value,
            };
            broken_unless(u64::from(found) == width, fault, lit.at)
        }
        Err(LiteralFault::TooBig) => {
            let width = lit.literal.width;
            found(SectionFault::LiteralValue { width, value }, lit.at)
        }
        Err(_) => {
            let width = lit.literal.width;
            found(SectionFault::LiteralWidth { width }, lit.at)
        }
    }
}

fn of_stall(stages: u64, e: &Stalls) -> Option<Finding<SectionFault>>
    ensures { result ≡ stall_of stages e.now }
{
    let Num { value: found, at } = e.stage;
    let stage = broken_unless(found < stages, SectionFault::NoStage { found, stages }, at);
    stage.or(of_step(SectionFault::StallStep, e.step))
}

fn of_step(fault: SectionFault, step: Option<Num>) -> Option<Finding<SectionFault>>
    ensures { result ≡ step_of fault step }
{
    let Num { value, at } = step?;
    broken_unless(value != 0, fault, at)
}

#[tactic(auto, unfolding(crate::specs::Sections::input_of))]
fn of_input(decls: &[Decl], e: &Inputs) -> Option<Finding<SectionFault>>
    ensures { result ≡ input_of decls.now e.now }
{
    let name = e.name.at;
    let Some(declared) = declared_in(decls, &e.name.name) else {
        return found(SectionFault::UnknownSample, name);
    };
    let value = of_literal(name, declared, &e.value);
    let step = of_step(SectionFault::InputStep, e.step);
    of_sample(name, declared).or(value.or(step))
}

fn of_sample(name: Place, declared: Declared) -> Option<Finding<SectionFault>>
    ensures { result ≡ sample_of name declared.kind declared.at }
{
    match declared.kind {
        NameKind::Sample => None,
        kind => found(
            SectionFault::NoSample {
                kind,
                declared: declared.at,
            },
            name,
        ),
    }
}

fn broken_unless(holds: bool, fault: SectionFault, place: Place) -> Option<Finding<SectionFault>>
    ensures { result ≡ broken_unless holds fault place }
{
    if holds {
        return None;
    }
    found(fault, place)
}

fn found(fault: SectionFault, place: Place) -> Option<Finding<SectionFault>>
    ensures { result ≡ found fault place }
{
    Some(Finding { place, fault })
}
