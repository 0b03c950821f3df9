// Labels, as they are named.
ghost use Rattle.std.specs.Prelude.{◌≡◌, ◌<◌, ◌^◌, All, IfErr, IfOk, IfSome, length, map, option_map};
ghost use Rattle.kp_base.specs.Lines.{IsWithin, piece_of};
ghost use Rattle.kp_machine.specs.{Slots.number_of, Slots.pipes_of, Slots.result_named, Slots.targets_of, Words.HasWord, Words.target as target_at};
ghost use Rattle.kp_until.specs.Parts.{IsPart, part_of, single};
ghost use Rattle.kp_seq.specs.Computed.{HasComputed};
ghost use Rattle.kp_diagram_labels.specs.Labels.{HasShown, IsIn, IsLabel, Yields, computed_named, label_named, labels_from, labels_in, result_with, shown_by, unseparated};
ghost use Rattle.kp_diagram_labels.specs.declared.label.LabelsRefused.TheVariants as refused;

use kp_ast::{Decl, ResultDecl};
use kp_base::{NoMemory, Run, words_in};
use kp_design::{Layout, target_number};
use kp_directive::bytes_of;
use kp_seq::Computed;
use kp_until::{Index, Part, part_of};
use std::alloc::{AllocError, AllocFailed, Global};

/// What a label shows.
#[derive(Clone, Copy)]
pub enum Shown {
    /// A word of the state: the number of its target, and its address, which is 0 for a register.
    Word(u32, u32),
    /// What an instruction computes.
    Computed(Computed),
}

/// A label: where its name is in a text, and what it shows.
#[derive(Clone, Copy)]
pub struct Label {
    pub name: Run,
    pub shown: Shown,
}

/// Why no labels are returned: a word that isn't one, or out of memory.
#[derive(Clone, Copy)]
pub enum LabelsRefused {
    Word(Run),
    NoMemory,
}

impl From<NoMemory> for LabelsRefused {
    ghost from_gives = { λ _ e. e ≡ refused.NoMemory };

    fn from(_: NoMemory) -> Self {
        LabelsRefused::NoMemory
    }
}

impl From<AllocError> for LabelsRefused {
    ghost from_gives = { λ _ e. e ≡ refused.NoMemory };

    fn from(_: AllocError) -> Self {
        LabelsRefused::NoMemory
    }
}

impl<T: Drop> From<AllocFailed<T>> for LabelsRefused {
    ghost from_gives = { λ _ e. e ≡ refused.NoMemory };

    fn from(_: AllocFailed<T>) -> Self {
        LabelsRefused::NoMemory
    }
}

/// The labels that the words of a run of a text name, which are separated by blanks or commas.
pub fn labels_in(
    alloc: Global,
    layout: &Layout<'_>,
    text: &[u8],
    run: Run,
) -> Result<Vec<Label>, LabelsRefused>
    requires within { IsWithin text.now run }
    requires few { length text.now < 2 ^ 32 }
    ensures labels { Yields result (λ labels. labels.items) (labels_in layout.now text.now run) }
    ensures fits { IfOk result (λ labels. All (IsLabel layout.now text.now) labels.items) }
    ensures within { IfErr result (IsIn text.now) }
{
    let plain = unseparated(alloc, text)?;
    let bytes = plain.as_slice();
    let words = words_in(alloc, bytes, run)?;
    labels_of(alloc, layout, bytes, words.as_slice())
}

// A text with blanks in the place of commas.
fn unseparated(alloc: Global, text: &[u8]) -> Result<Vec<u8>, NoMemory>
    ensures { IfOk result (λ plain. plain.items ≡ map unseparated text.now) }
{
    let mut plain = Vec::new(alloc);
    for byte in text {
        plain.push(blank_for(*byte))?;
    }
    Ok(plain)
}

fn blank_for(byte: u8) -> u8
    ensures { result ≡ unseparated byte }
{
    if byte == b',' { b' ' } else { byte }
}

// The labels that words name.
fn labels_of(
    alloc: Global,
    layout: &Layout<'_>,
    text: &[u8],
    words: &[Run],
) -> Result<Vec<Label>, LabelsRefused>
    requires { All (IsWithin text.now) words.now }
    ensures labels { Yields result (λ labels. labels.items) (labels_from layout.now (map (piece_of text.now) words.now)) }
    ensures fits { IfOk result (λ labels. All (IsLabel layout.now text.now) labels.items) }
    ensures within { IfErr result (IsIn text.now) }
{
    let mut labels = Vec::new(alloc);
    for word in words {
        match label_named(layout, text, *word) {
            Some(label) => labels.push(label)?,
            None => return Err(LabelsRefused::Word(*word)),
        }
    }
    Ok(labels)
}

// The label that a word names, if it does.
fn label_named(layout: &Layout<'_>, text: &[u8], word: Run) -> Option<Label>
    requires { IsWithin text.now word }
    ensures label { result ≡ label_named layout.now (piece_of text.now word) }
    ensures fits { IfSome result (IsLabel layout.now text.now) }
{
    let shown = shown_by(layout, bytes_of(text, word))?;
    Some(Label { name: word, shown })
}

// What a name denotes: a single word of the state, or else what an instruction computes.
fn shown_by(layout: &Layout<'_>, name: &[u8]) -> Option<Shown>
    ensures shown { result ≡ shown_by layout.now name.now (part_of layout.now name.now) }
    ensures there { IfSome result (HasShown layout.now) }
{
    match part_of(layout, name) {
        Ok(part) => Some(Shown::Word(part.target, address_of(layout, part)?)),
        Err(_) => Some(Shown::Computed(computed_named(layout, name)?)),
    }
}

// The pipe or the result that a name denotes.
fn computed_named(layout: &Layout<'_>, name: &[u8]) -> Option<Computed>
    ensures computed { result ≡ computed_named layout.now name.now }
    ensures there { IfSome result (HasComputed layout.now) }
{
    let decls = layout.job().decls.as_slice();
    let pipe = pipe_number(decls, name);
    if pipe < layout.pipe_count() as usize {
        return Some(Computed::Pipe(pipe as u32));
    }
    let result = result_named(decls, name)?;
    result_with(layout, target_number(decls, &result.target.name))
}

// The number of the first pipe with this name, or the number of pipes if none has it.
fn pipe_number(decls: &[Decl], name: &[u8]) -> usize
    ensures { result ≡ number_of (pipes_of decls.now) name.now }
{
    let mut p = 0;
    for decl in decls {
        if let Decl::Pipe(named, _) = decl {
            if name == named.name.bytes() {
                return p;
            }
            p += 1;
        }
    }
    p
}

// The first result with this name.
fn result_named<'d>(decls: &'d [Decl], name: &[u8]) -> Option<&'d ResultDecl>
    ensures { option_map (λ r. r.now) result ≡ result_named decls.now name.now }
{
    for decl in decls {
        if let Decl::Target(result) = decl {
            if name == result.name.name.bytes() {
                return Some(result);
            }
        }
    }
    None
}

// The result of this target, if there is one.
fn result_with(layout: &Layout<'_>, target: usize) -> Option<Computed>
    ensures computed { result ≡ result_with layout.now target }
    ensures there { IfSome result (HasComputed layout.now) }
{
    if target < layout.target_count() as usize {
        Some(Computed::Result(target as u32))
    } else {
        None
    }
}

// The address of a single word: that of a register is 0.
fn address_of(layout: &Layout<'_>, part: Part) -> Option<u32>
    requires { IsPart layout.now part }
    ensures address { result ≡ single (target_at layout.now part.target) part.index }
    ensures there { IfSome result (HasWord layout.now part.target) }
{
    match part.index {
        Index::Whole if layout.is_register(part.target) => Some(0),
        Index::One(address) => Some(address),
        _ => None,
    }
}
