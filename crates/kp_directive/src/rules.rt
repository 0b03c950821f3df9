// Rules D1 and D2.
ghost use Rattle.std.specs.Prelude.{◌≡◌, ℕ, List, ◌≤◌, ◌<◌, ◌^◌, All, IfErr, IfOk, IfSome, None, length, map, string_bytes, true};
ghost use Rattle.std.specs.List.{list_all, list_any};
ghost use Rattle.kp_base.specs.Characters.{is_word as is_word_byte};
ghost use Rattle.kp_base.specs.Lines.{IsWithin, piece_of};
ghost use Rattle.kp_directive.specs.Directives.{AreWithin};
ghost use Rattle.kp_directive.specs.Faults.{IsIn, Yields, again_after, broken_after, fault_word, broken_in as first_broken, directive_of as first_directive, has_length, has_verb as has_this_verb, is_again, is_name, may_repeat as repeats, names_after, names_broken, no_name, stage_names as names_given};

use crate::directive::{Directive, DirectiveFault, DirectivesRefused, Verb};
use crate::reader::{bytes_of, directives_in};
use kp_base::{NoMemory, Run, is_word, words_in};
use std::alloc::Global;
use std::str::from_utf8;

/// The first directive that violates D1: it begins with another word, or with `stages` or `label` as an earlier one does.
pub fn broken_in(directives: &[Directive]) -> Option<DirectiveFault>
    ensures fault { result ≡ first_broken directives.now }
    ensures within { (text : List ℕ) → All (AreWithin text) directives.now → IfSome result (λ fault. IsWithin text (fault_word fault)) }
{
    for i in 0..directives.len() {
        let fault = broken_after(&directives[..i], directives[i]);
        if fault.is_some() {
            return fault;
        }
    }
    None
}

fn broken_after(before: &[Directive], directive: Directive) -> Option<DirectiveFault>
    ensures word { IfSome result (λ fault. fault_word fault ≡ directive.word) }
    ensures fault { result ≡ broken_after before.now directive.verb directive.word }
{
    match directive.verb {
        Some(verb) => again_after(before, verb, directive.word),
        None => Some(DirectiveFault::Unknown(directive.word)),
    }
}

// The same for a directive with this word.
fn again_after(before: &[Directive], verb: Verb, word: Run) -> Option<DirectiveFault>
    ensures word { IfSome result (λ fault. fault_word fault ≡ word) }
    ensures fault { result ≡ again_after before.now verb word }
{
    if is_again(before, verb) {
        Some(DirectiveFault::Again(word))
    } else {
        None
    }
}

// Whether an earlier directive begins with the same word, which may not repeat.
fn is_again(before: &[Directive], verb: Verb) -> bool
    ensures { result ≡ is_again before.now verb }
{
    !may_repeat(verb) && is_there(before, verb)
}

fn is_there(before: &[Directive], verb: Verb) -> bool
    ensures { result ≡ list_any (has_this_verb verb) before.now }
{
    before.iter().any(|d| has_verb(verb, d))
}

fn may_repeat(verb: Verb) -> bool
    ensures { result ≡ repeats verb }
{
    matches!(verb, Verb::Expect)
}

fn has_verb(verb: Verb, directive: &Directive) -> bool
    ensures { result ≡ has_this_verb verb directive.now }
{
    match (verb, directive.verb) {
        (Verb::Stages, Some(Verb::Stages))
        | (Verb::Label, Some(Verb::Label))
        | (Verb::Expect, Some(Verb::Expect)) => true,
        _ => false,
    }
}

/// The first directive with a word.
pub fn directive_of(verb: Verb, directives: &[Directive]) -> Option<Directive>
    ensures within { (text : List ℕ) → All (AreWithin text) directives.now → IfSome result (AreWithin text) }
    ensures directive { result ≡ first_directive verb directives.now }
{
    for directive in directives {
        if has_verb(verb, directive) {
            return Some(*directive);
        }
    }
    None
}

/// The names of the stages that the directives of a text up to an offset give, for a machine of so many stages, or none.
///
/// Errors: D1 as `broken_in` has it; D2 at `stages`, unless it has a name for each stage, or at the first word that isn't the name of a stage. The only
/// other error is out of memory.
#[tactic(auto, unfolding(crate::specs::Faults::stage_names))]
pub fn stage_names(
    alloc: Global,
    text: &[u8],
    end: u32,
    stages: u8,
) -> Result<Vec<String>, DirectivesRefused>
    requires end { end ≤ length text.now }
    requires few { length text.now < 2 ^ 32 }
    ensures names { Yields result (names_given text.now end stages) (λ names. map string_bytes names.items) }
    ensures within { IfErr result (IsIn text.now) }
{
    let directives = directives_in(alloc, text, end)?;
    match broken_in(directives.as_slice()) {
        Some(fault) => Err(DirectivesRefused::Rule(fault)),
        None => names_after(
            alloc,
            text,
            stages,
            directive_of(Verb::Stages, directives.as_slice()),
        ),
    }
}

// The names after `stages`, if there is such a directive.
fn names_after(
    alloc: Global,
    text: &[u8],
    stages: u8,
    directive: Option<Directive>,
) -> Result<Vec<String>, DirectivesRefused>
    requires within { IfSome directive (AreWithin text.now) }
    requires few { length text.now < 2 ^ 32 }
    ensures names { Yields result (names_after text.now stages directive) (λ names. map string_bytes names.items) }
    ensures within { IfErr result (IsIn text.now) }
{
    let Some(directive) = directive else {
        return Ok(Vec::new(alloc));
    };
    let names = words_in(alloc, text, directive.rest)?;
    match names_broken(text, directive.word, stages, names.as_slice()) {
        Some(fault) => Err(DirectivesRefused::Rule(fault)),
        None => Ok(strings_of(alloc, text, names.as_slice())?),
    }
}

// What the words after `stages` violate.
fn names_broken(text: &[u8], word: Run, stages: u8, names: &[Run]) -> Option<DirectiveFault>
    requires word { IsWithin text.now word }
    requires names { All (IsWithin text.now) names.now }
    ensures fault { result ≡ names_broken word stages (map (piece_of text.now) names.now) }
    ensures within { IfSome result (λ fault. IsWithin text.now (fault_word fault)) }
{
    if names.len() == usize::from(stages) {
        no_name(text, names)
    } else {
        Some(DirectiveFault::Count(word, names.len(), stages))
    }
}

// The first of these words that isn't the name of a stage.
#[tactic(auto, using(crate::proofs::Ranges::run_again))]
fn no_name(text: &[u8], names: &[Run]) -> Option<DirectiveFault>
    requires { All (IsWithin text.now) names.now }
    ensures fault { result ≡ no_name (map (piece_of text.now) names.now) }
    ensures within { IfSome result (λ fault. IsWithin text.now (fault_word fault)) }
{
    for name in names {
        if !is_name(bytes_of(text, *name)) {
            return Some(DirectiveFault::Name(*name));
        }
    }
    None
}

fn is_name(name: &[u8]) -> bool
    ensures { result ≡ is_name name.now }
{
    has_length(name) && is_all_word(name)
}

fn has_length(name: &[u8]) -> bool
    ensures { result ≡ has_length name.now }
{
    0 < name.len() && name.len() <= 8
}

fn is_all_word(name: &[u8]) -> bool
    ensures { result ≡ list_all is_word_byte name.now }
{
    name.iter().all(|byte| is_word(*byte))
}

// Names as strings.
fn strings_of(alloc: Global, text: &[u8], names: &[Run]) -> Result<Vec<String>, NoMemory>
    requires within { All (IsWithin text.now) names.now }
    requires names { no_name (map (piece_of text.now) names.now) ≡ None }
    ensures { IfOk result (λ strings. map string_bytes strings.items ≡ map (λ name. name.bytes) (map (piece_of text.now) names.now)) }
{
    let mut strings = Vec::new(alloc);
    for name in names {
        strings.push(string_of(alloc, bytes_of(text, *name))?)?;
    }
    Ok(strings)
}

#[tactic(auto, using(crate::proofs::Letters::name_is_text))]
fn string_of(alloc: Global, name: &[u8]) -> Result<String, NoMemory>
    requires { is_name name.now ≡ true }
    ensures { IfOk result (λ string. string_bytes string ≡ name.now) }
{
    match from_utf8(name) {
        Ok(text) => Ok(String::from_str(alloc, text)?),
        Err(_) => unreachable!(),
    }
}
