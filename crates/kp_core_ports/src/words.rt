// The tokens of a line.
ghost use Rattle.std.specs.Prelude.{◌≡◌, ◌≤◌, ◌++◌, length, codes, decimal, IfOk};
ghost use Rattle.std.specs.Char.{is_digit};
ghost use Rattle.std.specs.List.{list_all};
ghost use Rattle.kp_bits.specs.Literals.{is_number};
ghost use Rattle.kp_base.specs.Lines.{IsWithin, piece_of};
ghost use Rattle.kp_core_ports.specs.Ports.{begins_comment, uncommented, verb_of, stage_of, pipe_label};

use crate::port::{PipeVerb, TargetVerb, Verb};
use itoa::Buffer;
use kp_base::{NoMemory, Run};
use kp_bits::read_number;
use std::alloc::Global;

/// The bytes of a run.
pub fn bytes_of(text: &[u8], run: Run) -> &[u8]
    requires { IsWithin text.now run }
    ensures { result.now ≡ (piece_of text.now run).bytes }
{
    &text[run.at as usize..run.end as usize]
}

/// A line without its comment.
pub fn uncommented(text: &[u8], line: Run) -> Run
    requires { IsWithin text.now line }
    ensures piece { piece_of text.now result ≡ record { at = line.at; bytes = uncommented (piece_of text.now line).bytes } }
    ensures within { IsWithin text.now result }
{
    for i in line.at..line.end {
        if begins_comment(&text[i as usize..line.end as usize]) {
            return Run {
                at: line.at,
                end: i,
            };
        }
    }
    line
}

fn begins_comment(bytes: &[u8]) -> bool
    ensures { result ≡ begins_comment bytes.now }
{
    match bytes {
        [first, second, ..] => *first == b'/' && *second == b'/',
        _ => false,
    }
}

/// What a line with this first token asks for, if it is one of the words.
pub fn verb_of(word: &[u8]) -> Option<Verb>
    ensures { result ≡ verb_of word.now }
{
    if word == b"show".as_slice() {
        Some(Verb::Target(TargetVerb::Show))
    } else if word == b"peek".as_slice() {
        Some(Verb::Target(TargetVerb::Peek))
    } else if word == b"load".as_slice() {
        Some(Verb::Target(TargetVerb::Load))
    } else if word == b"probe".as_slice() {
        Some(Verb::Pipe(PipeVerb::Probe))
    } else if word == b"next".as_slice() {
        Some(Verb::Pipe(PipeVerb::Next))
    } else if word == b"commit".as_slice() {
        Some(Verb::Commit)
    } else {
        None
    }
}

/// The stage that digits denote, or 0 for a number of more than 64 bits.
pub fn stage_of(digits: &[u8]) -> u64
    ensures { result ≡ stage_of digits.now }
{
    match read_number(digits) {
        Some(stage) => stage,
        None => 0,
    }
}

/// Whether a word is a number: one or more digits.
pub fn is_number(word: &[u8]) -> bool
    ensures { result ≡ is_number word.now }
{
    !word.is_empty() && are_digits(word)
}

fn are_digits(word: &[u8]) -> bool
    ensures { result ≡ list_all (λ c. is_digit c 10) word.now }
{
    word.iter().all(|c| c.is_ascii_digit())
}

/// What follows the prefix in the name of a port of a pipe: its name with the stage.
#[tactic(auto, using(std::proofs::Common::append_assoc))]
pub fn pipe_label(alloc: Global, name: &[u8], stage: u64) -> Result<Vec<u8>, NoMemory>
    ensures { IfOk result (λ label. label.items ≡ pipe_label name.now stage) }
{
    let mut digits = Buffer::new();
    let mut label = Vec::from_slice(alloc, name)?;
    label.extend_from_slice(b"_")?;
    label.extend_from_slice(digits.format(stage).as_bytes())?;
    Ok(label)
}
