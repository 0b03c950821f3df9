// The message on a violated rule.
ghost use Rattle.std.specs.Prelude.{◌≡◌, ◌≤◌, ◌-◌, ◌^◌, ◌++◌, IfOk, OnOk, flat_map, length};
ghost use Rattle.kp_base.specs.Lines.{IsWithin};
ghost use Rattle.kp_directive.specs.Faults.{fault_word};
ghost use Rattle.kp_directive.specs.Messages.{again, count, head, label, long, message, name, names_of, reason, sentence, unknown};

use crate::directive::DirectiveFault;
use crate::reader::bytes_of;
use itoa::Buffer;
use kp_base::{NoMemory, Place, place_of};
use std::alloc::Global;

/// The message on a directive of a text that violates a rule, after the name of the file: the place, the rule and a sentence. The only error is out of
/// memory.
pub fn message_of(alloc: Global, text: &[u8], fault: DirectiveFault) -> Result<Vec<u8>, NoMemory>
    requires within { IsWithin text.now (fault_word fault) }
    requires fits { length text.now ≤ 2 ^ 32 - 2 }
    ensures { IfOk result (λ said. said.items ≡ message text.now fault) }
{
    let mut out = Vec::new(alloc);
    let place = place_of(text, fault.word().at);
    add_head(&mut out, place, fault.number())?;
    add_sentence(&mut out, text, fault)?;
    out.extend_from_slice(b"\n")?;
    Ok(out)
}

// Appends pieces, in order.
fn add(out: &mut Vec<u8>, pieces: &[&[u8]]) -> Result<(), NoMemory>
    ensures { OnOk result (out.new.items ≡ out.old.items ++ flat_map (λ piece. piece.now) pieces.now) }
{
    for piece in pieces {
        out.extend_from_slice(piece)?;
    }
    Ok(())
}

#[tactic(auto, unfolding(crate::specs::Messages::head))]
fn add_head(out: &mut Vec<u8>, place: Place, rule: u8) -> Result<(), NoMemory>
    ensures { OnOk result (out.new.items ≡ out.old.items ++ head place rule) }
{
    let (mut number, mut line, mut col) = (Buffer::new(), Buffer::new(), Buffer::new());
    let pieces = [
        b":".as_slice(),
        line.format(place.line).as_bytes(),
        b":".as_slice(),
        col.format(place.col).as_bytes(),
        b": error D".as_slice(),
        number.format(rule).as_bytes(),
        b": ".as_slice(),
    ];
    add(out, &pieces)
}

fn add_sentence(out: &mut Vec<u8>, text: &[u8], fault: DirectiveFault) -> Result<(), NoMemory>
    requires within { IsWithin text.now (fault_word fault) }
    ensures { OnOk result (out.new.items ≡ out.old.items ++ sentence text.now fault) }
{
    let word = bytes_of(text, fault.word());
    match fault {
        DirectiveFault::Unknown(_) => add_unknown(out, word),
        DirectiveFault::Again(_) => add_again(out, word),
        DirectiveFault::Count(_, given, stages) => add_count(out, given, stages),
        DirectiveFault::Name(_) => add_name(out, word),
        DirectiveFault::Label(_) => add_label(out, word),
    }
}

#[tactic(auto, unfolding(crate::specs::Messages::unknown))]
fn add_unknown(out: &mut Vec<u8>, word: &[u8]) -> Result<(), NoMemory>
    ensures { OnOk result (out.new.items ≡ out.old.items ++ unknown word.now) }
{
    let pieces = [
        b"no directive begins with `".as_slice(),
        word,
        b"`: they are `stages`, `label`, `expect`".as_slice(),
    ];
    add(out, &pieces)
}

#[tactic(auto, unfolding(crate::specs::Messages::again))]
fn add_again(out: &mut Vec<u8>, word: &[u8]) -> Result<(), NoMemory>
    ensures { OnOk result (out.new.items ≡ out.old.items ++ again word.now) }
{
    let pieces = [
        b"there is a directive `".as_slice(),
        word,
        b"` already".as_slice(),
    ];
    add(out, &pieces)
}

#[tactic(auto, unfolding(crate::specs::Messages::count))]
fn add_count(out: &mut Vec<u8>, given: usize, stages: u8) -> Result<(), NoMemory>
    ensures { OnOk result (out.new.items ≡ out.old.items ++ count given stages) }
{
    let (mut many, mut wanted) = (Buffer::new(), Buffer::new());
    let pieces = [
        many.format(given).as_bytes(),
        names_of(given),
        wanted.format(stages).as_bytes(),
        b" stages".as_slice(),
    ];
    add(out, &pieces)
}

fn names_of(given: usize) -> &'static [u8]
    ensures { result.now ≡ names_of given }
{
    if given == 1 {
        b" name of a stage; the machine has "
    } else {
        b" names of stages; the machine has "
    }
}

// A name, and how long it is, or that it has another character.
#[tactic(auto, unfolding(crate::specs::Messages::name), using(std::proofs::Common::append_assoc))]
fn add_name(out: &mut Vec<u8>, word: &[u8]) -> Result<(), NoMemory>
    ensures { OnOk result (out.new.items ≡ out.old.items ++ name word.now) }
{
    let pieces = [
        b"the name of a stage has 1 to 8 letters, digits or `_`: `".as_slice(),
        word,
        b"`".as_slice(),
    ];
    add(out, &pieces)?;
    add_reason(out, word.len())
}

fn add_reason(out: &mut Vec<u8>, size: usize) -> Result<(), NoMemory>
    ensures { OnOk result (out.new.items ≡ out.old.items ++ reason size) }
{
    if size <= 8 {
        out.extend_from_slice(b" has others")?;
        Ok(())
    } else {
        add_long(out, size)
    }
}

#[tactic(auto, unfolding(crate::specs::Messages::long))]
fn add_long(out: &mut Vec<u8>, size: usize) -> Result<(), NoMemory>
    ensures { OnOk result (out.new.items ≡ out.old.items ++ long size) }
{
    let mut digits = Buffer::new();
    let pieces = [b" has ".as_slice(), digits.format(size).as_bytes()];
    add(out, &pieces)
}

#[tactic(auto, unfolding(crate::specs::Messages::label))]
fn add_label(out: &mut Vec<u8>, word: &[u8]) -> Result<(), NoMemory>
    ensures { OnOk result (out.new.items ≡ out.old.items ++ label word.now) }
{
    let pieces = [
        b"a label is a register, a pipe, a result or a word as `F[0]`; not `".as_slice(),
        word,
        b"`".as_slice(),
    ];
    add(out, &pieces)
}
