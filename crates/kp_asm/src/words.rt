// The words of a program.
ghost use Rattle.std.specs.Prelude.{◌≡◌, ◌≤◌, ◌+◌, ◌-◌, ◌^◌, ◌<◌, length, vec_len, IfOk, OnOk, [], if◌then◌else◌};
ghost use Rattle.kp_base.specs.Check.{Gives};
ghost use Rattle.kp_asm.specs.{Faults.Reads, Tokens.bytes_of};
ghost use Rattle.kp_asm.specs.inner.Listing.{is_instruction, instructions_in};
ghost use Rattle.kp_asm.specs.Program.{declared, used_label, target_of, word_at, repeated, item_read, words_from, program_of, assembled};

use crate::encode::word_of;
use crate::fault::{Misread, ProgramFault, broken, place_in, refusal_of};
use crate::item::{Instruction, Item, Label};
use crate::labels::Labels;
use crate::lexer::tokens_of;
use crate::listing::read_lines;
use crate::mnemonic::Mnemonic;
use crate::token::{Token, bytes_of};
use kp_base::Refused;
use std::alloc::Global;

/// The words of a program, word i for address 4i. Errors: the first violated rule, and out of memory.
#[tactic(auto, unfolding(crate::specs::Program::assembled))]
pub fn assemble(alloc: Global, text: &[u8]) -> Result<Vec<u32>, Refused>
    requires { length text.now ≤ 2 ^ 32 - 2 }
    ensures words { Gives result (assembled text.now) (λ words. words.items) }
    ensures most { IfOk result (λ words. vec_len words ≤ 1024) }
{
    match read_program(alloc, text) {
        Ok(words) => Ok(words),
        Err(Misread::Found(finding)) => Err(Refused::Rule(refusal_of(finding))),
        Err(Misread::NoMemory) => Err(Refused::NoMemory),
    }
}

/// The words of a program, word i for address 4i.
///
/// Errors: the first violation, which is of A1 at any token, else of A2 to A5 and A7 for the lines in text order, else of A6 for the labels in text order;
/// and out of memory.
#[tactic(auto, unfolding(crate::specs::Program::program_of))]
pub fn read_program(alloc: Global, text: &[u8]) -> Result<Vec<u32>, Misread>
    requires { length text.now ≤ 2 ^ 32 - 2 }
    ensures words { Reads result (program_of text.now) (λ words. words.items) }
    ensures most { IfOk result (λ words. vec_len words ≤ 1024) }
{
    let tokens = tokens_of(alloc, text)?;
    let program = read_lines(alloc, text, &tokens)?;
    let labels = Labels::of(alloc, text, program.items())?;
    words_of(alloc, text, &labels, program.items())
}

// The words of these items.
fn words_of(
    alloc: Global,
    text: &[u8],
    labels: &Labels,
    items: &[Item],
) -> Result<Vec<u32>, Misread>
    requires { length text.now ≤ 2 ^ 32 - 2 }
    ensures words { Reads result (words_from text.now labels.now [] items.now) (λ words. words.items) }
    ensures count { IfOk result (λ words. vec_len words ≡ instructions_in items.now) }
{
    let mut words = Vec::new(alloc);
    for item in items {
        add_word(alloc, text, labels, *item, &mut words)?;
    }
    Ok(words)
}

// Adds the word of an item, if it has one.
fn add_word(
    alloc: Global,
    text: &[u8],
    labels: &Labels,
    item: Item,
    words: &mut Vec<u32>,
) -> Result<(), Misread>
    requires { length text.now ≤ 2 ^ 32 - 2 }
    ensures words { Reads result (item_read text.now labels.now words.old.items item) (λ _. words.new.items) }
    ensures count { OnOk result (vec_len words.new ≡ vec_len words.old + (if is_instruction item then 1 else 0)) }
{
    match item {
        Item::Label(label) => {
            let first = labels.find(alloc, bytes_of(text, label.name))?;
            if let Some(fault) = repeated(text, label.name.start, first) {
                return Err(Misread::Found(broken(text, fault, label.name.start)));
            }
        }
        Item::Instruction(instruction) => {
            let target = target_of(alloc, text, labels, used_label(instruction))?;
            words.push(word_at(text, instruction, target))?;
        }
    }
    Ok(())
}

// How a declaration at this offset violates A6, unless it is the first one of its name.
fn repeated(text: &[u8], start: u32, first: Option<Label>) -> Option<ProgramFault>
    requires { length text.now ≤ 2 ^ 32 - 2 }
    ensures { result ≡ repeated text.now start first }
{
    match first {
        Some(label) if label.name.start == start => None,
        Some(label) => Some(ProgramFault::LabelAgain {
            first: place_in(text, label.name.start),
        }),
        None => Some(ProgramFault::LabelNowhere),
    }
}

// The operand that is the name of a label.
fn used_label(instruction: Instruction) -> Option<Token>
    ensures { result ≡ used_label instruction }
{
    match instruction.mnemonic {
        Mnemonic::Beqz | Mnemonic::Bnez => Some(instruction.second),
        Mnemonic::J | Mnemonic::Jal => Some(instruction.first),
        _ => None,
    }
}

// The address of the label that is used, or 0 if none is.
fn target_of(
    alloc: Global,
    text: &[u8],
    labels: &Labels,
    used: Option<Token>,
) -> Result<u32, Misread>
    requires { length text.now ≤ 2 ^ 32 - 2 }
    ensures { Reads result (target_of text.now labels.now used) (λ target. target) }
{
    let Some(token) = used else {
        return Ok(0);
    };
    match labels.find(alloc, bytes_of(text, token))? {
        Some(label) => Ok(label.address),
        None => {
            let fault = ProgramFault::LabelNowhere;
            Err(Misread::Found(broken(text, fault, token.start)))
        }
    }
}

fn word_at(text: &[u8], instruction: Instruction, target: u32) -> u32
    ensures { result ≡ word_at text.now instruction target }
{
    word_of(
        instruction.mnemonic,
        bytes_of(text, instruction.first),
        bytes_of(text, instruction.second),
        bytes_of(text, instruction.third),
        target,
        instruction.address,
    )
}
