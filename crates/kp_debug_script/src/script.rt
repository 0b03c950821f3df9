// The script after a job.
ghost use Rattle.std.specs.Prelude.{◌≡◌, ◌≤◌, ◌+◌, ◌-◌, ◌^◌, ◌<◌, true, false, [], length, get_or, take, IfOk, IfErr, OnOk, IfSome};
ghost use Rattle.kp_base.specs.{Check.Gives, Lines.is_break, Lines.piece_of, Lines.words_of, Lines.IsWithin};
ghost use Rattle.kp_debug_script.specs.{Faults.Reads, Scripts.script_in, Scripts.script_of, Scripts.command_in, inner.Reading.IsAdded, inner.Reading.IsBroken, inner.Reading.IsFaultIn};

use crate::command::Command;
use crate::fault::{Fault, Misread, finding_of, refusal_of};
use crate::line::command_in;
use kp_ast::Decl;
use kp_base::{Refused, Run, words_in};
use std::alloc::Global;

/// The commands of the script that starts at an offset of a text, for a job with these declarations. Errors: the first violated rule, and out of memory.
pub fn read_script(
    alloc: Global,
    text: &[u8],
    from: u32,
    decls: &[Decl],
) -> Result<Vec<Command>, Refused>
    requires within { from ≤ length text.now }
    requires fits { length text.now ≤ 2 ^ 32 - 2 }
    requires few { length decls.now < 2 ^ 32 }
    ensures { Gives result (script_of decls.now text.now from) (λ commands. commands.items) }
{
    match commands_of(alloc, text, from, decls) {
        Ok(commands) => Ok(commands),
        Err(Misread::Found(finding)) => Err(Refused::Rule(refusal_of(finding))),
        Err(Misread::NoMemory) => Err(Refused::NoMemory),
    }
}

/// The same, with the facts of the first violation.
///
/// Errors: E39 if a line doesn't have the form of a command, at its first token; E40 if a count of cycles is over 100,000, at the count; E41 if a
/// name isn't that of a register, at the name, or if a literal is no value of its width, at the literal. Of the rules that a line violates the one
/// with the lowest number is reported, and of the lines that violate one the first. The only other error is out of memory.
pub fn commands_of(
    alloc: Global,
    text: &[u8],
    from: u32,
    decls: &[Decl],
) -> Result<Vec<Command>, Misread>
    requires within { from ≤ length text.now }
    requires fits { length text.now ≤ 2 ^ 32 - 2 }
    requires few { length decls.now < 2 ^ 32 }
    ensures { Reads result (script_in decls.now text.now from) (λ commands. commands.items) }
{
    let mut commands = Vec::new(alloc);
    let end = text.len() as u32;
    read_lines(alloc, text, Run { at: from, end }, decls, &mut commands)?;
    Ok(commands)
}

// Appends the commands of the lines from an offset up to the end of the text.
fn read_lines(
    alloc: Global,
    text: &[u8],
    script: Run,
    decls: &[Decl],
    commands: &mut Vec<Command>,
) -> Result<(), Misread>
    requires order { script.at ≤ script.end }
    requires end { script.end ≡ length text.now }
    requires fits { length text.now ≤ 2 ^ 32 - 2 }
    requires few { length decls.now < 2 ^ 32 }
    requires none { commands.old.items ≡ [] }
    ensures { Reads result (script_in decls.now text.now script.at) (λ _. commands.new.items) }
{
    let mut at = script.at;
    for i in script.at..script.end {
        at = end_line(alloc, text, Run { at, end: i }, decls, commands)?;
    }
    let last = Run {
        at,
        end: script.end,
    };
    read_line(alloc, text, last, decls, commands)
}

// If the run ends at a line feed, it is a line: appends its command, if it has one, and returns the offset after the line feed, where the next line
// starts. Otherwise returns the start of the run.
fn end_line(
    alloc: Global,
    text: &[u8],
    run: Run,
    decls: &[Decl],
    commands: &mut Vec<Command>,
) -> Result<u32, Misread>
    requires order { run.at ≤ run.end }
    requires within { run.end < length text.now }
    requires fits { length text.now ≤ 2 ^ 32 - 2 }
    requires few { length decls.now < 2 ^ 32 }
    ensures goes_on { IfOk result (λ next. is_break (get_or text.now run.end 0) ≡ false → (next ≡ run.at) × (commands.new.items ≡ commands.old.items)) }
    ensures ends { IfOk result (λ next. is_break (get_or text.now run.end 0) ≡ true → (next ≡ run.end + 1) × IsAdded (command_in decls.now (words_of (piece_of text.now run))) commands.old.items commands.new.items) }
    ensures broken { IfErr result (λ e. (is_break (get_or text.now run.end 0) ≡ true) × IsBroken text.now (command_in decls.now (words_of (piece_of text.now run))) e) }
{
    if text[run.end as usize] != b'\n' {
        return Ok(run.at);
    }
    read_line(alloc, text, run, decls, commands)?;
    Ok(run.end + 1)
}

// Appends the command of a line, if it has one.
#[tactic(auto, using(crate::proofs::Faults::fault_in_text))]
fn read_line(
    alloc: Global,
    text: &[u8],
    line: Run,
    decls: &[Decl],
    commands: &mut Vec<Command>,
) -> Result<(), Misread>
    requires within { IsWithin text.now line }
    requires fits { length text.now ≤ 2 ^ 32 - 2 }
    requires few { length decls.now < 2 ^ 32 }
    ensures added { OnOk result (IsAdded (command_in decls.now (words_of (piece_of text.now line))) commands.old.items commands.new.items) }
    ensures broken { IfErr result (λ e. IsBroken text.now (command_in decls.now (words_of (piece_of text.now line))) e) }
{
    let words = words_in(alloc, text, line)?;
    let command = command_in(text, decls, words.as_slice());
    drop(words);
    add(text, command, commands)
}

// Appends a command, if there is one.
#[tactic(auto, using(crate::proofs::Turns::no_words, crate::proofs::Turns::one_command, crate::proofs::Turns::one_fault))]
fn add(
    text: &[u8],
    line: Option<Result<Command, Fault>>,
    commands: &mut Vec<Command>,
) -> Result<(), Misread>
    requires within { IfSome line (IsFaultIn text.now) }
    requires fits { length text.now ≤ 2 ^ 32 - 2 }
    ensures added { OnOk result (IsAdded line commands.old.items commands.new.items) }
    ensures broken { IfErr result (λ e. IsBroken text.now line e) }
{
    match line {
        Some(Ok(command)) => {
            commands.push(command)?;
            Ok(())
        }
        Some(Err(fault)) => Err(Misread::Found(finding_of(text, fault))),
        None => Ok(()),
    }
}
