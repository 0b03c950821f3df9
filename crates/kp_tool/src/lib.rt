//! The top call: from the arguments of a command line and a source to a status and a sink.
//!
//! `carry_out` is the list of commands. Each has a module of its own (`gen` is in `generate.rt`), with a function of its name that goes from the
//! input to the text: parse and check all rules, compute what is to be written, which gets the allocator and no sink, and `finish`, which gets the
//! sink and no allocator. From there on only the sink can fail. `specs/Ends.antt` says how a command ends.
//!
//! `specs/Promises.antt` defines what is promised of each command, first of all of `pipe`, in terms of `specs/Headline.antt` and `specs/Agreeing.antt`.
//! `specs/Due.antt` defines the specified outcome of a call: one status and one text for the arguments and the bytes of the source. `laws` shows that
//! the promises follow from the specified outcome alone.
#![tactic(auto)]

mod asm;
mod check;
mod commands;
mod debug;
mod equiv;
mod failure;
mod generate;
pub mod laws;
mod netlist;
mod outcome;
mod pipe;
pub mod processors;
mod read;
mod seq;
mod sim;
mod timing;
mod vcd;
mod watch;

ghost use Rattle.std.specs.Prelude.{◌≡◌, ◌≢◌, ◌++◌, map, string_bytes, List, ℕ, true, false, None, Some, IfSome};
ghost use Rattle.kp_base.specs.Causes.{Rose};
ghost use Rattle.kp_base.specs.Refusal.{e_rule};
ghost use Rattle.kp_words.specs.{Commands.command_of, Commands.reads_input, declared.commands.Command.Command};
ghost use Rattle.kp_report.specs.Texts.{refusal_line};
ghost use Rattle.kp_tool.specs.{Saying.Says, Due.Due, Due.IsDue, Due.IsFinal, Due.Completes, Due.Begins, Due.Between, Promises.Promises, Ends.Ends, Ends.EndsAt};
ghost use Rattle.kp_tool.specs.inner.Failures.{end_status};

use crate::commands::carry_out;
use crate::failure::{Failure, Stop};
use crate::laws::what_is_promised_follows;
use crate::outcome::{BadWords, finish};
use kp_base::{Place, ReadAll, Refusal, Sink, Source, read_all};
use kp_report::write_refusal;
use kp_words::Command;
use std::alloc::Global;

/// Carries out a command line: reads the source if the command needs it, writes the text to the sink and returns the status. The status is 3 for a
/// fault of the source, 4 for a fault of the sink, 5 for out of memory, and otherwise that of the specified outcome: 0, 1 (arguments not accepted), 2
/// (a rule of the language is violated), 6 (a rule of Verilog is violated) or 7 (a difference).
pub fn tool<S: Source, K: Sink>(alloc: Global, words: &[String], source: &mut S, sink: &mut K) -> u8
    // Any status but 3, 4 and 5 is the specified one, and the specified text for all bytes that were left in the source was written.
    ensures due { IsFinal result → Completes (map string_bytes words.now) (S.left source.old) (S.left source.new)
        (K.held sink.old) (K.held sink.new) result }

    // A command that reads nothing leaves the source unchanged, and so do arguments that are no command.
    ensures unread { reads_input (command_of (map string_bytes words.now)) ≡ false → source.new ≡ source.old }

    // A fault only if the source or the sink failed in this call, and out of memory only with nothing written.
    ensures read_fault { result ≡ 3 → Rose (S.faults source.old) (S.faults source.new) × (sink.new ≡ sink.old) }
    ensures write_fault { result ≡ 4 → Rose (K.faults sink.old) (K.faults sink.new) × Begins (map string_bytes words.now)
        (S.left source.old) (S.left source.new) (K.held sink.old) (K.held sink.new) }
    ensures no_memory { result ≡ 5 → sink.new ≡ sink.old }

    // If the contents of the source and the sink are known and neither failed, the outcome is the specified one, with its complete text, unless out
    // of memory.
    ensures complete { ¬ Rose (S.faults source.old) (S.faults source.new) → ¬ Rose (K.faults sink.old) (K.faults sink.new)
        → result ≢ 5 → IfSome (S.left source.old) (λ input. IfSome (K.held sink.old) (λ before.
        (text : List ℕ) × Due (map string_bytes words.now) input result text × (K.held sink.new ≡ Some (before ++ text)))) }

    // Status 1 exactly if the arguments are not accepted.
    ensures bad_words { result ≡ 1 → command_of (map string_bytes words.now) ≡ None }
    ensures bad_words_only { command_of (map string_bytes words.now) ≡ None → IsFinal result → result ≡ 1 }

    // What is promised of the command, by the status, for the bytes that were read and those that were written: `specs/Promises.antt`. For `pipe` it
    // is the headline: what was written implements the job, and every run of it is correct.
    ensures promises { (command : Command) → command_of (map string_bytes words.now) ≡ Some command → IsFinal result
        → Between (S.left source.old) (S.left source.new) (K.held sink.old) (K.held sink.new) (Promises command result) }
{
    what_is_promised_follows();
    status_of(ended(alloc, words, source, sink))
}

// The status of an end.
fn status_of(end: Result<u8, Stop>) -> u8
    ensures { result ≡ end_status end }
{
    match end {
        Ok(status) => status,
        Err(stop) => stop.status(),
    }
}

// Carries out a command line, and writes the line of the rule that its input violates, if it violates one.
fn ended<S: Source, K: Sink>(
    alloc: Global,
    words: &[String],
    source: &mut S,
    sink: &mut K,
) -> Result<u8, Stop>
    ensures ends { EndsAt K.held K.faults (Rose (S.faults source.old) (S.faults source.new))
        (IsDue (map string_bytes words.now) (S.left source.old) (S.left source.new)) sink.old sink.new result }
    ensures unread { reads_input (command_of (map string_bytes words.now)) ≡ false → source.new ≡ source.old }
{
    match run(alloc, words, source, sink) {
        Ok(status) => Ok(status),
        Err(Failure::Refused(refusal)) => refuse(2, refusal, sink),
        Err(Failure::Misread(refusal)) => refuse(6, refusal, sink),
        Err(Failure::Stopped(stop)) => Err(stop),
    }
}

// Writes the line of a violated rule.
fn refuse<K: Sink>(status: u8, refusal: Refusal, sink: &mut K) -> Result<u8, Stop>
    ensures { EndsAt K.held K.faults ⊥ (Says status (refusal_line refusal)) sink.old sink.new result }
{
    match write_refusal(refusal, sink) {
        Ok(()) => Ok(status),
        Err(_) => Err(Stop::WriteFault),
    }
}

// Parses the arguments, reads the source if the command needs it, and carries the command out.
fn run<S: Source, K: Sink>(
    alloc: Global,
    words: &[String],
    source: &mut S,
    sink: &mut K,
) -> Result<u8, Failure>
    ensures ends { Ends K.held K.faults (Rose (S.faults source.old) (S.faults source.new))
        (IsDue (map string_bytes words.now) (S.left source.old) (S.left source.new)) sink.old sink.new result }
    ensures unread { reads_input (command_of (map string_bytes words.now)) ≡ false → source.new ≡ source.old }
{
    let command = match Command::of(alloc, words)? {
        None => return finish(BadWords, sink),
        Some(command) => command,
    };
    match command {
        Command::Generate(_, _) => carry_out(alloc, command, &[], sink),
        Command::OnJob(_)
        | Command::Assemble
        | Command::Read
        | Command::Watch(_)
        | Command::Compare
        | Command::Debug => over_source(alloc, command, source, sink),
    }
}

// Reads the source, and carries the command out over its bytes.
fn over_source<S: Source, K: Sink>(
    alloc: Global,
    command: Command,
    source: &mut S,
    sink: &mut K,
) -> Result<u8, Failure>
    requires { reads_input (Some command) ≡ true }
    ensures { (words : List (List ℕ)) → command_of words ≡ Some command → Ends K.held K.faults (Rose (S.faults source.old) (S.faults source.new))
        (IsDue words (S.left source.old) (S.left source.new)) sink.old sink.new result }
{
    match read_all(alloc, source) {
        Ok(input) => carry_out(alloc, command, &input, sink),
        Err(ReadAll::TooLong) => Err(Failure::Refused(too_long())),
        Err(ReadAll::Fault) => Err(Failure::Stopped(Stop::ReadFault)),
        Err(ReadAll::NoMemory) => Err(Failure::Stopped(Stop::NoMemory)),
    }
}

// The refusal of an input that is too long.
fn too_long() -> Refusal
    ensures { result ≡ e_rule 3 (record { line = 1; col = 1 }) }
{
    Refusal::e(3, Place::START)
}
