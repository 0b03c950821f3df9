// The arguments of a command line.
ghost use Rattle.std.specs.Prelude.{◌≡◌, map, string_bytes, option_and_then, IfOk, Ok, None, true};
ghost use Rattle.std.specs.List.{list_any};
ghost use Rattle.kp_command_line.specs.Words.{matched_seen};
ghost use Rattle.kp_words.specs.{inner.Matching.command_matched, Commands.is_barred};
ghost use Rattle.kp_words.specs.Commands.{plain_command, counted_command, seeded_command, command_of, count_of, seed_of};

use kp_base::NoMemory;
use kp_bits::read_number;
use kp_command_line::{Matched, begins_with_dash, match_words};
use std::alloc::Global;

/// The names of the commands, each with the greatest number of words after it.
const NAMES: [(&'static str, usize); 12] = [
    ("seq", 1),
    ("check", 0),
    ("sim", 1),
    ("vcd", 1),
    ("timing", 1),
    ("pipe", 0),
    ("asm", 0),
    ("read", 0),
    ("watch", 1),
    ("equiv", 0),
    ("debug", 0),
    ("gen", 2),
];

/// The greatest number of instructions or cycles.
const MOST_COUNT: u32 = 100_000;

/// A command that reads only a job.
#[derive(Clone, Copy)]
pub enum JobCommand {
    /// `seq N`: the state after N instructions.
    Seq(u32),
    /// `check`: one line of counts.
    Check,
    /// `sim N`: the rows of N cycles of the pipelined machine, with the counts and the state after them.
    Sim(u32),
    /// `vcd N`: the changes of the pipelined machine over N cycles, as a VCD dump (IEEE 1364-2005, clause 18).
    Vcd(u32),
    /// `timing N`: the timeline of N cycles: which instruction is in each stage, which stages wait for data, and which move their instruction on.
    Timing(u32),
    /// `pipe`: the pipelined machine as a Verilog module.
    Pipe,
}

/// A command, by what it reads. Counts are at most 100,000.
#[derive(Clone, Copy)]
pub enum Command {
    /// Reads a job.
    OnJob(JobCommand),
    /// `asm`: reads an assembler program.
    Assemble,
    /// `read`: reads a Verilog text.
    Read,
    /// `watch N`: reads a job and a Verilog text after it, and runs its netlist over N cycles.
    Watch(u32),
    /// `equiv`: reads a job and two Verilog texts after it, and compares their netlists.
    Compare,
    /// `debug`: reads a job and a script after it, which steps the pipelined machine forward and back.
    Debug,
    /// `gen G N`: reads nothing, and runs the generated job of number G over N cycles.
    Generate(u64, u32),
}

impl Command {
    /// The command of an accepted list of arguments, and `None` for any other list. The only error is out of memory; a list with an argument that
    /// begins with `-` or is `help` has none.
    pub fn of(alloc: Global, words: &[String]) -> Result<Option<Self>, NoMemory>
        ensures command { IfOk result (λ command. command ≡ command_of (map string_bytes words.now)) }
        ensures barred { list_any (λ word. is_barred (string_bytes word)) words.now ≡ true → result ≡ Ok None }
    {
        if has_barred(words) {
            return Ok(None);
        }
        let matched = match_words(alloc, "kp", NAMES.as_slice(), 0, words)?;
        match matched {
            Some(matched) => Ok(Self::of_matched(&matched)),
            None => Ok(None),
        }
    }

    // The command of a name and the words after it.
    fn of_matched(matched: &Matched<'_>) -> Option<Self>
        ensures { result ≡ command_matched (matched_seen matched.now) }
    {
        let name = matched.name?;
        match matched.rest {
            [] => Self::plain(name),
            [count] => Self::counted(name, count.as_bytes()),
            [seed, count] => Self::seeded(name, seed.as_bytes(), count.as_bytes()),
            _ => None,
        }
    }

    // The command with this name, a seed and a count.
    fn seeded(name: &str, seed: &[u8], count: &[u8]) -> Option<Self>
        ensures { result ≡ seeded_command name.now (seed_of seed.now) (count_of count.now) }
    {
        let seed = seed_of(seed)?;
        let count = count_of(count)?;
        match name {
            "gen" => Some(Command::Generate(seed, count)),
            _ => None,
        }
    }

    // The command with this name and a count.
    fn counted(name: &str, count: &[u8]) -> Option<Self>
        ensures { result ≡ option_and_then (counted_command name.now) (count_of count.now) }
    {
        let count = count_of(count)?;
        match name {
            "seq" => Some(Command::OnJob(JobCommand::Seq(count))),
            "sim" => Some(Command::OnJob(JobCommand::Sim(count))),
            "vcd" => Some(Command::OnJob(JobCommand::Vcd(count))),
            "timing" => Some(Command::OnJob(JobCommand::Timing(count))),
            "watch" => Some(Command::Watch(count)),
            _ => None,
        }
    }

    // The command with this name and no further arguments.
    fn plain(name: &str) -> Option<Self>
        ensures { result ≡ plain_command name.now }
    {
        match name {
            "check" => Some(Command::OnJob(JobCommand::Check)),
            "pipe" => Some(Command::OnJob(JobCommand::Pipe)),
            "asm" => Some(Command::Assemble),
            "read" => Some(Command::Read),
            "equiv" => Some(Command::Compare),
            "debug" => Some(Command::Debug),
            _ => None,
        }
    }
}

// One of the arguments is rejected before the match.
fn has_barred(words: &[String]) -> bool
    ensures { result ≡ list_any (λ word. is_barred (string_bytes word)) words.now }
{
    words.iter().any(|word| is_barred(word.as_str()))
}

// The argument begins with `-`, or is `help`, so it is in no command.
fn is_barred(word: &str) -> bool
    ensures { result ≡ is_barred word.now }
{
    begins_with_dash(word.as_bytes()) || word == "help"
}

// The number that 1 to 20 decimal digits denote, up to 2^64 - 1.
#[tactic(auto, unfolding(crate::specs::Commands::seed_of))]
fn seed_of(word: &[u8]) -> Option<u64>
    ensures { result ≡ seed_of word.now }
{
    if word.len() > 20 {
        return None;
    }
    read_number(word)
}

// The same, up to 100,000.
#[tactic(auto, unfolding(crate::specs::Commands::count_of))]
fn count_of(word: &[u8]) -> Option<u32>
    ensures { result ≡ count_of word.now }
{
    let number = seed_of(word)?;
    if number <= u64::from(MOST_COUNT) {
        Some(number as u32)
    } else {
        None
    }
}
