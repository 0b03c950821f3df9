//! The words of a command line, as `clap` matches them: the name of a subcommand and words after it, or words without a name.
//!
//! `specs/Words.antt` defines what is matched. `specs/inner/Programs.antt` says what `clap` is given, and `proofs/Parses.antt` what it finds and refuses then.
//! It makes no texts: help, usage and flags are read before, so no word that is matched is a flag.
#![tactic(auto)]

ghost use Rattle.std.specs.Prelude.{◌≡◌, IfOk, map, string_bytes, option_map, slice_get, false, []};
ghost use Rattle.std.specs.List.{list_any};
ghost use Rattle.clap.specs.{Words.app_of, Words.shape_of, Words.with_rule, Words.with_subcommand, Walk.is_empty};
ghost use Rattle.clap.specs.declared.builder.command.Command.TheViews.{out-Command};
ghost use Rattle.kp_command_line.specs.Words.{begins_with_dash, file_in, file_seen, has_flag, input_named, is_flag, matched_in, matched_seen, name_seen, source_in};
ghost use Rattle.kp_command_line.specs.inner.Programs.{named_by, program_of, shape_for, with_words, words_rule};

use clap::error::ErrorKind;
use clap::{Arg, ArgAction};
use kp_base::NoMemory;
use std::alloc::{AllocError, Global};

/// The words of a command line, as they are matched.
#[derive(Clone, Copy)]
pub struct Matched<'w> {
    /// The name of a subcommand, or `None` if the first word is none.
    pub name: Option<&'w str>,
    /// The words after the name, or all words.
    pub rest: &'w [String],
}

/// What is read.
#[derive(Clone, Copy)]
pub struct Input<'w> {
    /// The name of a file, or `None` for standard input.
    pub file: Option<&'w String>,
}

impl<'w> Input<'w> {
    /// The input of a word. `None` for a flag.
    pub fn named(word: &'w String) -> Option<Self>
        ensures { option_map file_seen result ≡ input_named (string_bytes word.now) }
    {
        if is_flag(word.as_bytes()) {
            None
        } else {
            Some(Input {
                file: source_in(Some(word)),
            })
        }
    }

    // That of the first of the words after a name.
    fn of(matched: &Matched<'w>) -> Self
        ensures { file_seen result ≡ source_in (slice_get (matched_seen matched.now).rest 0) }
    {
        Input {
            file: source_in(matched.rest.first()),
        }
    }
}

/// The words of a program whose subcommands have these names, each with the greatest number of words after it: a name that the words begin with and those
/// after it, or at most `most` words without a name. `None` for other words. The only error is out of memory.
pub fn match_words<'w>(
    alloc: Global,
    program: &'static str,
    names: &[(&'static str, usize)],
    most: usize,
    words: &'w [String],
) -> Result<Option<Matched<'w>>, NoMemory>
    requires { has_flag (map string_bytes words.now) ≡ false }
    ensures { IfOk result (λ matched. option_map matched_seen matched ≡ matched_in (map name_seen names.now) most (map string_bytes words.now)) }
{
    match command(alloc, program, names, most)?.try_get_matches_from(words) {
        Ok(matches) => Ok(Some(named(matches.subcommand_name(), words))),
        Err(error) if error.kind() == ErrorKind::OutOfMemory => Err(NoMemory),
        Err(_) => Ok(None),
    }
}

/// The input of at most one word, which is no flag. `None` for other words. The only error is out of memory.
pub fn match_file<'w>(
    alloc: Global,
    program: &'static str,
    words: &'w [String],
) -> Result<Option<Input<'w>>, NoMemory>
    ensures { IfOk result (λ input. option_map file_seen input ≡ file_in (map string_bytes words.now)) }
{
    if has_flag(words) {
        return Ok(None);
    }
    let matched = match_words(alloc, program, &[], 1, words)?;
    match matched {
        Some(matched) => Ok(Some(Input::of(&matched))),
        None => Ok(None),
    }
}

/// The file that a word names. `None` for standard input, which is `-` or no word.
pub fn source_in<'w>(word: Option<&'w String>) -> Option<&'w String>
    ensures { option_map (λ name. string_bytes name.now) result ≡ source_in (option_map (λ name. string_bytes name.now) word.entry) }
{
    match word {
        Some(name) if name.as_str() == "-" => None,
        _ => word,
    }
}

/// One of the words is a flag.
pub fn has_flag(words: &[String]) -> bool
    ensures { result ≡ list_any (λ word. is_flag (string_bytes word)) words.now }
{
    words.iter().any(|word| is_flag(word.as_bytes()))
}

/// The word is a flag: `-` with more after it.
pub fn is_flag(word: &[u8]) -> bool
    ensures { result ≡ is_flag word.now }
{
    matches!(word, [b'-', _, ..])
}

/// The word begins with `-`.
pub fn begins_with_dash(word: &[u8]) -> bool
    ensures { result ≡ begins_with_dash word.now }
{
    matches!(word, [b'-', ..])
}

// The words, of which the first is the name, if there is one.
fn named<'w>(name: Option<&'w str>, words: &'w [String]) -> Matched<'w>
    ensures { matched_seen result ≡ named_by (option_map (λ name. name.now) name.entry) (map string_bytes words.now) }
{
    let rest = match name {
        Some(_) => words.get(1..).unwrap_or(&[]),
        None => words,
    };
    Matched { name, rest }
}

// What `clap` is given: the program with its subcommands, and without texts of its own.
fn command<'a>(
    alloc: Global,
    program: &'a str,
    names: &[(&'static str, usize)],
    most: usize,
) -> Result<clap::Command<'a>, AllocError>
    ensures { IfOk result (λ command. app_of command ≡ program_of program.entry.now most (is_empty names.now) (map name_seen names.now)) }
{
    let bare = clap::Command::new(alloc, program)
        .no_binary_name(true)
        .disable_help_flag(true)
        .disable_help_subcommand(true);
    let mut command = taking(alloc, bare, most)?;
    for name in names {
        command = with_name(alloc, command, name)?;
    }
    Ok(command)
}

// The command with a subcommand of this name, and the greatest number of words after it.
fn with_name<'a>(
    alloc: Global,
    command: clap::Command<'a>,
    name: &(&'static str, usize),
) -> Result<clap::Command<'a>, AllocError>
    ensures { IfOk result (λ more. app_of more ≡ with_subcommand (app_of command.entry) (shape_for (name_seen name.now))) }
{
    let (name, most) = *name;
    command.subcommand(taking(alloc, clap::Command::new(alloc, name), most)?)
}

// The command, which takes at most this many words.
fn taking<'a>(
    alloc: Global,
    command: clap::Command<'a>,
    most: usize,
) -> Result<clap::Command<'a>, AllocError>
    requires rules { (shape_of command).rules ≡ [] }
    requires local { (out-Command command).has_globals ≡ false }
    ensures app { IfOk result (λ more. app_of more ≡ record (app_of command.entry) { top = with_words most (app_of command.entry).top }) }
    ensures local { IfOk result (λ more. (out-Command more).has_globals ≡ false) }
{
    if most == 0 {
        return Ok(command);
    }
    with_argument(alloc, command, most)
}

// The command with an argument of at most this many words.
fn with_argument<'a>(
    alloc: Global,
    command: clap::Command<'a>,
    most: usize,
) -> Result<clap::Command<'a>, AllocError>
    requires { (out-Command command).has_globals ≡ false }
    ensures app { IfOk result (λ more. app_of more ≡ with_rule (app_of command.entry) (words_rule most)) }
    ensures local { IfOk result (λ more. (out-Command more).has_globals ≡ false) }
{
    let words = Arg::new(alloc, "words")
        .action(ArgAction::Set)
        .num_args(0..=most);
    command.arg(words)
}
