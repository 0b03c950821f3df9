// The words of a command line, and what they ask for.
ghost use Rattle.std.specs.Prelude.{◌≡◌, map, string_bytes, option_map, true, IfOk, Some, None, if◌then◌else◌};
ghost use Rattle.std.specs.List.{list_any};
ghost use Rattle.kp_command_line.specs.Words.{file_seen};
ghost use Rattle.kp_runner.specs.Words.{asked, asked_for, first_settings, limit_of, is_help, is_version, options_from, settings_seen, with_input, with_option, words_asked};

use kp_base::NoMemory;
use kp_bits::read_number;
use kp_command_line::match_file;
use std::alloc::Global;

/// The greatest limit.
const MOST_CYCLES: u64 = 1_000_000_000;

/// The limit where none is given.
const CYCLES: u32 = 10_000_000;

/// How a job is run.
#[derive(Drop)]
pub struct Settings<'w> {
    /// The conditions; without any it is `halt`.
    pub until: Vec<&'w String>,
    /// The greatest number of cycles.
    pub limit: u32,
    /// The registers and words that are printed.
    pub only: Option<&'w String>,
    /// No state is printed.
    pub quiet: bool,
    /// The expectation files.
    pub expect: Vec<&'w String>,
}

/// What the words of a command line ask for.
#[derive(Drop)]
pub enum Request<'w> {
    /// The words are not accepted.
    BadWords,
    Help,
    Version,
    /// A run of the job of a file, or of standard input.
    Run(Settings<'w>, Option<&'w String>),
}

impl<'w> Request<'w> {
    /// What the words after the program's name ask for. The only error is out of memory.
    pub fn of(alloc: Global, words: &'w [String]) -> Result<Self, NoMemory>
        ensures { IfOk result (λ request. asked request ≡ asked_for (map string_bytes words.now)) }
    {
        if has_help(words) {
            return Ok(Request::Help);
        }
        if has_version(words) {
            return Ok(Request::Version);
        }
        let request = Request::of_words(alloc, words)?;
        Ok(request)
    }

    // The same where no word asks for help or the version.
    fn of_words(alloc: Global, words: &'w [String]) -> Result<Self, NoMemory>
        ensures { IfOk result (λ request. asked request ≡ words_asked (map string_bytes words.now)) }
    {
        match words {
            [first, rest @ ..] if first.as_str() == "run" => {
                Request::of_options(alloc, Settings::new(alloc), rest)
            }
            _ => Ok(Request::BadWords),
        }
    }

    // A run with these settings and options, and at most a file after them.
    fn of_options(
        alloc: Global,
        settings: Settings<'w>,
        words: &'w [String],
    ) -> Result<Self, NoMemory>
        ensures { IfOk result (λ request. asked request ≡ options_from (settings_seen settings.entry) (map string_bytes words.now)) }
    {
        let [word, more @ ..] = words else {
            return Request::of_file(alloc, settings, words);
        };
        let quiet = word.as_str() == "--quiet";
        match more {
            [] if quiet => Request::of_file(alloc, settings.silent(), more),
            [] => Request::of_file(alloc, settings, words),
            [_, ..] if quiet => Request::of_options(alloc, settings.silent(), more),
            [value, after @ ..] => {
                let mut settings = settings;
                if settings.set(word.as_str(), value)? {
                    Request::of_options(alloc, settings, after)
                } else {
                    Ok(Request::BadWords)
                }
            }
        }
    }

    // A run with these settings of the job of a file.
    fn of_file(alloc: Global, settings: Settings<'w>, words: &'w [String]) -> Result<Self, NoMemory>
        ensures { IfOk result (λ request. asked request ≡ with_input (settings_seen settings.entry) (map string_bytes words.now)) }
    {
        match match_file(alloc, "kprun", words)? {
            Some(input) => Ok(Request::Run(settings, input.file)),
            None => Ok(Request::BadWords),
        }
    }
}

impl<'w> Settings<'w> {
    fn new(alloc: Global) -> Self
        ensures { settings_seen result ≡ first_settings }
    {
        Settings {
            until: Vec::new(alloc),
            limit: CYCLES,
            only: None,
            quiet: false,
            expect: Vec::new(alloc),
        }
    }

    // The same, with no state printed.
    fn silent(self) -> Self
        ensures { settings_seen result ≡ record (settings_seen self.entry) { quiet = true } }
    {
        let mut settings = self;
        settings.quiet = true;
        settings
    }

    // Sets an option that has a value. Whether there is such an option, and the value is one for it.
    fn set(&mut self, word: &str, value: &'w String) -> Result<bool, NoMemory>
        ensures { IfOk result (λ known. with_option (settings_seen self.old) word.now (string_bytes value.now) ≡ (if known then Some (settings_seen self.new) else None)) }
    {
        match word {
            "--until" => self.until.push(value)?,
            "--limit" => {
                let Some(limit) = limit_of(value.as_bytes()) else {
                    return Ok(false);
                };
                self.limit = limit;
            }
            "--only" => self.only = Some(value),
            "--expect" => self.expect.push(value)?,
            _ => return Ok(false),
        }
        Ok(true)
    }
}

// The number of cycles that digits denote.
fn limit_of(word: &[u8]) -> Option<u32>
    ensures { result ≡ limit_of word.now }
{
    let limit = read_number(word)?;
    if limit <= MOST_CYCLES {
        Some(limit as u32)
    } else {
        None
    }
}

// One of the words asks for help.
fn has_help(words: &[String]) -> bool
    ensures { result ≡ list_any (λ word. is_help (string_bytes word)) words.now }
{
    words.iter().any(|word| is_help(word.as_str()))
}

// One of the words asks for the version.
fn has_version(words: &[String]) -> bool
    ensures { result ≡ list_any (λ word. is_version (string_bytes word)) words.now }
{
    words.iter().any(|word| is_version(word.as_str()))
}

fn is_help(word: &str) -> bool
    ensures { result ≡ is_help word.now }
{
    word == "--help" || word == "-h"
}

fn is_version(word: &str) -> bool
    ensures { result ≡ is_version word.now }
{
    word == "--version" || word == "-V"
}
