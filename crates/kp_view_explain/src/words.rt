// The words of `explain`.
ghost use Rattle.std.specs.Prelude.{◌≡◌, map, string_bytes, option_map, IfOk};
ghost use Rattle.kp_command_line.specs.Words.{matched_seen};
ghost use Rattle.kp_view_explain.specs.Words.{asks_help, help_follows, is_help, order_matched, order_of, order_seen, subject_in, subject_of, with_subject, with_words};

use kp_base::NoMemory;
use kp_command_line::{Matched, has_flag, match_file, match_words, source_in};
use std::alloc::Global;

/// The help of `explain`.
pub const HELP: &str =
    "Says why kp rejects an input: the rule and the place, the line, what the rule
rests on, and what helps. It is written to standard error.

usage: kpview explain [--werror] [FILE]
       kpview explain read|watch|asm|debug [FILE]

  FILE      the input; without it, or with -, standard input is read. Write
            ./read for a file named read
  --werror  warnings count as errors

The input is a job, or that of a command of kp:
  read      a Verilog text
  watch     a job, and after its end a Verilog text
  asm       an assembler program
  debug     a job, and after its end a script

status: 0 the input violates no rule, 1 wrong words, 2 it violates a rule,
3 reading failed, 4 writing failed, 5 out of memory
";

/// What an input is: a job, or the input of a command of `kp`.
#[derive(Clone, Copy)]
pub enum Subject {
    Job,
    /// Of `read`: a Verilog text.
    Verilog,
    /// Of `watch`: a job, and after its end a Verilog text.
    Watched,
    /// Of `asm`: an assembler program.
    Program,
    /// Of `debug`: a job, and after its end a script.
    Debugged,
}

/// The words that name a subject, each with the greatest number of words after it.
const SUBJECTS: [(&'static str, usize); 4] = [("read", 1), ("watch", 1), ("asm", 1), ("debug", 1)];

impl Subject {
    // The subject of a name, or a job without one.
    fn named(name: Option<&str>) -> Option<Subject>
        ensures { result ≡ subject_in (option_map (λ name. name.now) name.entry) }
    {
        match name {
            Some(name) => Subject::of(name),
            None => Some(Subject::Job),
        }
    }

    // The input of the command of `kp` with this name.
    fn of(word: &str) -> Option<Subject>
        ensures { result ≡ subject_of word.now }
    {
        if word == "read" {
            Some(Subject::Verilog)
        } else if word == "watch" {
            Some(Subject::Watched)
        } else if word == "asm" {
            Some(Subject::Program)
        } else if word == "debug" {
            Some(Subject::Debugged)
        } else {
            None
        }
    }
}

/// What `explain` is asked for: what the input is, whether warnings count as errors, and the file; `None` is standard input.
#[derive(Clone, Copy)]
pub struct Order<'w> {
    pub subject: Subject,
    pub strict: bool,
    pub file: Option<&'w String>,
}

impl<'w> Order<'w> {
    /// What the words after the program's name ask for: `explain [--werror] [FILE]`, or `explain WORD [FILE]` for the word of a command of `kp`.
    /// `None` for other words. The only error is out of memory.
    pub fn of(alloc: Global, words: &'w [String]) -> Result<Option<Self>, NoMemory>
        ensures { IfOk result (λ order. option_map order_seen order ≡ order_of (map string_bytes words.now)) }
    {
        match words {
            [word, rest @ ..] => {
                if word.as_str() == "explain" {
                    Order::with_words(alloc, rest)
                } else {
                    Ok(None)
                }
            }
            [] => Ok(None),
        }
    }

    fn with_words(alloc: Global, words: &'w [String]) -> Result<Option<Self>, NoMemory>
        ensures { IfOk result (λ order. option_map order_seen order ≡ with_words (map string_bytes words.now)) }
    {
        if let [first, rest @ ..] = words {
            if first.as_str() == "--werror" {
                let input = match_file(alloc, "kpview", rest)?;
                return match input {
                    Some(input) => Ok(Some(Order {
                        subject: Subject::Job,
                        strict: true,
                        file: input.file,
                    })),
                    None => Ok(None),
                };
            }
        }
        Order::with_subject(alloc, words)
    }

    fn with_subject(alloc: Global, words: &'w [String]) -> Result<Option<Self>, NoMemory>
        ensures { IfOk result (λ order. option_map order_seen order ≡ with_subject (map string_bytes words.now)) }
    {
        if has_flag(words) {
            return Ok(None);
        }
        let matched = match_words(alloc, "kpview", SUBJECTS.as_slice(), 1, words)?;
        match matched {
            Some(matched) => Ok(Order::of_matched(&matched)),
            None => Ok(None),
        }
    }

    fn of_matched(matched: &Matched<'w>) -> Option<Self>
        ensures { option_map order_seen result ≡ order_matched (matched_seen matched.now) }
    {
        let subject = Subject::named(matched.name)?;
        Some(Order {
            subject,
            strict: false,
            file: source_in(matched.rest.first()),
        })
    }
}

/// Whether the words after the program's name ask for the help of `explain`.
pub fn asks_help(words: &[String]) -> bool
    ensures { result ≡ asks_help (map string_bytes words.now) }
{
    match words {
        [word, rest @ ..] => word.as_str() == "explain" && help_follows(rest),
        [] => false,
    }
}

fn help_follows(words: &[String]) -> bool
    ensures { result ≡ help_follows (map string_bytes words.now) }
{
    match words {
        [word] => is_help(word.as_str()),
        [subject, word] => Subject::of(subject.as_str()).is_some() && is_help(word.as_str()),
        _ => false,
    }
}

fn is_help(word: &str) -> bool
    ensures { result ≡ is_help word.now }
{
    word == "--help" || word == "-h"
}
