// The words of a command line, and what they ask for.
ghost use Rattle.std.specs.Prelude.{◌≡◌, map, string_bytes, IfOk};
ghost use Rattle.std.specs.List.{list_any};
ghost use Rattle.kp_core.specs.Words.{asked, asked_for, file_of, form_of, is_help, is_version, table_or_module};

use kp_base::NoMemory;
use kp_command_line::match_file;
use std::alloc::Global;

/// What is written for a job that violates no rule.
#[derive(Clone, Copy)]
pub enum Form {
    /// The module with ports.
    Module,
    /// The table of its registers.
    Names,
    /// The table of the wires of its stages.
    Wires,
    /// The module with ports, and with names for the registers and wires of its stages.
    Named,
    /// The module with ports, and with comments on its registers and on the wires of its stages.
    Comments,
}

/// What the words of a command line ask for.
#[derive(Clone, Copy)]
pub enum Request<'w> {
    /// The words are not accepted.
    BadWords,
    Help,
    Version,
    /// The module, or a table of its registers or wires, of the job of a file, or of standard input.
    Core(Form, Option<&'w String>),
}

impl<'w> Request<'w> {
    /// What the words after the program's name ask for. The only error is out of memory.
    pub fn of(alloc: Global, words: &'w [String]) -> Result<Self, NoMemory>
        ensures { IfOk result (λ request. asked request ≡ asked_for (map string_bytes words.now)) }
    {
        if has_help(words) {
            return Ok(Request::Help);
        }
        if has_version(words) {
            return Ok(Request::Version);
        }
        let request = Request::of_form(alloc, words)?;
        Ok(request)
    }

    // The same where no word asks for help or the version.
    fn of_form(alloc: Global, words: &'w [String]) -> Result<Self, NoMemory>
        ensures { IfOk result (λ request. asked request ≡ table_or_module (map string_bytes words.now)) }
    {
        if let [first, rest @ ..] = words {
            if let Some(form) = form_of(first.as_str()) {
                return Request::of_file(alloc, form, rest);
            }
        }
        Request::of_file(alloc, Form::Module, words)
    }

    // The same for this form, of which these are the other words.
    fn of_file(alloc: Global, form: Form, words: &'w [String]) -> Result<Self, NoMemory>
        ensures { IfOk result (λ request. asked request ≡ file_of form (map string_bytes words.now)) }
    {
        let input = match_file(alloc, "kpcore", words)?;
        match input {
            Some(input) => Ok(Request::Core(form, input.file)),
            None => Ok(Request::BadWords),
        }
    }
}

// One of the words asks for help.
fn has_help(words: &[String]) -> bool
    ensures { result ≡ list_any (λ word. is_help (string_bytes word)) words.now }
{
    words.iter().any(|word| is_help(word.as_str()))
}

// One of the words asks for the version.
fn has_version(words: &[String]) -> bool
    ensures { result ≡ list_any (λ word. is_version (string_bytes word)) words.now }
{
    words.iter().any(|word| is_version(word.as_str()))
}

fn is_help(word: &str) -> bool
    ensures { result ≡ is_help word.now }
{
    word == "--help" || word == "-h"
}

fn is_version(word: &str) -> bool
    ensures { result ≡ is_version word.now }
{
    word == "--version" || word == "-V"
}

// What a word asks for in place of the module.
fn form_of(word: &str) -> Option<Form>
    ensures { result ≡ form_of word.now }
{
    if word == "--names" {
        Some(Form::Names)
    } else if word == "--wires" {
        Some(Form::Wires)
    } else if word == "--named" {
        Some(Form::Named)
    } else if word == "--comments" {
        Some(Form::Comments)
    } else {
        None
    }
}
