// The words of a command line, and what they ask for.
ghost use Rattle.std.specs.Prelude.{◌≡◌, ◌≤◌, IfOk, length, map, string_bytes, option_map, false};
ghost use Rattle.std.specs.List.{list_any};
ghost use Rattle.kp_view_words.specs.{Asked.asked, Asked.file_asked, Asked.task_seen, inner.Matching.task_matched};
ghost use Rattle.kp_command_line.specs.Words.{has_flag, matched_seen};
ghost use Rattle.kp_view_words.specs.Words.{asked_for, listing_asked, listing_given, topic_of, topic_named, help_place, is_help_word, is_help_flag, is_version_flag, asks_help, task_of, task_named, task_with, flagged_task, asks_diagram, asks_files, asks_picture, depth_with, with_flag, word_named};

use crate::labels::labelled_task;
use crate::runs::{diagram_with, paths_with, picture_with, run_in, stalls_with, with_file};
use crate::task::{Memories, Order, Task};
use kp_base::NoMemory;
use kp_command_line::{Matched, has_flag, match_words, source_in};
use std::alloc::Global;

/// The words, each with the greatest number of words after it.
const WORDS: [(&'static str, usize); 7] = [
    ("diagram", 14),
    ("svg", 14),
    ("page", 14),
    ("paths", 14),
    ("stalls", 14),
    ("depth", 14),
    ("same", 14),
];

/// A word, which says what is to be written about a job, or about two.
#[derive(Clone, Copy)]
pub enum Word {
    /// `diagram`: the pipeline diagram as text.
    Diagram,
    /// `svg`: the same as a picture.
    Svg,
    /// `page`: a run with the states of its cycles, as an HTML page.
    Page,
    /// `paths`: where each read can take its value from.
    Paths,
    /// `stalls`: why instructions wait or are squashed.
    Stalls,
    /// `depth`: the longest path of each stage.
    Depth,
    /// `same`: whether two jobs describe the same instruction. Its two files are a `Pair`.
    Same,
}

/// What help and usage are about: the program or one of its words.
#[derive(Clone, Copy)]
pub enum Topic {
    Program,
    Of(Word),
}

/// What the words of a command line ask for.
#[derive(Clone, Copy)]
pub enum Request<'w> {
    /// The words are not accepted. The topic is that of the usage to be printed.
    BadWords(Topic),
    Help(Topic),
    Version,
    Show(Task<'w>),
}

impl<'w> Request<'w> {
    /// What the words after the program's name ask for. The only error is out of memory.
    pub fn of(alloc: Global, words: &'w [String]) -> Result<Self, NoMemory>
        ensures { IfOk result (λ request. asked request ≡ asked_for (map string_bytes words.now)) }
    {
        let topic = topic_of(words);
        if asks_help(words) {
            return Ok(Request::Help(topic));
        }
        if has_version_flag(words) {
            return Ok(Request::Version);
        }
        let task = task_of(alloc, words)?;
        match task {
            Some(task) => Ok(Request::Show(Task {
                order: task.order,
                file: source_in(task.file),
            })),
            None => Ok(Request::BadWords(topic)),
        }
    }

    /// The file of the listing.
    pub fn listing(&self) -> Option<&'w String>
        ensures { option_map (λ word. string_bytes word.now) result ≡ listing_asked (asked self.now) }
    {
        match self {
            Request::Show(task) => task.order.listing(),
            Request::BadWords(_) | Request::Help(_) | Request::Version => None,
        }
    }

    /// The same with what the listing has.
    pub fn listed(self, listing: &'w [u8]) -> Request<'w>
        requires { length listing.now ≤ 16777216 }
        ensures { asked result ≡ listing_given listing.now (asked self.entry) }
    {
        match self {
            Request::Show(task) => Request::Show(Task {
                order: task.order.listed(listing),
                file: task.file,
            }),
            Request::BadWords(_) | Request::Help(_) | Request::Version => self,
        }
    }

    /// The file of the job. `None` if standard input is read, or nothing.
    pub fn file(&self) -> Option<&'w String>
        ensures { option_map (λ word. string_bytes word.now) result ≡ file_asked (asked self.now) }
    {
        match self {
            Request::Show(task) => task.file,
            Request::BadWords(_) | Request::Help(_) | Request::Version => None,
        }
    }
}

impl Topic {
    // The topic of a name: its word, or the program.
    fn named(name: &str) -> Self
        ensures { result ≡ topic_named name.now }
    {
        match Word::named(name) {
            Some(word) => Topic::Of(word),
            None => Topic::Program,
        }
    }
}

impl Word {
    /// The word that is spelled so.
    pub fn named(name: &str) -> Option<Self>
        ensures { result ≡ word_named name.now }
    {
        match name {
            "diagram" => Some(Word::Diagram),
            "svg" => Some(Word::Svg),
            "page" => Some(Word::Page),
            "paths" => Some(Word::Paths),
            "stalls" => Some(Word::Stalls),
            "depth" => Some(Word::Depth),
            "same" => Some(Word::Same),
            _ => None,
        }
    }
}

// The topic of the words: that of the first one, or of the second one after `help`.
fn topic_of(words: &[String]) -> Topic
    ensures { result ≡ topic_of (map string_bytes words.now) }
{
    match words.get(help_place(words)) {
        Some(word) => Topic::named(word.as_str()),
        None => Topic::Program,
    }
}

// The place of the word that help is about.
fn help_place(words: &[String]) -> usize
    ensures { result ≡ help_place (map string_bytes words.now) }
{
    match words.first() {
        Some(word) if is_help_word(word.as_str()) => 1,
        _ => 0,
    }
}

fn is_help_word(word: &str) -> bool
    ensures { result ≡ is_help_word word.now }
{
    word == "help"
}

fn is_help_flag(word: &str) -> bool
    ensures { result ≡ is_help_flag word.now }
{
    word == "--help" || word == "-h"
}

fn is_version_flag(word: &str) -> bool
    ensures { result ≡ is_version_flag word.now }
{
    word == "--version" || word == "-V"
}

// One of the words is a flag for help.
fn has_help_flag(words: &[String]) -> bool
    ensures { result ≡ list_any (λ word. is_help_flag (string_bytes word)) words.now }
{
    words.iter().any(|word| is_help_flag(word.as_str()))
}

// One of the words is a flag for the version.
fn has_version_flag(words: &[String]) -> bool
    ensures { result ≡ list_any (λ word. is_version_flag (string_bytes word)) words.now }
{
    words.iter().any(|word| is_version_flag(word.as_str()))
}

// The words ask for help: the first is `help`, or one is a flag for help.
fn asks_help(words: &[String]) -> bool
    ensures { result ≡ asks_help (map string_bytes words.now) }
{
    help_place(words) == 1 || has_help_flag(words)
}

// What the words ask for. `None` if the first is no word, or if those after it aren't words for it.
fn task_of<'w>(alloc: Global, words: &'w [String]) -> Result<Option<Task<'w>>, NoMemory>
    ensures { IfOk result (λ task. option_map task_seen task ≡ task_of (map string_bytes words.now)) }
{
    if has_flag(words) {
        Ok(flagged_task(words))
    } else {
        task_named(alloc, words)
    }
}

// What words ask for none of which begins with `-`: a word, with at most 14 further words.
fn task_named<'w>(alloc: Global, words: &'w [String]) -> Result<Option<Task<'w>>, NoMemory>
    requires { has_flag (map string_bytes words.now) ≡ false }
    ensures { IfOk result (λ task. option_map task_seen task ≡ task_named (map string_bytes words.now)) }
{
    let matched = match_words(alloc, "kpview", WORDS.as_slice(), 0, words)?;
    match matched {
        Some(matched) => Ok(task_matched(&matched)),
        None => Ok(None),
    }
}

// What a word asks for, with the words that were matched after it.
fn task_matched<'w>(matched: &Matched<'w>) -> Option<Task<'w>>
    ensures { option_map task_seen result ≡ task_matched (matched_seen matched.now) }
{
    task_with(Word::named(matched.name?)?, matched.rest)
}

// What a word asks for, with these words after it. Each word is an arm here.
fn task_with<'w>(word: Word, rest: &'w [String]) -> Option<Task<'w>>
    ensures { option_map task_seen result ≡ task_with word (map string_bytes rest.now) }
{
    match word {
        Word::Diagram => diagram_with(rest),
        Word::Svg => {
            let asked = run_in(rest)?;
            Some(Task {
                order: Order::Svg(asked.run),
                file: asked.file,
            })
        }
        Word::Page => {
            let asked = run_in(rest)?;
            Some(Task {
                order: Order::Page(asked.run),
                file: asked.file,
            })
        }
        Word::Paths => paths_with(rest),
        Word::Stalls => stalls_with(rest),
        Word::Depth => with_file(Order::Depth(Memories::Inside), rest),
        Word::Same => None,
    }
}

// What words ask for one of which begins with `-`: a diagram with labels, `paths --svg` or `depth --files 0`.
fn flagged_task<'w>(words: &'w [String]) -> Option<Task<'w>>
    ensures { option_map task_seen result ≡ flagged_task (map string_bytes words.now) }
{
    match words {
        [word, rest @ ..] => {
            if asks_diagram(word.as_str()) {
                labelled_task(rest)
            } else {
                with_flag(word.as_str(), rest)
            }
        }
        [] => None,
    }
}

fn asks_diagram(word: &str) -> bool
    ensures { result ≡ asks_diagram word.now }
{
    word == "diagram"
}

// `paths --svg` with names of stages and a file, or `depth --files 0` with at most a file.
fn with_flag<'w>(word: &str, rest: &'w [String]) -> Option<Task<'w>>
    ensures { option_map task_seen result ≡ with_flag word.now (map string_bytes rest.now) }
{
    match rest {
        [flag, files @ ..] => {
            if has_flag(files) {
                None
            } else if asks_picture(word, flag.as_str()) {
                picture_with(files)
            } else if asks_files(word, flag.as_str()) {
                depth_with(files)
            } else {
                None
            }
        }
        _ => None,
    }
}

fn asks_files(word: &str, flag: &str) -> bool
    ensures { result ≡ asks_files word.now flag.now }
{
    word == "depth" && flag == "--files"
}

// The depth without the files, after `--files`: the number 0, with at most a file after it.
fn depth_with<'w>(rest: &'w [String]) -> Option<Task<'w>>
    ensures { option_map task_seen result ≡ depth_with (map string_bytes rest.now) }
{
    match rest {
        [number, files @ ..] => {
            if number.as_str() == "0" {
                with_file(Order::Depth(Memories::Outside), files)
            } else {
                None
            }
        }
        [] => None,
    }
}

fn asks_picture(word: &str, flag: &str) -> bool
    ensures { result ≡ asks_picture word.now flag.now }
{
    word == "paths" && flag == "--svg"
}
