// The words of what is drawn or listed of a run: a number of cycles or a window, names of stages, and a file.
ghost use Rattle.std.specs.Prelude.{◌≡◌, ◌&&◌, ltb, leb, ◌≤◌, IfSome, map, string_bytes, option_map, length};
ghost use Rattle.std.specs.List.{list_any, list_all};
ghost use Rattle.kp_base.specs.Characters.{is_word};
ghost use Rattle.kp_view_words.specs.{Asked.order_seen, Asked.run_seen, Asked.task_seen, inner.Asking.named_seen, inner.Asking.run_asked, inner.Asking.span_seen};
ghost use Rattle.kp_view_words.specs.Words.{diagram_of, diagram_with, from_cycle, named_in, paths_of, picture_with, stalls_of, stalls_with, with_file, run_in, run_with, span_after, span_between, span_of, count_of, names_in, file_in, is_file_after, is_name, is_path};

use crate::task::{Cycles, Later, Order, Run, Span, Task};
use kp_base::{is_digit, is_word, run_length};
use kp_bits::read_number;

/// The greatest number of cycles that are drawn.
const MOST_DRAWN: u32 = 1_000;

/// The greatest cycle of a window.
const MOST_CYCLE: u32 = 1_000_000_000;

/// The greatest number of cycles that are listed.
const MOST_LISTED: u32 = 100_000;

/// The greatest length of a stage's name, in bytes.
const MOST_NAME: usize = 8;

// A diagram: a number of cycles or a window, and then names of stages and a file.
pub(crate) fn diagram_with<'w>(rest: &'w [String]) -> Option<Task<'w>>
    ensures { option_map task_seen result ≡ diagram_with (map string_bytes rest.now) }
{
    match rest {
        [word, more @ ..] => match count_of(word.as_bytes(), MOST_DRAWN) {
            Some(count) => {
                let asked = run_with(count, more)?;
                Some(Task {
                    order: Order::Diagram(asked.run),
                    file: asked.file,
                })
            }
            None => window_with(span_of(word.as_bytes())?, more),
        },
        [] => None,
    }
}

// The diagram of a window, with these words after it.
fn window_with<'w>(span: Span, rest: &'w [String]) -> Option<Task<'w>>
    ensures { option_map task_seen result ≡ option_map (diagram_of span.from) (run_with span.count (map string_bytes rest.now)) }
{
    let asked = run_with(span.count, rest)?;
    Some(Task {
        order: from_cycle(span.from, asked.run),
        file: asked.file,
    })
}

// The diagram of a run from this cycle on.
fn from_cycle<'w>(from: u32, run: Run<'w>) -> Order<'w>
    requires early { from ≤ 1000000000 }
    requires some { 1 ≤ run.count }
    ensures { order_seen result ≡ from_cycle from (run_seen run.entry) }
{
    if from == 0 {
        Order::Diagram(run)
    } else {
        Order::Window(Later { from, run })
    }
}

// The cycles that a word as `5000..5040` denotes.
fn span_of(word: &[u8]) -> Option<Span>
    ensures { option_map span_seen result ≡ span_of word.now }
{
    let digits = run_length(word, |byte| is_digit(byte));
    let from = count_of(&word[..digits], MOST_CYCLE)?;
    span_after(from, &word[digits..])
}

fn span_after(from: u32, rest: &[u8]) -> Option<Span>
    requires { from ≤ 1000000000 }
    ensures { option_map span_seen result ≡ span_after from rest.now }
{
    match rest {
        [a, b, last @ ..] => if *a == b'.' && *b == b'.' {
            span_between(from, count_of(last, MOST_CYCLE)?)
        } else {
            None
        },
        _ => None,
    }
}

fn span_between(from: u32, to: u32) -> Option<Span>
    requires from { from ≤ 1000000000 }
    requires to { to ≤ 1000000000 }
    ensures { option_map span_seen result ≡ span_between from to }
{
    if from <= to && to - from < 1_000 {
        Some(Span {
            from,
            count: to - from + 1,
        })
    } else {
        None
    }
}

// The stalls of a job: a number of cycles, and then names of stages and a file.
pub(crate) fn stalls_with<'w>(rest: &'w [String]) -> Option<Task<'w>>
    ensures { option_map task_seen result ≡ stalls_with (map string_bytes rest.now) }
{
    match rest {
        [number, more @ ..] => listed_with(count_of(number.as_bytes(), MOST_LISTED)?, more),
        [] => None,
    }
}

// The same for this number of cycles, with these words after it.
fn listed_with<'w>(count: u32, rest: &'w [String]) -> Option<Task<'w>>
    requires { count ≤ 100000 }
    ensures { option_map task_seen result ≡ option_map stalls_of (run_with count (map string_bytes rest.now)) }
{
    let Named { names, file } = named_in(rest)?;
    Some(Task {
        order: Order::Stalls(Cycles { count, names }),
        file,
    })
}

// The paths of a job: names of stages and a file.
pub(crate) fn paths_with<'w>(rest: &'w [String]) -> Option<Task<'w>>
    ensures { option_map task_seen result ≡ option_map paths_of (named_in (map string_bytes rest.now)) }
{
    let Named { names, file } = named_in(rest)?;
    Some(Task {
        order: Order::Paths(names),
        file,
    })
}

// The same as a picture.
pub(crate) fn picture_with<'w>(rest: &'w [String]) -> Option<Task<'w>>
    ensures { option_map task_seen result ≡ picture_with (map string_bytes rest.now) }
{
    let Named { names, file } = named_in(rest)?;
    Some(Task {
        order: Order::PathsSvg(names),
        file,
    })
}

// What is to be written, with at most a file after it.
pub(crate) fn with_file<'w>(order: Order<'w>, rest: &'w [String]) -> Option<Task<'w>>
    ensures { option_map task_seen result ≡ with_file (order_seen order.entry) (map string_bytes rest.now) }
{
    if rest.len() > 1 {
        return None;
    }
    Some(Task {
        order,
        file: rest.first(),
    })
}

// A run and a file.
#[derive(Clone, Copy)]
pub(crate) struct RunAsked<'w> {
    pub run: Run<'w>,
    pub file: Option<&'w String>,
}

// The run that is drawn: a number of cycles, and then names of stages and a file.
pub(crate) fn run_in<'w>(rest: &'w [String]) -> Option<RunAsked<'w>>
    ensures { option_map run_asked result ≡ run_in (map string_bytes rest.now) }
{
    match rest {
        [number, more @ ..] => run_with(count_of(number.as_bytes(), MOST_DRAWN)?, more),
        [] => None,
    }
}

// The run with this number of cycles, and these words after it.
fn run_with<'w>(count: u32, rest: &'w [String]) -> Option<RunAsked<'w>>
    requires { count ≤ 1000 }
    ensures asked { option_map run_asked result ≡ run_with count (map string_bytes rest.now) }
    ensures count { IfSome result (λ asked. asked.run.count ≡ count) }
{
    let Named { names, file } = named_in(rest)?;
    Some(RunAsked {
        run: Run { count, names },
        file,
    })
}

// Names of stages, and a file.
#[derive(Clone, Copy)]
pub(crate) struct Named<'w> {
    pub names: &'w [String],
    pub file: Option<&'w String>,
}

fn named_in<'w>(rest: &'w [String]) -> Option<Named<'w>>
    ensures { option_map named_seen result ≡ named_in (map string_bytes rest.now) }
{
    let names = names_in(rest);
    if are_names(names) {
        Some(Named {
            names,
            file: file_in(rest),
        })
    } else {
        None
    }
}

// The names among the words after N.
pub(crate) fn names_in(rest: &[String]) -> &[String]
    ensures { map string_bytes result.now ≡ names_in (map string_bytes rest.now) }
{
    match rest.split_last() {
        Some((last, names)) => if is_file_after(names, last) {
            names
        } else {
            rest
        },
        None => rest,
    }
}

// The file among them, if there is one.
fn file_in(rest: &[String]) -> Option<&String>
    ensures { option_map (λ word. string_bytes word.now) result ≡ file_in (map string_bytes rest.now) }
{
    match rest.split_last() {
        Some((last, names)) => if is_file_after(names, last) {
            Some(last)
        } else {
            None
        },
        None => None,
    }
}

// The last word is a file: after no names, or if it isn't a word of letters, digits and `_`.
fn is_file_after(names: &[String], last: &str) -> bool
    ensures { result ≡ is_file_after (length names.now) last.now }
{
    names.is_empty() || is_path(last)
}

// A word that can't be a name, as it has a character other than letters, digits and `_`.
fn is_path(word: &str) -> bool
    ensures { result ≡ is_path word.now }
{
    word.as_bytes().iter().any(|byte| !is_word(*byte))
}

fn are_names(names: &[String]) -> bool
    ensures { result ≡ list_all (λ name. is_name (string_bytes name)) names.now }
{
    names.iter().all(|name| is_name(name.as_str()))
}

// The name of a stage.
pub(crate) fn is_name(word: &str) -> bool
    ensures { result ≡ is_name word.now }
{
    has_name_length(word) && is_all_word(word.as_bytes())
}

fn has_name_length(word: &str) -> bool
    ensures { result ≡ (ltb 0 (length word.now) && leb (length word.now) 8) }
{
    let bytes = word.as_bytes();
    0 < bytes.len() && bytes.len() <= MOST_NAME
}

fn is_all_word(bytes: &[u8]) -> bool
    ensures { result ≡ list_all is_word bytes.now }
{
    bytes.iter().all(|byte| is_word(*byte))
}

/// The number of cycles that 1 to 20 decimal digits denote, up to the greatest one.
#[tactic(auto, unfolding(crate::specs::Words::count_of))]
fn count_of(word: &[u8], most: u32) -> Option<u32>
    ensures count { result ≡ count_of most word.now }
    ensures few { IfSome result (λ count. count ≤ most) }
{
    if word.len() > 20 {
        return None;
    }
    let number = read_number(word)?;
    if number <= u64::from(most) {
        Some(number as u32)
    } else {
        None
    }
}
