// The words of a diagram with labels.
ghost use Rattle.std.specs.Prelude.{◌≡◌, ◌≤◌, length, map, string_bytes, option_map};
ghost use Rattle.kp_view_words.specs.{Asked.task_seen, Words.asks_label, Words.asks_listing, Words.listed_by, Words.labelled_after, Words.labelled_by, Words.labelled_task, Words.labelled_with, Words.undashed};

use crate::runs::diagram_with;
use crate::task::Task;
use kp_command_line::{has_flag, is_flag};

/// The greatest length of the word that names the labels, in bytes.
const MOST_LABEL: usize = 16_777_216;

/// A diagram with labels: what a diagram takes, with `--label` and the names of the labels after the names of stages, or after the file, and maybe `--listing`
/// and its file.
pub(crate) fn labelled_task<'w>(rest: &'w [String]) -> Option<Task<'w>>
    ensures { option_map task_seen result ≡ labelled_task (map string_bytes rest.now) }
{
    let at = undashed(rest);
    labelled_with(&rest[..at], &rest[at..])
}

// How many words there are before the first flag.
fn undashed(words: &[String]) -> usize
    ensures count { result ≡ undashed (map string_bytes words.now) }
    ensures few { result ≤ length words.now }
{
    for i in 0..words.len() {
        if is_flag(words[i].as_bytes()) {
            return i;
        }
    }
    words.len()
}

// The words before `--label`, and those from there on.
fn labelled_with<'w>(before: &'w [String], rest: &'w [String]) -> Option<Task<'w>>
    ensures { option_map task_seen result ≡ labelled_with (map string_bytes before.now) (map string_bytes rest.now) }
{
    match rest {
        [flag, label, more @ ..] => listed_by(before, flag, label, more),
        _ => None,
    }
}

// The same with the names of the labels and the words after them, which may begin with `--listing` and a file.
fn listed_by<'w>(
    before: &'w [String],
    flag: &String,
    label: &'w String,
    more: &'w [String],
) -> Option<Task<'w>>
    ensures { option_map task_seen result ≡ listed_by (map string_bytes before.now) (string_bytes flag.now) (string_bytes label.now) (map string_bytes more.now) }
{
    match more {
        [word, file, files @ ..] => {
            if asks_listing(word.as_str(), file.as_bytes()) {
                labelled_by(before, flag, label, Some(file), files)
            } else {
                labelled_by(before, flag, label, None, more)
            }
        }
        _ => labelled_by(before, flag, label, None, more),
    }
}

fn asks_listing(flag: &str, file: &[u8]) -> bool
    ensures { result ≡ asks_listing flag.now file.now }
{
    flag == "--listing" && !is_flag(file)
}

// The same with this listing, and the words after it.
fn labelled_by<'w>(
    before: &'w [String],
    flag: &String,
    label: &'w String,
    listing: Option<&'w String>,
    files: &'w [String],
) -> Option<Task<'w>>
    ensures { option_map task_seen result ≡ labelled_by (map string_bytes before.now) (string_bytes flag.now) (string_bytes label.now) (option_map (λ word. string_bytes word.now) listing.entry)
        (map string_bytes files.now) }
{
    if has_flag(files) {
        None
    } else if asks_label(flag.as_str(), label.as_bytes()) {
        labelled_after(label.as_bytes(), listing, files, diagram_with(before)?)
    } else {
        None
    }
}

fn asks_label(flag: &str, label: &[u8]) -> bool
    ensures { result ≡ asks_label flag.now label.now }
{
    flag == "--label" && !is_flag(label) && label.len() <= MOST_LABEL
}

// The labels and the listing are added to a diagram, and a file, if there is none yet.
fn labelled_after<'w>(
    label: &'w [u8],
    listing: Option<&'w String>,
    files: &'w [String],
    task: Task<'w>,
) -> Option<Task<'w>>
    requires { length label.now ≤ 16777216 }
    ensures { option_map task_seen result ≡ labelled_after label.now (option_map (λ word. string_bytes word.now) listing.entry) (map string_bytes files.now) (task_seen task.entry) }
{
    let order = task.order.labelled(label).listed_by(listing);
    match files {
        [] => Some(Task {
            order,
            file: task.file,
        }),
        [file] => match task.file {
            Some(_) => None,
            None => Some(Task {
                order,
                file: Some(file),
            }),
        },
        _ => None,
    }
}
