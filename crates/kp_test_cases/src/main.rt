//! Runs the top calls of the programs on many inputs, and prints the result of each.
//!
//! Standard input contains the cases. A case starts with its head, a line `==== PROGRAM WORDS`, where `""` denotes the empty word, and its input is the
//! text up to the next head. The program is `kp`, `kpview`, `kpcore` or `explain`; the last is what `kpview explain` calls, and its words begin with its
//! name. For each case of these its head, its status and the texts of standard output and standard error are printed; the second begins with a line `--`, and is
//! left out where it is empty. `explain` has one text, that of standard error, or its help, and the status 1 where its words are not accepted. A head of
//! the words `# ..` is a title: it is printed, and the text below it is no input of any case. `kpview same` has two inputs, before and after a line `----`.
//!
//! `==== piped PROGRAM WORDS` is a call of the program, and its input is the text, followed by what `kp pipe` writes for it. If `kp pipe` ends with another
//! status than 0, this is printed, and there is no call.
//!
//! Three more forms run libraries, and have no status. `==== netlist N TITLE`: the netlist of the job runs N cycles under the job's stalls and inputs, and
//! the line of each cycle is printed, then the registers of the job in the last state, and the words of its files that are not 0; with `nodes` in place
//! of N, how many nodes the netlist has. `==== dump TITLE`: the name of the dump's module, how many signals, times and changes it has, and whether the
//! text of what was read is this text; if it differs, it follows; or the rule that the dump violates. `==== region N | carve N,N..`:
//! the spans that are carved from a region of N words, one after the other, or that it is full.
//!
//! After the words, each after ` | `, a head may have options:
//!
//! - `most N`: source and sinks transfer at most N bytes a call;
//! - `room N`, `err-room N`: standard output or standard error has a capacity of N bytes;
//! - `read-fails K,K..`, `second-fails K,K..`, `write-fails K,K..`, `err-fails K,K..`: the calls of the source, of the second one, of standard output or of standard
//!   error that fail, counted from 1; of `explain` standard error has the options of standard output;
//! - `times N`: the first line of the input is repeated N times;
//! - `unended`: the line feed that ends the input is not part of it.
#![tactic(auto)]

ghost use Rattle.std.specs.Prelude.{◌<◌, ◌≤◌, length};

mod cycles;
mod dump;
mod head;
mod netlist;
mod piped;
mod programs;
mod region;
mod report;
mod streams;

use dump::add_dump;
use head::{cut, words_in};
use netlist::add_netlist;
use piped::piped;
use programs::run;
use region::add_region;
use report::{Report, Term};
use std::alloc::{AllocError, Global};
use std::io;
use std::io::{Read, Write};
use streams::Streams;

/// The start of a head.
const MARK: &[u8] = b"==== ";

fn main(rt: HostRuntime) -> io::Result<()> {
    let alloc = rt.alloc();
    let mut text = Vec::new(alloc);
    rt.reader().read_to_end(&mut text)?;
    let mut report = Report::new(alloc);
    add_cases(&mut report, alloc, text.as_slice());
    match report.text() {
        Some(text) => io::writer(&rt).write_all(text),
        None => Err(AllocError.into()),
    }
}

// Appends the result of each case. A text that starts with no head has none.
fn add_cases(report: &mut Report, alloc: Global, text: &[u8]) {
    let mut rest = match text.strip_prefix(MARK) {
        Some(rest) => rest,
        None => return,
    };
    while !rest.is_empty() {
        let (case, after) = cut_case(rest);
        rest = after;
        let (head, input) = cut(case, b'\n');
        add_case(report, alloc, head, input);
    }
}

// The text before the first head in it, and the text after the start of this head.
fn cut_case(text: &[u8]) -> (&[u8], &[u8])
    ensures { 1 ≤ length text.now → length result.1.now < length text.now }
{
    for at in 1..text.len() {
        if text[at - 1] == b'\n' {
            if let Some(after) = text[at..].strip_prefix(MARK) {
                return (&text[..at], after);
            }
        }
    }
    (text, &[])
}

fn add_case(report: &mut Report, alloc: Global, head: &[u8], input: &[u8]) {
    report.add(&[Term::Text(MARK), Term::Text(head)]);
    let (form, rest) = cut(head, b' ');
    if form == b"#".as_slice() {
        report.add(&[Term::Text(b"\n")]);
    } else if form == b"netlist".as_slice() {
        report.add(&[Term::Text(b"\n")]);
        add_netlist(report, alloc, cut(rest, b' ').0, input);
    } else if form == b"dump".as_slice() {
        report.add(&[Term::Text(b"\n")]);
        add_dump(report, alloc, input);
    } else if form == b"region".as_slice() {
        report.add(&[Term::Text(b"\n")]);
        add_region(report, alloc, rest);
    } else if form == b"piped".as_slice() {
        add_piped(report, alloc, rest, input);
    } else {
        add_call(report, alloc, head, input);
    }
    report.add(&[Term::Text(b"\n")]);
}

// Appends the result of a call on the text and what `kp pipe` writes for it.
fn add_piped(report: &mut Report, alloc: Global, head: &[u8], text: &[u8]) {
    match piped(alloc, text) {
        Some((0, input)) => add_call(report, alloc, head, input.as_slice()),
        Some((status, _)) => report.add(&[
            Term::Text(b"\nkp pipe gives "),
            Term::Number(u64::from(status)),
            Term::Text(b"\n"),
        ]),
        None => report.fail(),
    }
}

fn add_call(report: &mut Report, alloc: Global, head: &[u8], input: &[u8]) {
    let mut words = Vec::new(alloc);
    if words_in(alloc, head, &mut words).is_err() {
        return report.fail();
    }
    match Streams::of(alloc, head, input) {
        Some(streams) => add_result(report, alloc, words.as_slice(), streams),
        None => report.fail(),
    }
}

fn add_result(report: &mut Report, alloc: Global, words: &[String], mut streams: Streams) {
    let status = run(alloc, words, &mut streams);
    add_texts(report, status, streams.out.bytes(), streams.err.bytes());
}

fn add_texts(report: &mut Report, status: u8, out: &[u8], err: &[u8]) {
    report.add(&[
        Term::Text(b" gives "),
        Term::Number(u64::from(status)),
        Term::Text(b"\n"),
        Term::Text(out),
    ]);
    if !err.is_empty() {
        report.add(&[Term::Text(b"\n--\n"), Term::Text(err)]);
    }
}
