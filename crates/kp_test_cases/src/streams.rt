//! The sources and the sinks of a call.
ghost use Rattle.std.specs.Prelude.{◌≤◌};

use crate::head::{cut, number_or, numbers_in, option};
use kp_base::{MemSink, MemSource};
use std::alloc::{AllocError, Global};

/// The default capacity of a sink, in bytes.
const ROOM: u64 = 1 << 20;

/// The default for the most bytes that a call of a source or a sink transfers.
const MOST: u64 = 4096;

/// The line between the texts of two sources.
const BETWEEN: &[u8] = b"\n----\n";

/// A source, a second one, and the sinks of standard output and standard error.
#[derive(Drop)]
pub struct Streams {
    pub source: MemSource,
    pub second: MemSource,
    pub out: MemSink,
    pub err: MemSink,
}

impl Streams {
    /// The source of this text, or of its two parts before and after a line `----`, and empty sinks, with the options of a head; or `None` if there is
    /// too little memory for them.
    pub fn of(alloc: Global, head: &[u8], text: &[u8]) -> Option<Streams> {
        let out = sink(alloc, head, b"room", b"write-fails")?;
        let err = sink(alloc, head, b"err-room", b"err-fails")?;
        let (first, second) = parts(text);
        let source = source_of(alloc, head, first, b"read-fails")?;
        let second = source_of(alloc, head, second, b"second-fails")?;
        Some(Streams {
            source,
            second,
            out,
            err,
        })
    }
}

// The text before a line `----`, with its line feed, and the text after it.
fn parts(text: &[u8]) -> (&[u8], &[u8]) {
    for at in 0..text.len() {
        if let Some(after) = text[at..].strip_prefix(BETWEEN) {
            return (&text[..at + 1], after);
        }
    }
    (text, &[])
}

fn most(head: &[u8]) -> usize
    ensures { 1 ≤ result }
{
    (number_or(head, b"most", MOST) as usize).max(1)
}

fn sink(alloc: Global, head: &[u8], room: &[u8], fails: &[u8]) -> Option<MemSink> {
    let mut calls = Vec::new(alloc);
    if numbers_in(head, fails, &mut calls).is_err() {
        return None;
    }
    MemSink::new(
        alloc,
        number_or(head, room, ROOM) as usize,
        most(head),
        calls,
    )
    .ok()
}

fn source_of(alloc: Global, head: &[u8], text: &[u8], fails: &[u8]) -> Option<MemSource> {
    let mut calls = Vec::new(alloc);
    let mut input = Vec::new(alloc);
    if numbers_in(head, fails, &mut calls).is_err() || add_input(head, text, &mut input).is_err() {
        return None;
    }
    Some(MemSource::new(input, most(head), calls))
}

// Appends the first line as often as the head specifies, then the others.
fn add_input(head: &[u8], text: &[u8], input: &mut Vec<u8>) -> Result<(), AllocError> {
    let first = cut(text, b'\n').0;
    for _ in 1..number_or(head, b"times", 1) {
        input.extend_from_slice(first)?;
        input.push(b'\n')?;
    }
    input.extend_from_slice(text)?;
    if option(head, b"unended").is_some() {
        input.pop();
    }
    Ok(())
}
