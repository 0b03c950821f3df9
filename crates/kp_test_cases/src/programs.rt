// The top calls of the programs.
use crate::streams::Streams;
use kp_base::{MemSink, MemSource, NoMemory, read_all, write_all};
use kp_core::{Request as CoreRequest, run_core};
use kp_tool::tool;
use kp_view::view;
use kp_view_explain::{HELP, Order, asks_help, explain_source};
use kp_view_same::{Stop, same_sources};
use kp_view_words::{Pair, Request as ViewRequest};
use std::alloc::Global;

/// Calls the program that the words begin with. Without one of the four programs nothing is called, and the status is 1.
pub fn run(alloc: Global, words: &[String], streams: &mut Streams) -> u8 {
    let Some((program, rest)) = words.split_first() else {
        return 1;
    };
    match program.as_str() {
        "kp" => tool(alloc, rest, &mut streams.source, &mut streams.out),
        "kpview" => match Pair::of(rest) {
            Some(pair) => same(alloc, &pair, streams),
            None => view_words(alloc, rest, streams),
        },
        "kpcore" => match CoreRequest::of(alloc, rest) {
            Ok(request) => run_core(
                alloc,
                &request,
                &mut streams.source,
                &mut streams.out,
                &mut streams.err,
            ),
            Err(NoMemory) => 5,
        },
        "explain" => explain(alloc, words, &mut streams.source, &mut streams.out),
        _ => 1,
    }
}

// What the second source has is the listing, where one is asked for.
fn view_words(alloc: Global, words: &[String], streams: &mut Streams) -> u8 {
    let Ok(request) = ViewRequest::of(alloc, words) else {
        return 5;
    };
    match read_all(alloc, &mut streams.second) {
        Ok(listing) => view(
            alloc,
            &request.listed(listing.as_slice()),
            &mut streams.source,
            &mut streams.out,
            &mut streams.err,
        ),
        Err(_) => 3,
    }
}

// Compares the jobs of both sources, under the names of the words.
fn same(alloc: Global, pair: &Pair<'_>, streams: &mut Streams) -> u8 {
    let end = same_sources(
        alloc,
        name_of(pair.first.file),
        &mut streams.source,
        name_of(pair.second.file),
        &mut streams.second,
        &mut streams.out,
        &mut streams.err,
    );
    match end {
        Ok(status) => status,
        Err(Stop::Unread(_)) => 3,
        Err(Stop::Unwritten) => 4,
        Err(Stop::NoMemory) => 5,
    }
}

// The name of a file, or of standard input.
fn name_of(file: Option<&String>) -> &[u8] {
    match file {
        Some(name) => name.as_bytes(),
        None => b"<stdin>",
    }
}

fn explain(alloc: Global, words: &[String], source: &mut MemSource, sink: &mut MemSink) -> u8 {
    if asks_help(words) {
        return match write_all(sink, HELP.as_bytes()) {
            Ok(()) => 0,
            Err(_) => 4,
        };
    }
    let order = match Order::of(alloc, words) {
        Ok(Some(order)) => order,
        Ok(None) => return 1,
        Err(NoMemory) => return 5,
    };
    let file = name_of(order.file);
    explain_source(alloc, file, order.subject, order.strict, source, sink)
}
