//! The program `kpview`: it passes what the words of its command line ask for, a file or standard input, and the standard streams to a top call: that of
//! `explain`, that of `same`, which has two files, or that of all other words. The help of `explain` is printed here.
#![tactic(auto)]

ghost use Rattle.std.specs.Prelude.{◌≤◌, vec_len, IfOk};

use kp_base::{NoMemory, ReadAll, StdSink, StdSource, read_all, write_all, write_pieces};
use kp_command_line::Input;
use kp_program::{PAGE, STDIN, Stop, ended, opened, status_after, unless_stopped, words};
use kp_view::view;
use kp_view_explain::{HELP, Order, asks_help, explain_source};
use kp_view_same::{Side, same_sources};
use kp_view_words::{Pair, Request, wrong_name};
use std::io;
use std::io::{BufWriter, ErrorKind, Read};
use std::process::ExitCode;

fn main(rt: HostRuntime) -> ExitCode {
    let mut err = StdSink::new(rt.stderr());
    let status = match words(&rt) {
        Ok(words) => status_after("kpview", run(&rt, &words), &mut err),
        Err(NoMemory) => status_after("kpview", Err(Stop::NoMemory), &mut err),
    };
    ExitCode::from(status)
}

// Does what the words ask for.
fn run<'w>(rt: &HostRuntime, words: &'w [String]) -> Result<u8, Stop<'w>> {
    if let Some(pair) = Pair::of(words) {
        return same(rt, &pair);
    }
    if asks_help(words) {
        return help(rt);
    }
    match Order::of(rt.alloc(), words)? {
        Some(order) => explain(rt, &order),
        None => view_words(rt, words),
    }
}

// Does what words other than those of `explain` and `same` ask for.
fn view_words<'w>(rt: &HostRuntime, words: &'w [String]) -> Result<u8, Stop<'w>> {
    let request = Request::of(rt.alloc(), words)?;
    if matches!(request, Request::BadWords(_)) {
        say_wrong_name(rt, words);
    }
    let file = request.file();
    match request.listing() {
        Some(name) => {
            let text = read(rt, name.as_str())?;
            view_file(rt, &request.listed(text.as_slice()), file)
        }
        None => view_file(rt, &request, file),
    }
}

// The bytes of a file.
fn read<'n>(rt: &HostRuntime, name: &'n str) -> Result<Vec<u8>, Stop<'n>>
    ensures { IfOk result (λ text. vec_len text ≤ 16777216) }
{
    match read_all(rt.alloc(), &mut StdSource::new(opened(rt, name)?)) {
        Ok(text) => Ok(text),
        Err(ReadAll::NoMemory) => Err(Stop::NoMemory),
        Err(ReadAll::TooLong) => Err(Stop::at(name, ErrorKind::InvalidData)),
        Err(ReadAll::Fault) => Err(Stop::at(name, ErrorKind::Other)),
    }
}

// Does what is asked for of a file, or of standard input.
fn view_file<'n>(
    rt: &HostRuntime,
    request: &Request<'_>,
    file: Option<&'n String>,
) -> Result<u8, Stop<'n>> {
    match file {
        Some(file) => view_reader(rt, request, file.as_str(), opened(rt, file.as_str())?),
        None => view_reader(rt, request, STDIN, rt.reader()),
    }
}

// Names the word that can't be the name of a stage, if there is one. The usage follows.
fn say_wrong_name(rt: &HostRuntime, words: &[String]) {
    if let Some(name) = wrong_name(words) {
        let pieces = [
            b"kpview: ".as_slice(),
            name.as_bytes(),
            b": the name of a stage has 1 to 8 letters, digits or `_`\n".as_slice(),
        ];
        let _ = write_pieces(&mut StdSink::new(rt.stderr()), &pieces);
    }
}

// The same over a reader, under the name of its file.
fn view_reader<'n, R: Read + Drop>(
    rt: &HostRuntime,
    request: &Request<'_>,
    name: &'n str,
    reader: R,
) -> Result<u8, Stop<'n>> {
    let Ok(writer) = BufWriter::with_capacity(rt.alloc(), PAGE, io::writer(rt)) else {
        return Err(Stop::NoMemory);
    };
    let mut source = StdSource::new(reader);
    let mut out = StdSink::new(writer);
    let mut err = StdSink::new(rt.stderr());
    let status = view(rt.alloc(), request, &mut source, &mut out, &mut err);
    ended(status, name, &mut out)
}

// Prints the help of `explain`.
fn help<'n>(rt: &HostRuntime) -> Result<u8, Stop<'n>> {
    match write_all(&mut StdSink::new(io::writer(rt)), HELP.as_bytes()) {
        Ok(()) => Ok(0),
        Err(_) => Err(Stop::Unwritten),
    }
}

// Explains a file, or standard input.
fn explain<'w>(rt: &HostRuntime, order: &Order<'w>) -> Result<u8, Stop<'w>> {
    match order.file {
        Some(file) => explain_reader(rt, order, file.as_str(), opened(rt, file.as_str())?),
        None => explain_reader(rt, order, STDIN, rt.reader()),
    }
}

// Explains what a reader has, under the name of its file.
fn explain_reader<'n, R: Read + Drop>(
    rt: &HostRuntime,
    order: &Order<'_>,
    name: &'n str,
    reader: R,
) -> Result<u8, Stop<'n>> {
    let mut source = StdSource::new(reader);
    let mut err = StdSink::new(rt.stderr());
    let status = explain_source(
        rt.alloc(),
        name.as_bytes(),
        order.subject,
        order.strict,
        &mut source,
        &mut err,
    );
    unless_stopped(status, name)
}

// Says whether the jobs of two inputs are the same.
fn same<'w>(rt: &HostRuntime, pair: &Pair<'w>) -> Result<u8, Stop<'w>> {
    match pair.first.file {
        Some(file) => same_with(rt, file.as_str(), opened(rt, file.as_str())?, pair.second),
        None => same_with(rt, STDIN, rt.reader(), pair.second),
    }
}

// The same where the first input is that of a reader.
fn same_with<'n, R: Read + Drop>(
    rt: &HostRuntime,
    name: &'n str,
    reader: R,
    second: Input<'n>,
) -> Result<u8, Stop<'n>> {
    match second.file {
        Some(file) => same_readers(rt, name, reader, file.as_str(), opened(rt, file.as_str())?),
        None => same_readers(rt, name, reader, STDIN, rt.reader()),
    }
}

// The same of two readers.
fn same_readers<'n, R: Read + Drop, Q: Read + Drop>(
    rt: &HostRuntime,
    name: &'n str,
    reader: R,
    other: &'n str,
    second: Q,
) -> Result<u8, Stop<'n>> {
    let end = same_sources(
        rt.alloc(),
        name.as_bytes(),
        &mut StdSource::new(reader),
        other.as_bytes(),
        &mut StdSource::new(second),
        &mut StdSink::new(io::writer(rt)),
        &mut StdSink::new(rt.stderr()),
    );
    match end {
        Ok(status) => Ok(status),
        Err(kp_view_same::Stop::Unread(Side::First)) => Err(Stop::at(name, ErrorKind::Other)),
        Err(kp_view_same::Stop::Unread(Side::Second)) => Err(Stop::at(other, ErrorKind::Other)),
        Err(kp_view_same::Stop::Unwritten) => Err(Stop::Unwritten),
        Err(kp_view_same::Stop::NoMemory) => Err(Stop::NoMemory),
    }
}
