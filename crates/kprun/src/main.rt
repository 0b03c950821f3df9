//! The program `kprun`: it passes what the words of its command line ask for, the texts of expectation files, a job or standard input, and the standard streams to
//! the top call.
#![tactic(auto)]

use kp_base::{NoMemory, ReadAll, StdSink, StdSource, read_all};
use kp_program::{PAGE, STDIN, Stop, ended, opened, status_after, words};
use kp_runner::{File, Request, run_job};
use std::io;
use std::io::{BufWriter, ErrorKind, Read};
use std::process::ExitCode;

fn main(rt: HostRuntime) -> ExitCode {
    let mut err = StdSink::new(rt.stderr());
    let status = match words(&rt) {
        Ok(words) => status_after("kprun", run(&rt, &words), &mut err),
        Err(NoMemory) => status_after("kprun", Err(Stop::NoMemory), &mut err),
    };
    ExitCode::from(status)
}

// Does what the words ask for.
fn run<'w>(rt: &HostRuntime, words: &'w [String]) -> Result<u8, Stop<'w>> {
    let request = Request::of(rt.alloc(), words)?;
    let files = files_of(rt, &request)?;
    match &request {
        Request::Run(_, Some(file)) => {
            on_source(
                rt,
                &request,
                &files,
                file.as_str(),
                opened(rt, file.as_str())?,
            )
        }
        _ => on_source(rt, &request, &files, STDIN, rt.reader()),
    }
}

// The expectation files that are asked for.
fn files_of<'w>(rt: &HostRuntime, request: &Request<'w>) -> Result<Vec<File>, Stop<'w>> {
    let mut files = Vec::new(rt.alloc());
    if let Request::Run(settings, _) = request {
        for name in settings.expect.as_slice() {
            let file = read_file(rt, name.as_str())?;
            if files.push(file).is_err() {
                return Err(Stop::NoMemory);
            }
        }
    }
    Ok(files)
}

// A file with its text.
fn read_file<'n>(rt: &HostRuntime, name: &'n str) -> Result<File, Stop<'n>> {
    let Ok(named) = Vec::from_slice(rt.alloc(), name.as_bytes()) else {
        return Err(Stop::NoMemory);
    };
    match read_all(rt.alloc(), &mut StdSource::new(opened(rt, name)?)) {
        Ok(text) => Ok(File { name: named, text }),
        Err(ReadAll::NoMemory) => Err(Stop::NoMemory),
        Err(ReadAll::TooLong) => Err(Stop::at(name, ErrorKind::InvalidData)),
        Err(ReadAll::Fault) => Err(Stop::at(name, ErrorKind::Other)),
    }
}

// Does what is asked for over a reader, under the name of its file.
fn on_source<'n, R: Read + Drop>(
    rt: &HostRuntime,
    request: &Request<'_>,
    files: &[File],
    name: &'n str,
    reader: R,
) -> Result<u8, Stop<'n>> {
    let Ok(writer) = BufWriter::with_capacity(rt.alloc(), PAGE, io::writer(rt)) else {
        return Err(Stop::NoMemory);
    };
    let mut source = StdSource::new(reader);
    let mut out = StdSink::new(writer);
    let mut err = StdSink::new(rt.stderr());
    let status = run_job(rt.alloc(), request, files, &mut source, &mut out, &mut err);
    ended(status, name, &mut out)
}
