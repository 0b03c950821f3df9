//! The program `kpcore`: it passes what the words of its command line ask for, a file or standard input, and the standard streams to the top call.
#![tactic(auto)]

use kp_base::{NoMemory, StdSink, StdSource};
use kp_core::{Request, run_core};
use kp_program::{PAGE, STDIN, Stop, ended, opened, status_after, words};
use std::io;
use std::io::{BufWriter, Read};
use std::process::ExitCode;

fn main(rt: HostRuntime) -> ExitCode {
    let mut err = StdSink::new(rt.stderr());
    let status = match words(&rt) {
        Ok(words) => status_after("kpcore", run(&rt, &words), &mut err),
        Err(NoMemory) => status_after("kpcore", Err(Stop::NoMemory), &mut err),
    };
    ExitCode::from(status)
}

// Does what the words ask for.
fn run<'w>(rt: &HostRuntime, words: &'w [String]) -> Result<u8, Stop<'w>> {
    let request = Request::of(rt.alloc(), words)?;
    match request {
        Request::Core(_, Some(file)) => {
            on_source(rt, &request, file.as_str(), opened(rt, file.as_str())?)
        }
        _ => on_source(rt, &request, STDIN, rt.reader()),
    }
}

// The same over a reader, under the name of its file.
fn on_source<'n, R: Read + Drop>(
    rt: &HostRuntime,
    request: &Request<'_>,
    name: &'n str,
    reader: R,
) -> Result<u8, Stop<'n>> {
    let Ok(writer) = BufWriter::with_capacity(rt.alloc(), PAGE, io::writer(rt)) else {
        return Err(Stop::NoMemory);
    };
    let mut source = StdSource::new(reader);
    let mut out = StdSink::new(writer);
    let mut err = StdSink::new(rt.stderr());
    let status = run_core(rt.alloc(), request, &mut source, &mut out, &mut err);
    ended(status, name, &mut out)
}
