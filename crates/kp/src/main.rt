//! The program: it passes the arguments of its command line and the standard streams to the top call.
#![tactic(auto)]

use kp_base::{StdSink, StdSource};
use kp_program::{PAGE, STDIN, Stop, ended, words};
use kp_tool::tool;
use std::io;
use std::io::BufWriter;
use std::process::ExitCode;

fn main(rt: HostRuntime) -> ExitCode {
    match run(&rt) {
        Ok(status) => ExitCode::from(status),
        Err(stop) => ExitCode::from(stop.status()),
    }
}

fn run<'n>(rt: &HostRuntime) -> Result<u8, Stop<'n>> {
    let words = words(rt)?;
    let Ok(writer) = BufWriter::with_capacity(rt.alloc(), PAGE, io::writer(rt)) else {
        return Err(Stop::NoMemory);
    };
    let mut source = StdSource::new(rt.reader());
    let mut sink = StdSink::new(writer);
    let status = tool(rt.alloc(), &words, &mut source, &mut sink);
    ended(status, STDIN, &mut sink)
}
