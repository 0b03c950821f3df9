//! Reads circuits, and prints the nodes that the pool returns and the runs of the circuits.
//!
//! Standard input contains the circuits. Each starts with its title, a line that is printed, and ends with an empty line. Between them are lines
//! of words, with one space before each word but the first:
//!
//! - `ext W`, `reset`, `sample NAME W`, `reg NAME W START`, `file NAME W A WORD..`: the width of the stall word, that there is a reset,
//!   and the ports, registers and files. A file has 2^A words, of which those that are not given are 0;
//! - `NAME = OPERATION ..`: a node that is requested. The operations are `const W VALUE`, `bit VALUE`, `not A`, `and A B` and so for
//!   `or xor add sub mul eq lt shl shr`, `mux TEST YES NO`, `join A B ..`, `part A HI LO`; of single bits `inverse A`, `both A B`,
//!   `either A B`, `pick TEST YES NO`; `same A B`; and `ext`, `sample PORT`, `reg REGISTER`, `file FILE ADDRESS`;
//! - `NAME = CALL ..`: the nodes of a pipeline's control. The calls are `hit FULL KNOWN ENABLE [A B]`, where KNOWN is 0 or 1 and ENABLE
//!   is `-` if there is none; `stall FULL HAZARD EXT ABOVE`, `update FULL STALL SWEPT`, `full-next UPDATE STALL SWEPT` and
//!   `mismatch FULL PENDING KNOWN TRUTH GUESS`; `select NONE HIT OK VALUE ..`, with the nearest row first, which names NAME.any, NAME.ok
//!   and NAME.value; `carried VALID STORED LAST [ENABLE VALUE]`, where LAST is 0 or 1, which names NAME.has, NAME.fresh and NAME.value;
//!   and `sweep N MISS ..`, with a miss for each of the stages 0 to 11, which names NAME.back and NAME.0 to NAME.11;
//! - `next REGISTER A`, `write FILE ENABLE ADDRESS VALUE`, `full A`, `ue A`, `back A`: the next values of registers, the write ports of
//!   files, and the outputs;
//! - `cycle EXT VALUE..`, `reset-cycle EXT VALUE..`: a cycle with this stall word and these values of the sample ports;
//! - `only rows`: no nodes of this circuit are printed.
//!
//! All numbers are decimal. For each operation that is requested, the node that the pool returns is printed, with its number, its width,
//! its depth and its kind. Then come the number of nodes; the registers, and the words of files that are not 0; and for each cycle
//! its row, and registers and files after it. What is not well-formed, or exceeds the capacity, is `refused`.
#![tactic(auto)]

ghost use Rattle.std.specs.Prelude.{◌<◌, ◌≤◌, length};

mod checks;
mod circuit;
mod controls;
mod gates;
mod line;
mod nodes;
mod operations;
mod report;
mod run;

use circuit::Circuit;
use kp_pool::Pool;
use line::{Line, cut};
use nodes::ROOM;
use report::{Report, Term};
use run::{add_run, netlist};
use std::alloc::{AllocError, Global};
use std::io;
use std::io::{Read, Write};

fn main(rt: HostRuntime) -> io::Result<()> {
    let alloc = rt.alloc();
    let mut text = Vec::new(alloc);
    rt.reader().read_to_end(&mut text)?;
    let mut report = Report::new(alloc);
    add_cases(&mut report, alloc, text.as_slice());
    match report.text() {
        Some(text) => io::writer(&rt).write_all(text),
        None => Err(AllocError.into()),
    }
}

fn add_cases(report: &mut Report, alloc: Global, text: &[u8]) {
    let mut rest = text;
    while !rest.is_empty() {
        let (case, after) = cut_case(rest);
        rest = after;
        add_case(report, alloc, case);
    }
}

// The text before the first empty line, and the text after it.
fn cut_case(text: &[u8]) -> (&[u8], &[u8])
    ensures { 1 ≤ length text.now → length result.1.now < length text.now }
{
    for at in 1..text.len() {
        if text[at - 1] == b'\n' && text[at] == b'\n' {
            return (&text[..at], &text[at + 1..]);
        }
    }
    (text, &[])
}

fn add_case(report: &mut Report, alloc: Global, case: &[u8]) {
    let (title, lines) = cut(case, b'\n');
    report.add(&[Term::Text(title), Term::Text(b"\n")]);
    let mut circuit = Circuit::new(alloc);
    match Pool::reserve(alloc, ROOM) {
        Ok(pool) => add_circuit(report, alloc, pool, &mut circuit, lines),
        Err(_) => report.add(&[Term::Text(b"refused\n")]),
    }
    report.add(&[Term::Text(b"\n")]);
}

// Appends the nodes that the lines of a circuit name, and its run.
fn add_circuit<'t>(
    report: &mut Report,
    alloc: Global,
    mut pool: Pool,
    circuit: &mut Circuit<'t>,
    lines: &'t [u8],
) {
    add_lines(report, alloc, &mut pool, circuit, lines);
    if !circuit.runs {
        return;
    }
    match netlist(alloc, pool, circuit) {
        Some(net) => add_run(report, alloc, &net, lines),
        None => report.add(&[Term::Text(b"refused\n")]),
    }
}

// Processes the lines of a circuit, and appends the nodes that they name.
fn add_lines<'t>(
    report: &mut Report,
    alloc: Global,
    pool: &mut Pool,
    circuit: &mut Circuit<'t>,
    lines: &'t [u8],
) {
    let mut rest = lines;
    while !rest.is_empty() {
        let (text, after) = cut(rest, b'\n');
        rest = after;
        let line = Line(text);
        let is_taken = if line.word(1) == b"=".as_slice() {
            controls::name(report, alloc, pool, circuit, line)
        } else {
            circuit.take(alloc, &*pool, line)
        };
        if !is_taken {
            report.add(&[Term::Text(line.word(0)), Term::Text(b": refused\n")]);
        }
    }
    if !circuit.only_rows {
        report.add(&[
            Term::Text(b"nodes "),
            Term::Number(pool.nodes().len() as u64),
            Term::Text(b"\n"),
        ]);
    }
}
