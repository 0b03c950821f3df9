//! Cases of change dumps: reads a dump, and writes it again.
ghost use Rattle.std.specs.Prelude.{◌≤◌, ◌-◌, ◌^◌, length};

use crate::report::{Report, Term};
use kp_base::{MemSink, Place};
use kp_vcd::{Dump, DumpRefused, read_dump, write_dump};
use std::alloc::Global;

/// The greatest length of the text of a dump, in bytes.
const MOST: usize = 16_777_216;

/// Appends what a dump contains, or the rule that it violates. The line feed that ends the input is not part of the dump.
pub fn add_dump(report: &mut Report, alloc: Global, input: &[u8]) {
    let text = input.strip_suffix(b"\n").unwrap_or(input);
    if text.len() > MOST {
        return report.add(&[Term::Text(b"too long\n")]);
    }
    match read_dump(alloc, text) {
        Ok(dump) => add_read(report, alloc, &dump, text),
        Err(DumpRefused::Rule(rule, place)) => add_refused(report, rule, place),
        Err(DumpRefused::NoMemory) => report.fail(),
    }
}

fn add_refused(report: &mut Report, rule: u8, place: Place) {
    report.add(&[
        Term::Text(b"refused "),
        Term::Number(u64::from(rule)),
        Term::Text(b" "),
        Term::Number(u64::from(place.line)),
        Term::Text(b":"),
        Term::Number(u64::from(place.col)),
        Term::Text(b"\n"),
    ]);
}

fn add_read(report: &mut Report, alloc: Global, dump: &Dump, text: &[u8]) {
    add_counts(
        report,
        dump.module.bytes(),
        dump.signals.as_slice().len(),
        dump.moments.as_slice().len(),
        changes_in(dump),
    );
    match MemSink::new(alloc, 2 * MOST, MOST, Vec::new(alloc)) {
        Ok(mut sink) => add_written(report, dump, text, &mut sink),
        Err(_) => report.fail(),
    }
}

fn add_counts(report: &mut Report, name: &[u8], signals: usize, times: usize, changes: u64) {
    report.add(&[
        Term::Text(name),
        Term::Text(b": "),
        Term::Number(signals as u64),
        Term::Text(b" signals, "),
        Term::Number(times as u64),
        Term::Text(b" times, "),
        Term::Number(changes),
        Term::Text(b" changes\n"),
    ]);
}

fn changes_in(dump: &Dump) -> u64 {
    let mut changes: u64 = 0;
    for moment in dump.moments.as_slice() {
        changes = changes.saturating_add(moment.changes.as_slice().len() as u64);
    }
    changes
}

fn add_written(report: &mut Report, dump: &Dump, text: &[u8], sink: &mut MemSink) {
    if write_dump(dump, sink).is_err() {
        return report.add(&[Term::Text(b"not written\n")]);
    }
    if sink.bytes() == text {
        return report.add(&[Term::Text(b"the same text\n")]);
    }
    report.add(&[Term::Text(sink.bytes())]);
}
