//! The run of a circuit.
ghost use Rattle.std.specs.Prelude.{◌≡◌, ◌<◌, ◌≤◌, ◌^◌, length, get_or, IsTrue, IfSome};
ghost use Rattle.kp_net.specs.Netlist.{Net};
ghost use Rattle.kp_net.specs.Widths.{wide};
ghost use Rattle.kp_net.specs.Growth.{Held};
ghost use Rattle.kp_net.specs.Parts.{PartsOk};
ghost use Rattle.kp_cycle.specs.Steps.{SamplesFit, ShowsRows};

use crate::checks::runs;
use crate::circuit::Circuit;
use crate::line::{Line, cut};
use crate::report::{Report, Term};
use kp_base::Row;
use kp_bits::Bits;
use kp_cycle::Sim;
use kp_net::Netlist;
use kp_pool::Pool;
use std::alloc::Global;

/// The netlist of a circuit, if its parts are as a simulator requires. The parts are moved out of the circuit.
pub fn netlist(alloc: Global, mut pool: Pool, circuit: &mut Circuit<'_>) -> Option<Netlist>
    ensures { IfSome result (λ net. ShowsRows net) }
{
    let parts = circuit.parts(alloc, &mut pool)?;
    if runs(&pool, &parts) {
        Some(pool.close(parts))
    } else {
        drop(pool);
        drop(parts);
        None
    }
}

/// Runs the cycles of a circuit, and appends each row and the states before and after.
pub fn add_run(report: &mut Report, alloc: Global, net: &Netlist, lines: &[u8])
    requires { ShowsRows net.now }
{
    match Sim::open(alloc, net) {
        Ok(mut sim) => {
            add_cycles(report, alloc, &mut sim, lines);
            drop(sim);
        }
        Err(_) => report.add(&[Term::Text(b"refused\n")]),
    }
}

// Runs the cycles up to the first that is not well-formed.
fn add_cycles(report: &mut Report, alloc: Global, sim: &mut Sim<'_>, lines: &[u8]) {
    add_state(report, sim);
    let mut rest = lines;
    while !rest.is_empty() {
        let (text, after) = cut(rest, b'\n');
        rest = after;
        if !add_line(report, alloc, sim, Line(text)) {
            return;
        }
    }
}

// Runs the cycle of a line, if it is one. Returns whether the line is well-formed.
fn add_line(report: &mut Report, alloc: Global, sim: &mut Sim<'_>, line: Line<'_>) -> bool {
    let is_reset = line.word(0) == b"reset-cycle".as_slice();
    if !is_reset && line.word(0) != b"cycle".as_slice() {
        return true;
    }
    let row = cycle(alloc, sim, line, is_reset);
    match row {
        Some(row) => {
            add_row(report, row);
            add_state(report, sim);
        }
        None => report.add(&[Term::Text(b"refused\n")]),
    }
    row.is_some()
}

fn add_row(report: &mut Report, row: Row) {
    report.add(&[
        Term::Text(b"row "),
        Term::Number(u64::from(row.full)),
        Term::Text(b" "),
        Term::Number(u64::from(row.ue)),
        Term::Text(b" "),
        Term::Number(u64::from(row.back)),
        Term::Text(b"\n"),
    ]);
}

// Runs the cycle of a line, if it is well-formed.
fn cycle(alloc: Global, sim: &mut Sim<'_>, line: Line<'_>, is_reset: bool) -> Option<Row> {
    let ext = (line.number(1)? % 65536) as u16;
    if !is_reset && sim.netlist().parts().samples.as_slice().is_empty() {
        return Some(sim.step(ext));
    }
    let samples = samples_of(alloc, sim.netlist(), line)?;
    if !samples_fit(sim.netlist(), samples.as_slice()) {
        return None;
    }
    Some(sim.step_with(ext, is_reset, samples.as_slice()))
}

// The values of the sample ports.
fn samples_of(alloc: Global, net: &Netlist, line: Line<'_>) -> Option<Vec<Bits>> {
    let mut samples = Vec::new(alloc);
    let ports = net.parts().samples.as_slice();
    for i in 0..ports.len() {
        let value = line.number(i + 2)?;
        samples.push(Bits::new(ports[i].width, value)?).ok()?;
    }
    Some(samples)
}

fn samples_fit(net: &Netlist, samples: &[Bits]) -> bool
    ensures { IsTrue result → SamplesFit net.now samples.now }
{
    let ports = net.parts().samples.as_slice();
    if samples.len() != ports.len() {
        return false;
    }
    for i in 0..samples.len() {
        if samples[i].width() != ports[i].width {
            return false;
        }
    }
    true
}

// Appends the registers, and the words of files that are not 0.
fn add_state(report: &mut Report, sim: &Sim<'_>) {
    let parts = sim.netlist().parts();
    for i in 0..parts.regs.as_slice().len() {
        add_register(report, sim, i);
    }
    for i in 0..parts.files.as_slice().len() {
        add_file(report, sim, i);
    }
}

fn add_register(report: &mut Report, sim: &Sim<'_>, i: usize) {
    if let Some(reg) = sim.netlist().parts().regs.as_slice().get(i) {
        add_value(report, reg.name.bytes(), sim.value(i as u32).value());
    }
}

fn add_value(report: &mut Report, name: &[u8], value: u64) {
    report.add(&[
        Term::Text(b"  "),
        Term::Text(name),
        Term::Text(b" = "),
        Term::Number(value),
        Term::Text(b"\n"),
    ]);
}

fn add_file(report: &mut Report, sim: &Sim<'_>, i: usize) {
    if let Some(file) = sim.netlist().parts().files.as_slice().get(i) {
        for address in 0..1u32 << file.address_width {
            add_word(
                report,
                file.name.bytes(),
                address,
                sim.word(i as u32, address).value(),
            );
        }
    }
}

fn add_word(report: &mut Report, name: &[u8], address: u32, word: u64) {
    if word != 0 {
        report.add(&[
            Term::Text(b"  "),
            Term::Text(name),
            Term::Text(b"["),
            Term::Number(u64::from(address)),
            Term::Text(b"] = "),
            Term::Number(word),
            Term::Text(b"\n"),
        ]);
    }
}
