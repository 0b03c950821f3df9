//! The run of a netlist under the stalls and inputs of its job.
ghost use Rattle.std.specs.Prelude.{◌≤◌, length, IsTrue};
ghost use Rattle.kp_net.specs.Netlist.{Net};
ghost use Rattle.kp_cycle.specs.Steps.{SamplesFit, ShowsRows};

use crate::report::{Report, Term};
use kp_base::Row;
use kp_bits::Bits;
use kp_cycle::Sim;
use kp_frontend::Accepted;
use kp_net::Netlist;
use kp_sched::row_line;
use std::alloc::Global;

/// Runs `count` cycles, and appends the line of each, and the last state.
pub fn add_cycles(report: &mut Report, alloc: Global, net: &Netlist, job: &Accepted, count: u64)
    requires { ShowsRows net.now }
{
    let Ok(mut sim) = Sim::open(alloc, net) else {
        return report.fail();
    };
    for cycle in 0..count {
        add_cycle(report, alloc, &mut sim, job, cycle);
    }
    add_registers(report, &sim);
    add_files(report, &sim);
}

// Appends the line of one cycle under the job's stall word and samples.
fn add_cycle(report: &mut Report, alloc: Global, sim: &mut Sim<'_>, job: &Accepted, cycle: u64) {
    let Ok(samples) = job.sections.inputs.row(alloc, cycle) else {
        return report.fail();
    };
    if !samples_fit(sim.netlist(), samples.as_slice()) {
        return report.add(&[Term::Text(b"refused\n")]);
    }
    let ext = job.sections.stalls.word(cycle);
    let row = sim.step_with(ext, false, samples.as_slice());
    add_row(report, cycle, sim.netlist().parts().ext, row);
}

fn samples_fit(net: &Netlist, samples: &[Bits]) -> bool
    ensures { IsTrue result → SamplesFit net.now samples.now }
{
    let ports = net.parts().samples.as_slice();
    if samples.len() != ports.len() {
        return false;
    }
    for i in 0..samples.len() {
        if samples[i].width() != ports[i].width {
            return false;
        }
    }
    true
}

fn add_row(report: &mut Report, cycle: u64, stages: u8, row: Row) {
    if stages < 2 || 12 < stages {
        return report.add(&[Term::Text(b"refused\n")]);
    }
    let mut line = [0u8; 80];
    let length = row_line(cycle, stages, row, &mut line);
    report.add(&[Term::Text(&line[..length])]);
}

// Appends the registers of the job.
fn add_registers(report: &mut Report, sim: &Sim<'_>) {
    for i in 0..sim.netlist().parts().regs.as_slice().len() {
        add_register(report, sim, i);
    }
}

fn add_register(report: &mut Report, sim: &Sim<'_>, i: usize) {
    if let Some(reg) = sim.netlist().parts().regs.as_slice().get(i) {
        add_value(report, reg.name.bytes(), sim.value(i as u32).value());
    }
}

fn add_value(report: &mut Report, name: &[u8], value: u64) {
    if name.starts_with(b"r_") {
        report.add(&[
            Term::Text(name),
            Term::Text(b" = "),
            Term::Number(value),
            Term::Text(b"\n"),
        ]);
    }
}

// Appends the words of files that are not 0.
fn add_files(report: &mut Report, sim: &Sim<'_>) {
    for i in 0..sim.netlist().parts().files.as_slice().len() {
        add_file(report, sim, i);
    }
}

fn add_file(report: &mut Report, sim: &Sim<'_>, i: usize) {
    if let Some(file) = sim.netlist().parts().files.as_slice().get(i) {
        for address in 0..1u32 << file.address_width {
            let word = sim.word(i as u32, address).value();
            add_word(report, file.name.bytes(), address, word);
        }
    }
}

fn add_word(report: &mut Report, name: &[u8], address: u32, word: u64) {
    if word != 0 {
        report.add(&[
            Term::Text(name),
            Term::Text(b"["),
            Term::Number(u64::from(address)),
            Term::Text(b"] = "),
            Term::Number(word),
            Term::Text(b"\n"),
        ]);
    }
}
