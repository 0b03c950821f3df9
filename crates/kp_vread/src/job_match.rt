// How a netlist differs from a job, if it does.
ghost use Rattle.std.specs.Prelude.{◌≡◌, MatchOption};
ghost use Rattle.kp_machine.specs.Slots.{targets_of};
ghost use Rattle.kp_implements.specs.Shows.{IsOfJob};
ghost use Rattle.kp_vread.specs.Matching.{not_of_job, first_mismatch, of_ports, of_targets, of_registers, of_files};

use crate::targets::{has_target, is_port_of, names_file, names_register};
use kp_ast::{Decl, Job};
use kp_base::{Place, Refusal};
use kp_net::{NetFile, NetReg, Netlist, Parts, Port};
use kp_stage::Design;

/// A way in which a netlist isn't one of a job. What it is of is numbered from 0: the declarations of the job, or the registers or files of the netlist.
#[derive(Clone, Copy, Debug)]
pub enum Mismatch {
    /// The stall word has another number of bits than the job has stages.
    Stages { bits: u8, stages: u64 },
    /// The netlist has no port for this sample at its place, or no register or file for this declaration, with its name and its widths.
    Absent { decl: usize },
    /// The last ports, this many, are of no sample.
    OtherPorts { count: usize },
    /// The name of this register begins with `r_`, and isn't that of a declared register.
    OtherRegister { register: usize },
    /// The name of this file isn't that of a declared one.
    OtherFile { file: usize },
}

impl Mismatch {
    /// The violated rule: V6 at 1:1, for any difference.
    pub fn refusal(self) -> Refusal
        ensures { result ≡ not_of_job }
    {
        Refusal::v(6, Place::START)
    }
}

/// The first difference between a netlist and those of the job, in this order: its stall word `ext` has a bit for each stage; its sample ports are `s_Q`
/// for the samples Q of the job, in the order of declaration and with their widths in bits; for each register R it has a register `r_R`, and for each file
/// F a file `f_F`, with the same widths in bits, of words and of addresses; no other registers begin with `r_`; and there are no other files. The name of
/// the module isn't compared, nor whether there is a reset.
pub fn first_mismatch(net: &Netlist, design: &Design) -> Option<Mismatch>
    ensures first { result ≡ first_mismatch net.now.parts design.now.job }
    ensures exact { MatchOption result (IsOfJob net.now design.now.job) (λ _. IsOfJob net.now design.now.job → ⊥) }
{
    of_parts(net.parts(), design.job())
}

fn of_parts(parts: &Parts, job: &Job) -> Option<Mismatch>
    ensures { result ≡ first_mismatch parts.now job.now }
{
    let decls = job.decls.as_slice();
    let stages = job.stages.value;
    if u64::from(parts.ext) != stages {
        let bits = parts.ext;
        return Some(Mismatch::Stages { bits, stages });
    }
    let of_ports = of_ports(decls, parts.samples.as_slice());
    if of_ports.is_some() {
        return of_ports;
    }
    let of_targets = of_targets(parts, decls);
    if of_targets.is_some() {
        return of_targets;
    }
    let of_registers = of_registers(decls, parts.regs.as_slice());
    if of_registers.is_some() {
        return of_registers;
    }
    of_files(decls, parts.files.as_slice())
}

// The ports are those of the samples that are declared.
fn of_ports(decls: &[Decl], ports: &[Port]) -> Option<Mismatch>
    ensures { result ≡ of_ports 0 decls.now ports.now }
{
    let mut left = ports;
    for (decl, it) in decls.iter().enumerate() {
        if let Decl::Sample(name, width, _) = it {
            let [port, behind @ ..] = left else {
                return Some(Mismatch::Absent { decl });
            };
            if !is_port_of(port, &name.name, width.value) {
                return Some(Mismatch::Absent { decl });
            }
            left = behind;
        }
    }
    if left.is_empty() {
        return None;
    }
    Some(Mismatch::OtherPorts { count: left.len() })
}

// Each declared register and each declared file exists, with its widths.
fn of_targets(parts: &Parts, decls: &[Decl]) -> Option<Mismatch>
    ensures { result ≡ of_targets parts.now 0 decls.now }
{
    for (decl, it) in decls.iter().enumerate() {
        if !has_target(parts, it) {
            return Some(Mismatch::Absent { decl });
        }
    }
    None
}

// Each register whose name begins with `r_` is declared.
fn of_registers(decls: &[Decl], regs: &[NetReg]) -> Option<Mismatch>
    ensures { result ≡ of_registers (targets_of decls.now) 0 regs.now }
{
    for (register, it) in regs.iter().enumerate() {
        if it.name.bytes().starts_with(b"r_") && !names_register(decls, &it.name) {
            return Some(Mismatch::OtherRegister { register });
        }
    }
    None
}

// Each file is declared.
fn of_files(decls: &[Decl], files: &[NetFile]) -> Option<Mismatch>
    ensures { result ≡ of_files (targets_of decls.now) 0 files.now }
{
    for (file, it) in files.iter().enumerate() {
        if !names_file(decls, &it.name) {
            return Some(Mismatch::OtherFile { file });
        }
    }
    None
}
