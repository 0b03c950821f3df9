// The table as lines.
ghost use Rattle.std.specs.Prelude.{◌≡◌, ◌++◌, IfOk, OnOk};
ghost use Rattle.kp_machine.specs.Slots.{hints_of, pipes_of, targets_of};
ghost use Rattle.kp_core_ports.specs.Names.{names_of};
ghost use Rattle.kp_wires.specs.Texts.{row_head, row_tail, wire_row, wires_text};

use crate::Wire;
use crate::call::add_called;
use itoa::Buffer;
use kp_ast::Job;
use kp_base::NoMemory;
use kp_core_ports::{Names, add};
use std::alloc::Global;

/// A line for each wire, in their order: its node, its kind, its name and its stage. The only error is out of memory.
#[tactic(auto, unfolding(crate::specs::Texts::wires_text))]
pub fn wires_text(alloc: Global, job: &Job, wires: &[Wire]) -> Result<Vec<u8>, NoMemory>
    ensures { IfOk result (λ text. text.items ≡ wires_text job.now wires.now) }
{
    let names = Names::of(alloc, job.decls.as_slice())?;
    let mut text = Vec::new(alloc);
    for wire in wires {
        add_row(&mut text, job, &names, *wire)?;
    }
    Ok(text)
}

// Appends the line of a wire.
#[tactic(auto, using(std::proofs::Common::append_assoc))]
fn add_row(out: &mut Vec<u8>, job: &Job, names: &Names, wire: Wire) -> Result<(), NoMemory>
    requires targets { names.now.targets.items ≡ names_of (targets_of job.now.decls) }
    requires pipes { names.now.pipes.items ≡ names_of (pipes_of job.now.decls) }
    requires hints { names.now.hints.items ≡ names_of (hints_of job.now.decls) }
    ensures { OnOk result (out.new.items ≡ out.old.items ++ wire_row job.now wire) }
{
    add_head(out, wire.node.0)?;
    add_called(out, job, names, b" ", wire)?;
    add_tail(out, wire.stage)
}

#[tactic(auto, unfolding(crate::specs::Texts::row_head))]
fn add_head(out: &mut Vec<u8>, node: u32) -> Result<(), NoMemory>
    ensures { OnOk result (out.new.items ≡ out.old.items ++ row_head node) }
{
    let mut number = Buffer::new();
    let pieces = [
        b"n".as_slice(),
        number.format(node).as_bytes(),
        b" ".as_slice(),
    ];
    add(out, &pieces)
}

#[tactic(auto, unfolding(crate::specs::Texts::row_tail))]
fn add_tail(out: &mut Vec<u8>, stage: u32) -> Result<(), NoMemory>
    ensures { OnOk result (out.new.items ≡ out.old.items ++ row_tail stage) }
{
    let mut number = Buffer::new();
    let pieces = [
        b" ".as_slice(),
        number.format(stage).as_bytes(),
        b"\n".as_slice(),
    ];
    add(out, &pieces)
}
