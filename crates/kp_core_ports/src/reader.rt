// All lines.
ghost use Rattle.std.specs.Prelude.{◌≡◌, ◌≤◌, ◌-◌, ◌^◌, ◌<◌, [], length, map, All, IfOk, IfErr, OnOk};
ghost use Rattle.kp_base.specs.Lines.{IsWithin, piece_of};
ghost use Rattle.kp_core_ports.specs.Ports.{port_in, ports_from, ports_of, tokens_of, AllExist};
ghost use Rattle.kp_core_ports.specs.Rules.{Yields};
ghost use Rattle.kp_core_ports.specs.inner.Reading.{IsAdded, IsBroken};

use crate::line::port_in;
use crate::port::{Port, PortsRefused};
use crate::words::uncommented;
use kp_base::{Run, lines_in, words_in};
use kp_design::Layout;
use std::alloc::Global;

/// Reads the lines that start at an offset of a text and ask for ports of the module of a job.
///
/// Errors: P1 if a line doesn't have one of the forms, or asks for a port whose name an earlier line gave, at its first token; P2 if a name isn't that of a
/// register, of a file or of a pipe, at the name; P3 if a number isn't that of a stage that holds the pipe, at the number. Of the rules that a line
/// violates the one with the lowest number is reported, and of the lines that violate one the first. The only other error is out of memory.
pub fn read_ports(
    alloc: Global,
    layout: &Layout<'_>,
    text: &[u8],
    from: u32,
) -> Result<Vec<Port>, PortsRefused>
    requires within { from ≤ length text.now }
    requires fits { length text.now ≤ 2 ^ 32 - 2 }
    requires few { length layout.now.decls < 2 ^ 32 }
    ensures ports { Yields result (ports_of layout.now text.now from) (λ ports. ports.items) }
    ensures exist { IfOk result (λ ports. AllExist layout.now ports.items) }
{
    let end = text.len() as u32;
    let lines = lines_in(alloc, text, Run { at: from, end })?;
    let mut ports = Vec::new(alloc);
    add_lines(alloc, layout, text, lines.as_slice(), &mut ports)?;
    Ok(ports)
}

// Appends the ports that lines ask for.
fn add_lines(
    alloc: Global,
    layout: &Layout<'_>,
    text: &[u8],
    lines: &[Run],
    ports: &mut Vec<Port>,
) -> Result<(), PortsRefused>
    requires runs { All (IsWithin text.now) lines.now }
    requires fits { length text.now ≤ 2 ^ 32 - 2 }
    requires few { length layout.now.decls < 2 ^ 32 }
    requires none { ports.old.items ≡ [] }
    ensures ports { Yields result (ports_from layout.now text.now [] (map (piece_of text.now) lines.now)) (λ _. ports.new.items) }
    ensures exist { OnOk result (AllExist layout.now ports.new.items) }
{
    for line in lines {
        add_line(alloc, layout, text, *line, ports)?;
    }
    Ok(())
}

// Appends the ports that a line asks for, if it has any tokens.
fn add_line(
    alloc: Global,
    layout: &Layout<'_>,
    text: &[u8],
    line: Run,
    ports: &mut Vec<Port>,
) -> Result<(), PortsRefused>
    requires within { IsWithin text.now line }
    requires fits { length text.now ≤ 2 ^ 32 - 2 }
    requires few { length layout.now.decls < 2 ^ 32 }
    requires exist { AllExist layout.now ports.old.items }
    ensures added { OnOk result (IsAdded (port_in layout.now text.now ports.old.items (tokens_of (piece_of text.now line))) ports.old.items ports.new.items) }
    ensures broken { IfErr result (λ e. IsBroken (port_in layout.now text.now ports.old.items (tokens_of (piece_of text.now line))) ports.old.items e) }
    ensures exist { OnOk result (AllExist layout.now ports.new.items) }
{
    let words = words_in(alloc, text, uncommented(text, line))?;
    match port_in(alloc, layout, text, ports.as_slice(), words.as_slice())? {
        Some(port) => {
            ports.push(port)?;
            Ok(())
        }
        None => Ok(()),
    }
}
