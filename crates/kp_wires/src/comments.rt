// A module with comments.
ghost use Rattle.std.specs.Prelude.{◌≡◌, ◌<◌, ◌≤◌, ◌+◌, ◌^◌, ◌++◌, ◌∷◌, [], flat_map, if◌then◌else◌, length, IfOk, OnOk};
ghost use Rattle.kp_machine.specs.Slots.{hints_of, pipes_of, targets_of};
ghost use Rattle.kp_synth_registers.specs.Keys.{keys_of};
ghost use Rattle.kp_vlog.specs.Canon.{canon};
ghost use Rattle.kp_core_ports.specs.{Core.is_in_line, Names.names_of, Names.stored, Ports.AllExist};
ghost use Rattle.kp_wires.specs.Comments.{body_note, byte_text, comment_of, end_of, next_line, commented_text, entries, entry, entry_tail, file_lines, node_note, note_at, rest_note, with_comments};

use crate::Wire;
use crate::call::add_called;
use itoa::Buffer;
use kp_ast::Job;
use kp_base::NoMemory;
use kp_core_ports::{Names, Port, add, add_stored, canonical_text, with_ports};
use kp_design::Layout;
use kp_net::Netlist;
use kp_synth_registers::{Key, Keys};
use std::alloc::Global;

/// The module of a netlist of a job, with these ports, and with a comment on each register and each wire of the table. The only error is out of memory.
#[tactic(auto, unfolding(crate::specs::Comments::commented_text))]
pub fn commented_text(
    alloc: Global,
    net: &Netlist,
    layout: &Layout<'_>,
    ports: &[Port],
    wires: &[Wire],
) -> Result<Vec<u8>, NoMemory>
    requires regs { length net.now.parts.regs ≡ length (keys_of layout.now) }
    requires exist { AllExist layout.now ports.now }
    ensures { IfOk result (λ text. text.items ≡ commented_text net.now layout.now ports.now wires.now) }
{
    let text = commented(alloc, net, layout, wires)?;
    with_ports(alloc, net, layout, ports, text.as_slice(), &[])
}

// The canonical text with these comments.
fn commented(
    alloc: Global,
    net: &Netlist,
    layout: &Layout<'_>,
    wires: &[Wire],
) -> Result<Vec<u8>, NoMemory>
    requires { length net.now.parts.regs ≡ length (keys_of layout.now) }
    ensures { IfOk result (λ text. text.items ≡ with_comments (note_at net.now layout.now wires.now) (canon net.now)) }
{
    let names = Names::of(alloc, layout.job().decls.as_slice())?;
    let plain = canonical_text(alloc, net)?;
    let keys = Keys::of(alloc, layout)?;
    with_comments(alloc, plain.as_slice(), net, layout, &keys, &names, wires)
}

// A text with a comment at the end of each line of which something is said.
fn with_comments(
    alloc: Global,
    text: &[u8],
    net: &Netlist,
    layout: &Layout<'_>,
    keys: &Keys,
    names: &Names,
    wires: &[Wire],
) -> Result<Vec<u8>, NoMemory>
    requires keys { keys.now ≡ keys_of layout.now }
    requires regs { length net.now.parts.regs ≡ length (keys_of layout.now) }
    requires targets { names.now.targets.items ≡ names_of (targets_of layout.now.decls) }
    requires pipes { names.now.pipes.items ≡ names_of (pipes_of layout.now.decls) }
    requires hints { names.now.hints.items ≡ names_of (hints_of layout.now.decls) }
    ensures { IfOk result (λ whole. whole.items ≡ with_comments (note_at net.now layout.now wires.now) text.now) }
{
    let mut whole = Vec::new(alloc);
    let mut line = 0;
    for n in 0..text.len() {
        let byte = text[n];
        add_byte(
            alloc, &mut whole, net, layout, keys, names, wires, line, byte,
        )?;
        line = next_line(line, byte);
    }
    Ok(whole)
}

// The number of the line after a byte of a line.
fn next_line(line: usize, byte: u8) -> usize
    requires { line + 1 < 2 ^ 64 }
    ensures number { result ≡ next_line line byte }
    ensures at_most { result ≤ line + 1 }
{
    if is_in_line(byte) { line } else { line + 1 }
}

// Appends a byte of a line, a line feed with the comment of the line before it.
#[tactic(auto, using(std::proofs::Common::append_assoc))]
fn add_byte(
    alloc: Global,
    out: &mut Vec<u8>,
    net: &Netlist,
    layout: &Layout<'_>,
    keys: &Keys,
    names: &Names,
    wires: &[Wire],
    line: usize,
    byte: u8,
) -> Result<(), NoMemory>
    requires keys { keys.now ≡ keys_of layout.now }
    requires regs { length net.now.parts.regs ≡ length (keys_of layout.now) }
    requires targets { names.now.targets.items ≡ names_of (targets_of layout.now.decls) }
    requires pipes { names.now.pipes.items ≡ names_of (pipes_of layout.now.decls) }
    requires hints { names.now.hints.items ≡ names_of (hints_of layout.now.decls) }
    ensures { OnOk result (out.new.items ≡ out.old.items ++ byte_text (note_at net.now layout.now wires.now) line byte) }
{
    add_end(alloc, out, net, layout, keys, names, wires, line, byte)?;
    out.push(byte)?;
    Ok(())
}

// Appends the comment of a line before its line feed.
fn add_end(
    alloc: Global,
    out: &mut Vec<u8>,
    net: &Netlist,
    layout: &Layout<'_>,
    keys: &Keys,
    names: &Names,
    wires: &[Wire],
    line: usize,
    byte: u8,
) -> Result<(), NoMemory>
    requires keys { keys.now ≡ keys_of layout.now }
    requires regs { length net.now.parts.regs ≡ length (keys_of layout.now) }
    requires targets { names.now.targets.items ≡ names_of (targets_of layout.now.decls) }
    requires pipes { names.now.pipes.items ≡ names_of (pipes_of layout.now.decls) }
    requires hints { names.now.hints.items ≡ names_of (hints_of layout.now.decls) }
    ensures { OnOk result (out.new.items ≡ out.old.items ++ end_of (note_at net.now layout.now wires.now) line byte) }
{
    if is_in_line(byte) {
        return Ok(());
    }
    let note = note_at(alloc, net, layout, keys, names, wires, line)?;
    add_comment(out, note.as_slice())
}

fn is_in_line(byte: u8) -> bool
    ensures { result ≡ is_in_line byte }
{
    byte != b'\n'
}

// Appends a comment, if it isn't empty.
fn add_comment(out: &mut Vec<u8>, note: &[u8]) -> Result<(), NoMemory>
    ensures { OnOk result (out.new.items ≡ out.old.items ++ comment_of note.now) }
{
    if note.is_empty() {
        return Ok(());
    }
    out.extend_from_slice(b"  // ")?;
    add_line(out, note)
}

// Appends the bytes of a text other than line feeds.
fn add_line(out: &mut Vec<u8>, note: &[u8]) -> Result<(), NoMemory>
    ensures { OnOk result (out.new.items ≡ out.old.items ++ flat_map (λ b. if is_in_line b then b ∷ [] else []) note.now) }
{
    for byte in note {
        if is_in_line(*byte) {
            out.push(*byte)?;
        }
    }
    Ok(())
}

// What is said of a line.
fn note_at(
    alloc: Global,
    net: &Netlist,
    layout: &Layout<'_>,
    keys: &Keys,
    names: &Names,
    wires: &[Wire],
    line: usize,
) -> Result<Vec<u8>, NoMemory>
    requires keys { keys.now ≡ keys_of layout.now }
    requires regs { length net.now.parts.regs ≡ length (keys_of layout.now) }
    requires targets { names.now.targets.items ≡ names_of (targets_of layout.now.decls) }
    requires pipes { names.now.pipes.items ≡ names_of (pipes_of layout.now.decls) }
    requires hints { names.now.hints.items ≡ names_of (hints_of layout.now.decls) }
    ensures { IfOk result (λ note. note.items ≡ note_at net.now layout.now wires.now line) }
{
    if line == 0 {
        return Ok(Vec::new(alloc));
    }
    body_note(alloc, net, layout, keys, names, wires, line - 1)
}

// The same of a line after the first.
fn body_note(
    alloc: Global,
    net: &Netlist,
    layout: &Layout<'_>,
    keys: &Keys,
    names: &Names,
    wires: &[Wire],
    line: usize,
) -> Result<Vec<u8>, NoMemory>
    requires keys { keys.now ≡ keys_of layout.now }
    requires regs { length net.now.parts.regs ≡ length (keys_of layout.now) }
    requires targets { names.now.targets.items ≡ names_of (targets_of layout.now.decls) }
    requires pipes { names.now.pipes.items ≡ names_of (pipes_of layout.now.decls) }
    requires hints { names.now.hints.items ≡ names_of (hints_of layout.now.decls) }
    ensures { IfOk result (λ note. note.items ≡ body_note net.now layout.now wires.now line) }
{
    let regs = net.parts().regs.as_slice().len();
    if line < regs {
        return register_note(alloc, layout, names, keys.key(line as u32));
    }
    rest_note(alloc, net, layout.job(), names, wires, line - regs)
}

// What is said of a register.
fn register_note(
    alloc: Global,
    layout: &Layout<'_>,
    names: &Names,
    key: Key,
) -> Result<Vec<u8>, NoMemory>
    requires targets { names.now.targets.items ≡ names_of (targets_of layout.now.decls) }
    requires pipes { names.now.pipes.items ≡ names_of (pipes_of layout.now.decls) }
    requires hints { names.now.hints.items ≡ names_of (hints_of layout.now.decls) }
    ensures { IfOk result (λ note. note.items ≡ stored layout.now key) }
{
    let mut note = Vec::new(alloc);
    add_stored(&mut note, layout, names, key)?;
    Ok(note)
}

// What is said of a line after the registers.
fn rest_note(
    alloc: Global,
    net: &Netlist,
    job: &Job,
    names: &Names,
    wires: &[Wire],
    line: usize,
) -> Result<Vec<u8>, NoMemory>
    requires targets { names.now.targets.items ≡ names_of (targets_of job.now.decls) }
    requires pipes { names.now.pipes.items ≡ names_of (pipes_of job.now.decls) }
    requires hints { names.now.hints.items ≡ names_of (hints_of job.now.decls) }
    ensures { IfOk result (λ note. note.items ≡ rest_note net.now job.now wires.now line) }
{
    let files = file_lines(net);
    if line < files {
        return Ok(Vec::new(alloc));
    }
    node_note(alloc, job, names, wires, line - files)
}

// How many lines the files have.
fn file_lines(net: &Netlist) -> usize
    ensures { result ≡ file_lines net.now }
{
    let files = net.parts().files.as_slice().len();
    if files == 0 { 0 } else { files + 1 }
}

// What is said of a line of the nodes: of the second one of each node.
fn node_note(
    alloc: Global,
    job: &Job,
    names: &Names,
    wires: &[Wire],
    line: usize,
) -> Result<Vec<u8>, NoMemory>
    requires targets { names.now.targets.items ≡ names_of (targets_of job.now.decls) }
    requires pipes { names.now.pipes.items ≡ names_of (pipes_of job.now.decls) }
    requires hints { names.now.hints.items ≡ names_of (hints_of job.now.decls) }
    ensures { IfOk result (λ note. note.items ≡ node_note job.now wires.now line) }
{
    if line % 2 != 1 {
        return Ok(Vec::new(alloc));
    }
    let all = entries(alloc, job, names, wires, line / 2)?;
    match all.as_slice() {
        [_, _, rest @ ..] => Ok(Vec::from_slice(alloc, rest)?),
        _ => Ok(Vec::new(alloc)),
    }
}

// The signals that a node is, each after a comma.
fn entries(
    alloc: Global,
    job: &Job,
    names: &Names,
    wires: &[Wire],
    node: usize,
) -> Result<Vec<u8>, NoMemory>
    requires targets { names.now.targets.items ≡ names_of (targets_of job.now.decls) }
    requires pipes { names.now.pipes.items ≡ names_of (pipes_of job.now.decls) }
    requires hints { names.now.hints.items ≡ names_of (hints_of job.now.decls) }
    ensures { IfOk result (λ text. text.items ≡ entries job.now wires.now node) }
{
    let mut text = Vec::new(alloc);
    for wire in wires {
        add_entry(&mut text, job, names, node, *wire)?;
    }
    Ok(text)
}

#[tactic(auto, using(std::proofs::Common::append_assoc))]
fn add_entry(
    out: &mut Vec<u8>,
    job: &Job,
    names: &Names,
    node: usize,
    wire: Wire,
) -> Result<(), NoMemory>
    requires targets { names.now.targets.items ≡ names_of (targets_of job.now.decls) }
    requires pipes { names.now.pipes.items ≡ names_of (pipes_of job.now.decls) }
    requires hints { names.now.hints.items ≡ names_of (hints_of job.now.decls) }
    ensures { OnOk result (out.new.items ≡ out.old.items ++ entry job.now node wire) }
{
    if wire.node.0 as usize != node {
        return Ok(());
    }
    out.extend_from_slice(b", ")?;
    add_called(out, job, names, b" ", wire)?;
    add_entry_tail(out, wire.stage)
}

#[tactic(auto, unfolding(crate::specs::Comments::entry_tail))]
fn add_entry_tail(out: &mut Vec<u8>, stage: u32) -> Result<(), NoMemory>
    ensures { OnOk result (out.new.items ≡ out.old.items ++ entry_tail stage) }
{
    let mut number = Buffer::new();
    let pieces = [b" ".as_slice(), number.format(stage).as_bytes()];
    add(out, &pieces)
}
