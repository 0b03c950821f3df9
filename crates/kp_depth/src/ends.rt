// Where paths end.
ghost use Rattle.std.specs.Prelude.{◌≡◌, ◌+◌, ◌<◌, ◌≤◌, ◌++◌, length, get_or, OnOk, IfOk};
ghost use Rattle.kp_net.specs.Parts.{no_file};
ghost use Rattle.kp_machine.specs.Machine.{files_before, registers_before};
ghost use Rattle.kp_machine.specs.Slots.{targets_of};
ghost use Rattle.kp_design.specs.Fits.{port_at};
ghost use Rattle.kp_synth_registers.specs.Keys.{HasKey, key_at, keys_of};
ghost use Rattle.kp_depth.specs.Delay.{kind_of};
ghost use Rattle.kp_depth.specs.Paths.{kind_at};
ghost use Rattle.kp_depth.specs.Ends.{each_below, ends_of as all_ends, is_own as is_own_kind, next_ends, port_stage, register_ends, sort_of as key_sort, stage_of as key_stage, target_ends, word_end, word_ends, write_ends};

use kp_base::NoMemory;
use kp_design::{Layout, Port};
use kp_net::{Kind, Netlist, Node, NodeId, WritePort};
use kp_synth_registers::{Key, Keys};
use std::alloc::Global;

/// What takes the value of a node: a register or a file, by its number, or a word of a file outside, by its address.
#[derive(Clone, Copy)]
pub enum Holder {
    Register(u32),
    File(u32),
    Address(u32),
}

/// Whether an end is a value that is stored, or decides what is stored and which instructions go on.
#[derive(Clone, Copy)]
pub enum Sort {
    Data,
    Control,
}

/// The end of paths: the stage whose work it is, and its node.
#[derive(Clone, Copy)]
pub struct End {
    pub stage: u32,
    pub sort: Sort,
    pub holder: Holder,
    pub node: NodeId,
}

fn port_stage_of(port: Option<Port>) -> u32
    ensures { result ≡ port_stage port }
{
    match port {
        Some(port) => port.write,
        None => 0,
    }
}

// The stage that computes what the register of a key takes.
fn stage_of(layout: &Layout<'_>, key: Key) -> u32
    requires { HasKey layout.now key }
    ensures { result ≡ key_stage layout.now key }
{
    match key {
        Key::Visible(t) => port_stage_of(layout.port(t)),
        Key::Full(k)
        | Key::Pipe(_, k)
        | Key::Valid(_, k)
        | Key::Value(_, k)
        | Key::Pending(_, k)
        | Key::Guess(_, k) => k.saturating_sub(1),
        Key::Hint(h) => layout.hint(h).stage,
    }
}

fn sort_of(key: Key) -> Sort
    ensures { result ≡ key_sort key }
{
    match key {
        Key::Full(_) | Key::Valid(_, _) | Key::Pending(_, _) => Sort::Control,
        _ => Sort::Data,
    }
}

// Whether a node is the value of a register.
fn is_own(nodes: &[Node], r: u32, a: NodeId) -> bool
    ensures { result ≡ is_own_kind r (kind_of nodes.now a) }
{
    match nodes.get(a.0 as usize) {
        Some(node) => match node.kind {
            Kind::Reg(other) => r == other,
            _ => false,
        },
        None => false,
    }
}

// Adds the ends of a register that takes a node: the new value and the test, if the node is a choice between a new value and its own.
fn add_next(
    ends: &mut Vec<End>,
    nodes: &[Node],
    stage: u32,
    sort: Sort,
    r: u32,
    next: NodeId,
) -> Result<(), NoMemory>
    ensures { OnOk result (ends.new.items ≡ ends.old.items ++ next_ends nodes.now stage sort r next (kind_of nodes.now next)) }
{
    let holder = Holder::Register(r);
    if let Some(node) = nodes.get(next.0 as usize)
        && let Kind::Mux(test, value, own) = &node.kind
        && is_own(nodes, r, *own)
    {
        ends.push(End {
            stage,
            sort: Sort::Control,
            holder,
            node: *test,
        })?;
        ends.push(End {
            stage,
            sort,
            holder,
            node: *value,
        })?;
    } else {
        ends.push(End {
            stage,
            sort,
            holder,
            node: next,
        })?;
    }
    Ok(())
}

#[tactic(auto, using(kp_synth_registers::proofs::Places::key_had))]
fn add_register(
    ends: &mut Vec<End>,
    net: &Netlist,
    layout: &Layout<'_>,
    r: u32,
    key: Key,
) -> Result<(), NoMemory>
    requires regs { length net.now.parts.regs ≡ length (keys_of layout.now) }
    requires inside { r < length (keys_of layout.now) }
    requires key { key ≡ key_at layout.now r }
    ensures { OnOk result (ends.new.items ≡ ends.old.items ++ register_ends layout.now net.now r) }
{
    let next = net.parts().regs.as_slice()[r as usize].next;
    add_next(
        ends,
        net.nodes(),
        stage_of(layout, key),
        sort_of(key),
        r,
        next,
    )
}

fn add_registers(
    ends: &mut Vec<End>,
    net: &Netlist,
    layout: &Layout<'_>,
    keys: &Keys,
) -> Result<(), NoMemory>
    requires keys { keys.now ≡ keys_of layout.now }
    requires regs { length net.now.parts.regs ≡ length (keys_of layout.now) }
    ensures { OnOk result (ends.new.items ≡ ends.old.items ++ each_below (register_ends layout.now net.now) (length (keys_of layout.now))) }
{
    for r in 0..keys.count() {
        add_register(ends, net, layout, r, keys.key(r))?;
    }
    Ok(())
}

// Adds the ends at the write port of a file.
fn add_port(
    ends: &mut Vec<End>,
    stage: u32,
    file: u32,
    port: Option<WritePort>,
) -> Result<(), NoMemory>
    ensures { OnOk result (ends.new.items ≡ ends.old.items ++ write_ends stage file port) }
{
    let Some(port) = port else {
        return Ok(());
    };
    let holder = Holder::File(file);
    ends.push(End {
        stage,
        sort: Sort::Control,
        holder,
        node: port.enable,
    })?;
    ends.push(End {
        stage,
        sort: Sort::Data,
        holder,
        node: port.address,
    })?;
    ends.push(End {
        stage,
        sort: Sort::Data,
        holder,
        node: port.value,
    })?;
    Ok(())
}

// The number of registers among the targets up to and including this one.
fn registers_with(layout: &Layout<'_>, t: u32, registers: u32) -> u32
    requires target { t < length (targets_of layout.now.decls) }
    requires registers { registers ≡ registers_before (targets_of layout.now.decls) t }
    requires few { registers ≤ t }
    ensures registers { result ≡ registers_before (targets_of layout.now.decls) (t + 1) }
    ensures few { result ≤ t + 1 }
{
    let _count = layout.target_count();
    if layout.is_register(t) {
        registers + 1
    } else {
        registers
    }
}

// The write port of a file.
fn port_of(net: &Netlist, file: u32) -> Option<WritePort>
    ensures { result ≡ (get_or net.now.parts.files file no_file).port }
{
    match net.parts().files.as_slice().get(file as usize) {
        Some(file) => file.port,
        None => None,
    }
}

// Adds the ends of a target that is a file, which has this number.
fn add_target(
    ends: &mut Vec<End>,
    net: &Netlist,
    layout: &Layout<'_>,
    t: u32,
    file: u32,
) -> Result<(), NoMemory>
    requires target { t < length (targets_of layout.now.decls) }
    requires file { file ≡ files_before (targets_of layout.now.decls) t }
    ensures { OnOk result (ends.new.items ≡ ends.old.items ++ target_ends layout.now net.now t) }
{
    if layout.is_register(t) {
        return Ok(());
    }
    let stage = port_stage_of(layout.port(t));
    add_port(ends, stage, file, port_of(net, file))
}

fn add_targets(ends: &mut Vec<End>, net: &Netlist, layout: &Layout<'_>) -> Result<(), NoMemory>
    ensures { OnOk result (ends.new.items ≡ ends.old.items ++ each_below (target_ends layout.now net.now) (length (targets_of layout.now.decls))) }
{
    let mut before = 0;
    for t in 0..layout.target_count() {
        add_target(ends, net, layout, t, t - before)?;
        before = registers_with(layout, t, before);
    }
    Ok(())
}

// Adds the address of a node that reads a word.
fn add_word(ends: &mut Vec<End>, nodes: &[Node], stage: u32, i: usize) -> Result<(), NoMemory>
    ensures { OnOk result (ends.new.items ≡ ends.old.items ++ word_end stage (kind_at nodes.now i)) }
{
    if let Some(node) = nodes.get(i)
        && let Kind::Word(file, address) = &node.kind
    {
        ends.push(End {
            stage,
            sort: Sort::Data,
            holder: Holder::Address(*file),
            node: *address,
        })?;
    }
    Ok(())
}

fn add_words(ends: &mut Vec<End>, net: &Netlist, layout: &Layout<'_>) -> Result<(), NoMemory>
    ensures { OnOk result (ends.new.items ≡ ends.old.items ++ each_below (word_ends layout.now net.now) (length net.now.nodes)) }
{
    let stage = layout.stages();
    let nodes = net.nodes();
    for i in 0..nodes.len() {
        add_word(ends, nodes, stage, i)?;
    }
    Ok(())
}

/// The ends of a netlist of a design. The only error is out of memory.
pub(crate) fn ends_of(
    alloc: Global,
    net: &Netlist,
    layout: &Layout<'_>,
    keys: &Keys,
    inside: bool,
) -> Result<Vec<End>, NoMemory>
    requires keys { keys.now ≡ keys_of layout.now }
    requires regs { length net.now.parts.regs ≡ length (keys_of layout.now) }
    ensures { IfOk result (λ ends. ends.items ≡ all_ends layout.now net.now inside) }
{
    let mut ends = Vec::new(alloc);
    add_registers(&mut ends, net, layout, keys)?;
    add_targets(&mut ends, net, layout)?;
    if !inside {
        add_words(&mut ends, net, layout)?;
    }
    Ok(ends)
}
