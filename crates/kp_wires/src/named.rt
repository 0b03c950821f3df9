// The names of a module, in a scope for each stage.
ghost use Rattle.std.specs.Prelude.{◌≡◌, ◌<◌, ◌++◌, length, flat_map, IfOk, OnOk};
ghost use Rattle.kp_machine.specs.Slots.{hints_of, pipes_of, targets_of};
ghost use Rattle.kp_net.specs.Widths.{wide};
ghost use Rattle.kp_design.specs.Numbers.{guess_at};
ghost use Rattle.kp_synth_registers.specs.Keys.{key_at, keys_of};
ghost use Rattle.kp_core_ports.specs.Names.{names_of};
ghost use Rattle.kp_wires.specs.Texts.{guess_call, is_in_stage, lines_head, lines_tail, name_head, named_lines, node_tail, own_register, own_wire, register_called, register_line, register_tail, registers_in, scope_head, scope_text, squashed_line, updates_line, wire_line};

use crate::Wire;
use crate::call::{add_call, add_called};
use itoa::Buffer;
use kp_base::NoMemory;
use kp_core_ports::{Names, add, name_at};
use kp_design::Layout;
use kp_net::{NetReg, Netlist, NodeId};
use kp_synth_registers::{Key, Keys};
use std::alloc::Global;

/// The lines that name the registers and the wires of each stage of a module, for its end. The only error is out of memory.
#[tactic(auto, unfolding(crate::specs::Texts::named_lines))]
pub fn named_lines(
    alloc: Global,
    net: &Netlist,
    layout: &Layout<'_>,
    wires: &[Wire],
) -> Result<Vec<u8>, NoMemory>
    requires { length net.now.parts.regs ≡ length (keys_of layout.now) }
    ensures { IfOk result (λ text. text.items ≡ named_lines net.now layout.now wires.now) }
{
    let names = Names::of(alloc, layout.job().decls.as_slice())?;
    let keys = Keys::of(alloc, layout)?;
    let mut text = lines_head(alloc)?;
    for k in 0..layout.stages() {
        add_scope(&mut text, net, layout, &keys, &names, wires, k)?;
    }
    add_lines_tail(&mut text)?;
    Ok(text)
}

#[tactic(auto, unfolding(crate::specs::Texts::lines_head))]
fn lines_head(alloc: Global) -> Result<Vec<u8>, NoMemory>
    ensures { IfOk result (λ text. text.items ≡ lines_head) }
{
    Ok(Vec::from_slice(
        alloc,
        b"  // Names for viewers of waveforms, in a scope for each stage.\n  /* verilator lint_off UNUSEDSIGNAL */\n  generate\n",
    )?)
}

#[tactic(auto, unfolding(crate::specs::Texts::lines_tail))]
fn add_lines_tail(out: &mut Vec<u8>) -> Result<(), NoMemory>
    ensures { OnOk result (out.new.items ≡ out.old.items ++ lines_tail) }
{
    out.extend_from_slice(b"  endgenerate\n  /* verilator lint_on UNUSEDSIGNAL */\n")?;
    Ok(())
}

// Appends the scope of stage k.
#[tactic(auto, using(std::proofs::Common::append_assoc))]
fn add_scope(
    out: &mut Vec<u8>,
    net: &Netlist,
    layout: &Layout<'_>,
    keys: &Keys,
    names: &Names,
    wires: &[Wire],
    k: u32,
) -> Result<(), NoMemory>
    requires keys { keys.now ≡ keys_of layout.now }
    requires regs { length net.now.parts.regs ≡ length (keys_of layout.now) }
    requires targets { names.now.targets.items ≡ names_of (targets_of layout.now.decls) }
    requires pipes { names.now.pipes.items ≡ names_of (pipes_of layout.now.decls) }
    requires hints { names.now.hints.items ≡ names_of (hints_of layout.now.decls) }
    ensures { OnOk result (out.new.items ≡ out.old.items ++ scope_text net.now layout.now wires.now k) }
{
    add_scope_head(out, k)?;
    add_registers(out, net, layout, keys, names, k)?;
    add_wires(out, net, layout, names, wires, k)?;
    add_updates(out, k)?;
    add_squashed(out, k)
}

#[tactic(auto, unfolding(crate::specs::Texts::scope_head))]
fn add_scope_head(out: &mut Vec<u8>, k: u32) -> Result<(), NoMemory>
    ensures { OnOk result (out.new.items ≡ out.old.items ++ scope_head k) }
{
    let mut number = Buffer::new();
    let pieces = [
        b"    if (1) begin : stage_".as_slice(),
        number.format(k).as_bytes(),
        b"\n".as_slice(),
    ];
    add(out, &pieces)
}

#[tactic(auto, unfolding(crate::specs::Texts::updates_line))]
fn add_updates(out: &mut Vec<u8>, k: u32) -> Result<(), NoMemory>
    ensures { OnOk result (out.new.items ≡ out.old.items ++ updates_line k) }
{
    let mut number = Buffer::new();
    let pieces = [
        b"      wire [0:0] updates = ue[".as_slice(),
        number.format(k).as_bytes(),
        b"];\n".as_slice(),
    ];
    add(out, &pieces)
}

#[tactic(auto, unfolding(crate::specs::Texts::squashed_line))]
fn add_squashed(out: &mut Vec<u8>, k: u32) -> Result<(), NoMemory>
    ensures { OnOk result (out.new.items ≡ out.old.items ++ squashed_line k) }
{
    let mut number = Buffer::new();
    let pieces = [
        b"      wire [0:0] squashed = back > 4'd".as_slice(),
        number.format(k).as_bytes(),
        b";\n    end\n".as_slice(),
    ];
    add(out, &pieces)
}

// Appends the registers of stage k.
fn add_registers(
    out: &mut Vec<u8>,
    net: &Netlist,
    layout: &Layout<'_>,
    keys: &Keys,
    names: &Names,
    k: u32,
) -> Result<(), NoMemory>
    requires keys { keys.now ≡ keys_of layout.now }
    requires regs { length net.now.parts.regs ≡ length (keys_of layout.now) }
    requires targets { names.now.targets.items ≡ names_of (targets_of layout.now.decls) }
    requires pipes { names.now.pipes.items ≡ names_of (pipes_of layout.now.decls) }
    ensures { OnOk result (out.new.items ≡ out.old.items ++ registers_in net.now layout.now k) }
{
    for register in 0..keys.count() {
        add_own_register(out, net, layout, names, k, register, keys.key(register))?;
    }
    Ok(())
}

// Appends a register, if it is one of stage k.
fn add_own_register(
    out: &mut Vec<u8>,
    net: &Netlist,
    layout: &Layout<'_>,
    names: &Names,
    k: u32,
    register: u32,
    key: Key,
) -> Result<(), NoMemory>
    requires regs { length net.now.parts.regs ≡ length (keys_of layout.now) }
    requires inside { register < length (keys_of layout.now) }
    requires key { key ≡ key_at layout.now register }
    requires targets { names.now.targets.items ≡ names_of (targets_of layout.now.decls) }
    requires pipes { names.now.pipes.items ≡ names_of (pipes_of layout.now.decls) }
    ensures { OnOk result (out.new.items ≡ out.old.items ++ own_register net.now layout.now k register) }
{
    if is_in_stage(k, key) {
        let reg = &net.parts().regs.as_slice()[register as usize];
        add_register_line(out, layout, names, key, reg)?;
    }
    Ok(())
}

fn is_in_stage(k: u32, key: Key) -> bool
    ensures { result ≡ is_in_stage k key }
{
    match key {
        Key::Visible(_) | Key::Hint(_) => false,
        Key::Full(j)
        | Key::Pipe(_, j)
        | Key::Valid(_, j)
        | Key::Value(_, j)
        | Key::Pending(_, j)
        | Key::Guess(_, j) => j == k,
    }
}

#[tactic(auto, using(std::proofs::Common::append_assoc))]
fn add_register_line(
    out: &mut Vec<u8>,
    layout: &Layout<'_>,
    names: &Names,
    key: Key,
    reg: &NetReg,
) -> Result<(), NoMemory>
    requires targets { names.now.targets.items ≡ names_of (targets_of layout.now.decls) }
    requires pipes { names.now.pipes.items ≡ names_of (pipes_of layout.now.decls) }
    ensures { OnOk result (out.new.items ≡ out.old.items ++ register_line layout.now key reg.now) }
{
    add_name_head(out, reg.start.width())?;
    add_register_called(out, layout, names, key)?;
    add_register_tail(out, reg)
}

#[tactic(auto, unfolding(crate::specs::Texts::name_head))]
fn add_name_head(out: &mut Vec<u8>, width: u8) -> Result<(), NoMemory>
    ensures { OnOk result (out.new.items ≡ out.old.items ++ name_head width) }
{
    let mut high = Buffer::new();
    let pieces = [
        b"      wire [".as_slice(),
        high.format(width.saturating_sub(1)).as_bytes(),
        b":0] ".as_slice(),
    ];
    add(out, &pieces)
}

#[tactic(auto, unfolding(crate::specs::Texts::register_tail))]
fn add_register_tail(out: &mut Vec<u8>, reg: &NetReg) -> Result<(), NoMemory>
    ensures { OnOk result (out.new.items ≡ out.old.items ++ register_tail reg.now) }
{
    let pieces = [b" = ".as_slice(), reg.name.bytes(), b";\n".as_slice()];
    add(out, &pieces)
}

// Appends the name of a register of a stage.
fn add_register_called(
    out: &mut Vec<u8>,
    layout: &Layout<'_>,
    names: &Names,
    key: Key,
) -> Result<(), NoMemory>
    requires targets { names.now.targets.items ≡ names_of (targets_of layout.now.decls) }
    requires pipes { names.now.pipes.items ≡ names_of (pipes_of layout.now.decls) }
    ensures { OnOk result (out.new.items ≡ out.old.items ++ register_called layout.now key) }
{
    let targets = names.targets.as_slice();
    match key {
        Key::Visible(_) | Key::Hint(_) => Ok(()),
        Key::Full(_) => Ok(out.extend_from_slice(b"is_full")?),
        Key::Pipe(x, _) => add_call(out, b"pipe", b"_", name_at(names.pipes.as_slice(), x)),
        Key::Valid(t, _) => add_call(out, b"is_set", b"_", name_at(targets, t)),
        Key::Value(t, _) => add_call(out, b"result", b"_", name_at(targets, t)),
        Key::Pending(g, _) => {
            add_guess_call(out, b"is_guessed_", name_at(targets, guessed(layout, g)), g)
        }
        Key::Guess(g, _) => add_guess_call(out, b"guess_", name_at(targets, guessed(layout, g)), g),
    }
}

// The register of a guess.
fn guessed(layout: &Layout<'_>, guess: u32) -> u32
    ensures { result ≡ (guess_at layout.now guess).register }
{
    match layout.guesses().get(guess as usize) {
        Some(slot) => slot.register,
        None => 0,
    }
}

#[tactic(auto, unfolding(crate::specs::Texts::guess_call))]
fn add_guess_call(out: &mut Vec<u8>, kind: &[u8], name: &[u8], guess: u32) -> Result<(), NoMemory>
    ensures { OnOk result (out.new.items ≡ out.old.items ++ guess_call kind.now name.now guess) }
{
    let mut number = Buffer::new();
    let pieces = [kind, name, b"_".as_slice(), number.format(guess).as_bytes()];
    add(out, &pieces)
}

// Appends the wires of stage k.
fn add_wires(
    out: &mut Vec<u8>,
    net: &Netlist,
    layout: &Layout<'_>,
    names: &Names,
    wires: &[Wire],
    k: u32,
) -> Result<(), NoMemory>
    requires targets { names.now.targets.items ≡ names_of (targets_of layout.now.decls) }
    requires pipes { names.now.pipes.items ≡ names_of (pipes_of layout.now.decls) }
    requires hints { names.now.hints.items ≡ names_of (hints_of layout.now.decls) }
    ensures { OnOk result (out.new.items ≡ out.old.items ++ flat_map (own_wire net.now layout.now k) wires.now) }
{
    for wire in wires {
        add_own_wire(out, net, layout, names, *wire, k)?;
    }
    Ok(())
}

// Appends a wire, if it is one of stage k.
fn add_own_wire(
    out: &mut Vec<u8>,
    net: &Netlist,
    layout: &Layout<'_>,
    names: &Names,
    wire: Wire,
    k: u32,
) -> Result<(), NoMemory>
    requires targets { names.now.targets.items ≡ names_of (targets_of layout.now.decls) }
    requires pipes { names.now.pipes.items ≡ names_of (pipes_of layout.now.decls) }
    requires hints { names.now.hints.items ≡ names_of (hints_of layout.now.decls) }
    ensures { OnOk result (out.new.items ≡ out.old.items ++ own_wire net.now layout.now k wire) }
{
    if wire.stage == k {
        add_wire_line(out, net, layout, names, wire)?;
    }
    Ok(())
}

#[tactic(auto, using(std::proofs::Common::append_assoc))]
fn add_wire_line(
    out: &mut Vec<u8>,
    net: &Netlist,
    layout: &Layout<'_>,
    names: &Names,
    wire: Wire,
) -> Result<(), NoMemory>
    requires targets { names.now.targets.items ≡ names_of (targets_of layout.now.decls) }
    requires pipes { names.now.pipes.items ≡ names_of (pipes_of layout.now.decls) }
    requires hints { names.now.hints.items ≡ names_of (hints_of layout.now.decls) }
    ensures { OnOk result (out.new.items ≡ out.old.items ++ wire_line net.now layout.now wire) }
{
    add_name_head(out, width_of(net, wire.node))?;
    add_called(out, layout.job(), names, b"_", wire)?;
    add_node_tail(out, wire.node.0)
}

#[tactic(auto, unfolding(crate::specs::Texts::node_tail))]
fn add_node_tail(out: &mut Vec<u8>, node: u32) -> Result<(), NoMemory>
    ensures { OnOk result (out.new.items ≡ out.old.items ++ node_tail node) }
{
    let mut number = Buffer::new();
    let pieces = [
        b" = n".as_slice(),
        number.format(node).as_bytes(),
        b";\n".as_slice(),
    ];
    add(out, &pieces)
}

#[tactic(auto, unfolding(kp_net::specs::Widths::wide))]
fn width_of(net: &Netlist, node: NodeId) -> u8
    ensures { result ≡ wide net.now.nodes node.0 }
{
    match net.nodes().get(node.0 as usize) {
        Some(node) => node.width,
        None => 0,
    }
}
