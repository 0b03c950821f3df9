// The texts of the ports that a line asks for.
ghost use Rattle.std.specs.Prelude.{◌≡◌, ◌≤◌, ◌++◌, length, OnOk};
ghost use Rattle.kp_synth_registers.specs.Keys.{keys_of, HasKey};
ghost use Rattle.kp_design.specs.Numbers.{target_at};
ghost use Rattle.kp_synth_registers.specs.declared.key.Key.TheVariants.{Pipe};
ghost use Rattle.kp_core_ports.specs.Ports.{Exists};
ghost use Rattle.kp_core_ports.specs.declared.port.Ask.TheVariants.{Load, Peek};
ghost use Rattle.kp_core_ports.specs.PortTexts.{wire_head, wire_tail, wire, enable, header_for, header_text, register_at, show_line, peek_line, load_test, load_update, load_line, probe_line, next_line, commit_line, line_for, line_text};

use crate::pieces::add;
use crate::{Ask, Port};
use itoa::Buffer;
use kp_base::NoMemory;
use kp_design::Layout;
use kp_net::{NetReg, Netlist};
use kp_synth_registers::{Key, Keys};

// A wire of the header.
#[tactic(auto, using(std::proofs::Common::append_assoc))]
fn add_wire(
    out: &mut Vec<u8>,
    direction: &[u8],
    width: u8,
    prefix: &[u8],
    label: &[u8],
) -> Result<(), NoMemory>
    requires { 1 ≤ width }
    ensures { OnOk result (out.new.items ≡ out.old.items ++ wire direction.now width prefix.now label.now) }
{
    add_wire_head(out, direction)?;
    add_wire_tail(out, width, prefix, label)
}

#[tactic(auto, unfolding(crate::specs::PortTexts::wire_head))]
fn add_wire_head(out: &mut Vec<u8>, direction: &[u8]) -> Result<(), NoMemory>
    ensures { OnOk result (out.new.items ≡ out.old.items ++ wire_head direction.now) }
{
    add(
        out,
        &[b",\n  ".as_slice(), direction, b" wire [".as_slice()],
    )
}

#[tactic(auto, unfolding(crate::specs::PortTexts::wire_tail))]
fn add_wire_tail(out: &mut Vec<u8>, width: u8, prefix: &[u8], label: &[u8]) -> Result<(), NoMemory>
    requires { 1 ≤ width }
    ensures { OnOk result (out.new.items ≡ out.old.items ++ wire_tail width prefix.now label.now) }
{
    let mut high = Buffer::new();
    let pieces = [
        high.format(width - 1).as_bytes(),
        b":0] ".as_slice(),
        prefix,
        label,
    ];
    add(out, &pieces)
}

#[tactic(auto, unfolding(crate::specs::PortTexts::enable))]
fn add_enable(out: &mut Vec<u8>, label: &[u8]) -> Result<(), NoMemory>
    ensures { OnOk result (out.new.items ≡ out.old.items ++ enable label.now) }
{
    add(out, &[b",\n  input wire le_".as_slice(), label])
}

// The ports of a file that is read.
#[tactic(auto, using(std::proofs::Common::append_assoc))]
fn add_peek(out: &mut Vec<u8>, layout: &Layout<'_>, file: u32, label: &[u8]) -> Result<(), NoMemory>
    requires { Exists layout.now (Peek file) }
    ensures { OnOk result (out.new.items ≡ out.old.items ++ header_for layout.now label.now (Peek file)) }
{
    add_wire(out, b"input", address_of(layout, file), b"pa_", label)?;
    add_wire(out, b"output", layout.width(file), b"p_", label)
}

// The ports of a file that is loaded.
#[tactic(auto, using(std::proofs::Common::append_assoc))]
fn add_load(out: &mut Vec<u8>, layout: &Layout<'_>, file: u32, label: &[u8]) -> Result<(), NoMemory>
    requires { Exists layout.now (Load file) }
    ensures { OnOk result (out.new.items ≡ out.old.items ++ header_for layout.now label.now (Load file)) }
{
    add_enable(out, label)?;
    add_wire(out, b"input", address_of(layout, file), b"la_", label)?;
    add_wire(out, b"input", layout.width(file), b"l_", label)
}

/// Appends the ports that a line asks for, as the header has them.
pub fn add_header(out: &mut Vec<u8>, layout: &Layout<'_>, port: &Port) -> Result<(), NoMemory>
    requires { Exists layout.now port.now.ask }
    ensures { OnOk result (out.new.items ≡ out.old.items ++ header_text layout.now port.now) }
{
    let label = port.label.as_slice();
    match port.ask {
        Ask::Show(target) => add_wire(out, b"output", layout.width(target), b"o_", label),
        Ask::Peek(file) => add_peek(out, layout, file, label),
        Ask::Load(file) => add_load(out, layout, file, label),
        Ask::Probe(pipe, _) => add_wire(out, b"output", layout.pipe_width(pipe), b"o_", label),
        Ask::Next(pipe, _) => add_wire(out, b"output", layout.pipe_width(pipe), b"d_", label),
        Ask::Commit => add(out, &[b",\n  output wire commit".as_slice()]),
    }
}

// The width of the addresses of a file.
#[tactic(auto, using(crate::proofs::Registers::positive))]
fn address_of(layout: &Layout<'_>, file: u32) -> u8
    requires { Exists layout.now (Peek file) }
    ensures width { result ≡ (target_at layout.now file).address }
    ensures positive { 1 ≤ result }
{
    layout.address(file)
}

#[tactic(auto, unfolding(crate::specs::PortTexts::show_line))]
fn add_show_line(out: &mut Vec<u8>, label: &[u8]) -> Result<(), NoMemory>
    ensures { OnOk result (out.new.items ≡ out.old.items ++ show_line label.now) }
{
    let pieces = [
        b"  assign o_".as_slice(),
        label,
        b" = r_".as_slice(),
        label,
        b";\n".as_slice(),
    ];
    add(out, &pieces)
}

#[tactic(auto, unfolding(crate::specs::PortTexts::peek_line))]
fn add_peek_line(out: &mut Vec<u8>, label: &[u8]) -> Result<(), NoMemory>
    ensures { OnOk result (out.new.items ≡ out.old.items ++ peek_line label.now) }
{
    let pieces = [
        b"  assign p_".as_slice(),
        label,
        b" = f_".as_slice(),
        label,
        b"[pa_".as_slice(),
        label,
        b"];\n".as_slice(),
    ];
    add(out, &pieces)
}

#[tactic(auto, using(std::proofs::Common::append_assoc))]
fn add_load_line(out: &mut Vec<u8>, label: &[u8]) -> Result<(), NoMemory>
    ensures { OnOk result (out.new.items ≡ out.old.items ++ load_line label.now) }
{
    add_load_test(out, label)?;
    add_load_update(out, label)
}

#[tactic(auto, unfolding(crate::specs::PortTexts::load_test))]
fn add_load_test(out: &mut Vec<u8>, label: &[u8]) -> Result<(), NoMemory>
    ensures { OnOk result (out.new.items ≡ out.old.items ++ load_test label.now) }
{
    let pieces = [
        b"  always @(posedge clk) if (rst && le_".as_slice(),
        label,
        b") ".as_slice(),
    ];
    add(out, &pieces)
}

#[tactic(auto, unfolding(crate::specs::PortTexts::load_update))]
fn add_load_update(out: &mut Vec<u8>, label: &[u8]) -> Result<(), NoMemory>
    ensures { OnOk result (out.new.items ≡ out.old.items ++ load_update label.now) }
{
    let pieces = [
        b"f_".as_slice(),
        label,
        b"[la_".as_slice(),
        label,
        b"] <= l_".as_slice(),
        label,
        b";\n".as_slice(),
    ];
    add(out, &pieces)
}

#[tactic(auto, unfolding(crate::specs::PortTexts::probe_line))]
fn add_probe_line(out: &mut Vec<u8>, label: &[u8], reg: &NetReg) -> Result<(), NoMemory>
    ensures { OnOk result (out.new.items ≡ out.old.items ++ probe_line label.now reg.now) }
{
    let pieces = [
        b"  assign o_".as_slice(),
        label,
        b" = ".as_slice(),
        reg.name.bytes(),
        b";\n".as_slice(),
    ];
    add(out, &pieces)
}

#[tactic(auto, unfolding(crate::specs::PortTexts::next_line))]
fn add_next_line(out: &mut Vec<u8>, label: &[u8], reg: &NetReg) -> Result<(), NoMemory>
    ensures { OnOk result (out.new.items ≡ out.old.items ++ next_line label.now reg.now) }
{
    let mut node = Buffer::new();
    let pieces = [
        b"  assign d_".as_slice(),
        label,
        b" = n".as_slice(),
        node.format(reg.next.0).as_bytes(),
        b";\n".as_slice(),
    ];
    add(out, &pieces)
}

#[tactic(auto, unfolding(crate::specs::PortTexts::commit_line))]
fn add_commit_line(out: &mut Vec<u8>, stages: u32) -> Result<(), NoMemory>
    requires { 1 ≤ stages }
    ensures { OnOk result (out.new.items ≡ out.old.items ++ commit_line stages) }
{
    let mut last = Buffer::new();
    let pieces = [
        b"  assign commit = ue[".as_slice(),
        last.format(stages - 1).as_bytes(),
        b"];\n".as_slice(),
    ];
    add(out, &pieces)
}

// The register that holds a pipe in a stage.
#[tactic(auto, using(crate::proofs::Registers::there, crate::proofs::Registers::any_default, kp_synth_registers::proofs::Places::place_is))]
fn register_at<'n>(
    net: &'n Netlist,
    layout: &Layout<'_>,
    keys: &Keys,
    pipe: u32,
    stage: u32,
) -> &'n NetReg
    requires keys { keys.now ≡ keys_of layout.now }
    requires regs { length net.now.parts.regs ≡ length (keys_of layout.now) }
    requires exists { HasKey layout.now (Pipe pipe stage) }
    ensures { result.now ≡ register_at net.now layout.now (Pipe pipe stage) }
{
    let place = keys.place(Key::Pipe(pipe, stage));
    &net.parts().regs.as_slice()[place as usize]
}

/// Appends the line for the ports that a line asks for, as the body has it.
pub fn add_line(
    out: &mut Vec<u8>,
    net: &Netlist,
    layout: &Layout<'_>,
    keys: &Keys,
    port: &Port,
) -> Result<(), NoMemory>
    requires keys { keys.now ≡ keys_of layout.now }
    requires regs { length net.now.parts.regs ≡ length (keys_of layout.now) }
    requires exists { Exists layout.now port.now.ask }
    ensures { OnOk result (out.new.items ≡ out.old.items ++ line_text net.now layout.now port.now) }
{
    let label = port.label.as_slice();
    match port.ask {
        Ask::Show(_) => add_show_line(out, label),
        Ask::Peek(_) => add_peek_line(out, label),
        Ask::Load(_) => add_load_line(out, label),
        Ask::Probe(pipe, stage) => add_probe_line(
            out,
            label,
            register_at(net, layout, keys, pipe, stage),
        ),
        Ask::Next(pipe, stage) => add_next_line(
            out,
            label,
            register_at(net, layout, keys, pipe, stage),
        ),
        Ask::Commit => add_commit_line(out, layout.stages()),
    }
}
