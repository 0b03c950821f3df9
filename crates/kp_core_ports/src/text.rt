// The complete text.
ghost use Rattle.std.specs.Prelude.{◌≡◌, ◌≤◌, length, IfOk};
ghost use Rattle.kp_synth_registers.specs.Keys.{keys_of};
ghost use Rattle.kp_core_ports.specs.Ports.{AllExist};
ghost use Rattle.kp_core_ports.specs.Core.{is_in_line, last_line, header_end, with_added, with_ports, header_ports, comment, lines_under, added_lines, core_text};

use crate::Port;
use crate::kept::canonical_text;
use crate::pieces::add;
use crate::port_text::{add_header, add_line};
use kp_base::{NoMemory, run_length};
use kp_design::Layout;
use kp_net::Netlist;
use kp_synth_registers::Keys;
use std::alloc::Global;

/// The canonical text of a netlist of a job, with these ports, and more lines after those for them. The only error is out of memory.
#[tactic(auto, unfolding(crate::specs::Core::core_text))]
pub fn core_text(
    alloc: Global,
    net: &Netlist,
    layout: &Layout<'_>,
    ports: &[Port],
    more: &[u8],
) -> Result<Vec<u8>, NoMemory>
    requires regs { length net.now.parts.regs ≡ length (keys_of layout.now) }
    requires exist { AllExist layout.now ports.now }
    ensures { IfOk result (λ text. text.items ≡ core_text net.now layout.now ports.now more.now) }
{
    let text = canonical_text(alloc, net)?;
    with_ports(alloc, net, layout, ports, text.as_slice(), more)
}

/// A text of a netlist of a job, with these ports, and more lines after those for them. The only error is out of memory.
pub fn with_ports(
    alloc: Global,
    net: &Netlist,
    layout: &Layout<'_>,
    ports: &[Port],
    text: &[u8],
    more: &[u8],
) -> Result<Vec<u8>, NoMemory>
    requires regs { length net.now.parts.regs ≡ length (keys_of layout.now) }
    requires exist { AllExist layout.now ports.now }
    ensures { IfOk result (λ whole. whole.items ≡ with_ports net.now layout.now ports.now text.now more.now) }
{
    let header = header_ports(alloc, layout, ports)?;
    let mut lines = added_lines(alloc, net, layout, ports)?;
    lines.extend_from_slice(more)?;
    with_added(alloc, text, header.as_slice(), lines.as_slice())
}

// The ports in the header.
#[tactic(auto, unfolding(crate::specs::Core::header_ports))]
fn header_ports(alloc: Global, layout: &Layout<'_>, ports: &[Port]) -> Result<Vec<u8>, NoMemory>
    requires { AllExist layout.now ports.now }
    ensures { IfOk result (λ text. text.items ≡ header_ports layout.now ports.now) }
{
    let mut text = Vec::new(alloc);
    for port in ports {
        add_header(&mut text, layout, port)?;
    }
    Ok(text)
}

// The lines in the body, under a comment.
fn added_lines(
    alloc: Global,
    net: &Netlist,
    layout: &Layout<'_>,
    ports: &[Port],
) -> Result<Vec<u8>, NoMemory>
    requires regs { length net.now.parts.regs ≡ length (keys_of layout.now) }
    requires exist { AllExist layout.now ports.now }
    ensures { IfOk result (λ text. text.items ≡ added_lines net.now layout.now ports.now) }
{
    if ports.is_empty() {
        return Ok(Vec::new(alloc));
    }
    let keys = Keys::of(alloc, layout)?;
    lines(alloc, net, layout, &keys, ports)
}

// The same where there are some.
fn lines(
    alloc: Global,
    net: &Netlist,
    layout: &Layout<'_>,
    keys: &Keys,
    ports: &[Port],
) -> Result<Vec<u8>, NoMemory>
    requires keys { keys.now ≡ keys_of layout.now }
    requires regs { length net.now.parts.regs ≡ length (keys_of layout.now) }
    requires exist { AllExist layout.now ports.now }
    ensures { IfOk result (λ text. text.items ≡ lines_under net.now layout.now ports.now) }
{
    let mut text = title(alloc)?;
    for port in ports {
        add_line(&mut text, net, layout, keys, port)?;
    }
    Ok(text)
}

// The comment.
#[tactic(auto, unfolding(crate::specs::Core::comment))]
fn title(alloc: Global) -> Result<Vec<u8>, NoMemory>
    ensures { IfOk result (λ text. text.items ≡ comment) }
{
    Ok(Vec::from_slice(
        alloc,
        b"  // The ports that were asked for. All other lines are those of kp pipe.\n",
    )?)
}

fn is_in_line(byte: u8) -> bool
    ensures { result ≡ is_in_line byte }
{
    byte != b'\n'
}

// The place of the last line of a module.
fn last_line(text: &[u8]) -> usize
    ensures place { result ≡ last_line text.now }
    ensures within { result ≤ length text.now }
{
    text.len().saturating_sub(10)
}

// The place of the `);` that ends its first line.
fn header_end(text: &[u8]) -> usize
    ensures place { result ≡ header_end text.now }
    ensures within { result ≤ last_line text.now }
{
    run_length(text, is_in_line)
        .saturating_sub(2)
        .min(last_line(text))
}

// A module with ports at the end of its header, and lines before its last one.
fn with_added(alloc: Global, text: &[u8], ports: &[u8], lines: &[u8]) -> Result<Vec<u8>, NoMemory>
    ensures { IfOk result (λ whole. whole.items ≡ with_added text.now ports.now lines.now) }
{
    let (header, end) = (header_end(text), last_line(text));
    let mut whole = Vec::new(alloc);
    let pieces = [
        &text[..header],
        ports,
        &text[header..end],
        lines,
        &text[end..],
    ];
    add(&mut whole, &pieces)?;
    Ok(whole)
}
