// The end of a cycle: registers latch, and files are written.
ghost use Rattle.std.specs.Prelude.{◌≡◌, ◌<◌, ◌≤◌, ◌^◌, ◌&&◌, true, false, [], ℕ, length, get_or, set, None, if◌then◌else◌};
ghost use Rattle.kp_net.specs.Netlist.{start_regs};
ghost use Rattle.kp_net.specs.Parts.{NetOk, no_file};
ghost use Rattle.kp_net.specs.Widths.{wide};
ghost use Rattle.kp_cycle_plan.specs.declared.latches.Latch.TheVariants.{If};
ghost use Rattle.kp_cycle_plan.specs.Latches.{IsLatched, latch_for, latched};
ghost use Rattle.kp_cycle_plan.specs.Storage.{Fits, FitsBelow, PortReady, port_from, port_noted};

use kp_cycle_plan::{Held, Latches, Memory, Moved, fill_regs};
use kp_net::{Netlist, WritePort};

/// The end of a cycle: in a netlist with a reset that is raised each register gets its start value; else registers
/// and files are updated from the values of the nodes.
pub fn clock(net: &Netlist, latches: &Latches, memory: &mut Memory, rst: bool)
    requires latches { IsLatched net.now (length net.now.parts.regs) latches.now.moved.items latches.now.held.items }
    requires fits { Fits net.now memory.old }
    requires known { FitsBelow net.now.nodes memory.old.nodes (length net.now.nodes) }
    ensures fits { Fits net.now memory.new }
    ensures reset { (net.now.parts.reset && rst) ≡ true → (memory.new.regs ≡ start_regs net.now) × (memory.new.files ≡ memory.old.files) }
    ensures regs { (net.now.parts.reset && rst) ≡ false → (r : ℕ) → r < length net.now.parts.regs
        → get_or memory.new.regs r 0 ≡ latched memory.old.nodes (get_or memory.old.regs r 0) (latch_for net.now r) }
    ensures files { (net.now.parts.reset && rst) ≡ false → (f : ℕ) → f < length net.now.parts.files
        → get_or memory.new.files f [] ≡ port_from (get_or net.now.parts.files f no_file).port memory.old.nodes (get_or memory.old.files f []) }
    ensures slots { memory.new.slots ≡ memory.old.slots }
    ensures nodes { memory.new.nodes ≡ memory.old.nodes }
{
    if net.parts().reset && rst {
        fill_regs(net, memory);
    } else {
        clock_regs(
            net,
            latches.moved.as_slice(),
            latches.held.as_slice(),
            memory,
        );
        clock_files(net, memory);
    }
}

// Gives each register its next value.
fn clock_regs(_net: &Netlist, moved: &[Moved], held: &[Held], memory: &mut Memory)
    requires latches { IsLatched _net.now (length _net.now.parts.regs) moved.now held.now }
    requires fits { Fits _net.now memory.old }
    ensures fits { Fits _net.now memory.new }
    ensures regs { (r : ℕ) → r < length _net.now.parts.regs → get_or memory.new.regs r 0 ≡ latched memory.old.nodes (get_or memory.old.regs r 0) (latch_for _net.now r) }
    ensures nodes { memory.new.nodes ≡ memory.old.nodes }
    ensures files { memory.new.files ≡ memory.old.files }
    ensures slots { memory.new.slots ≡ memory.old.slots }
{
    for i in 0..moved.len() {
        let value = memory.node(moved[i].next.0);
        memory.set_reg(moved[i].reg, value);
    }
    for k in 0..held.len() {
        hold(memory, held[k]);
    }
}

// Gives a register the value of a node if its test is 1.
fn hold(memory: &mut Memory, held: Held)
    requires reg { held.reg < length memory.old.regs }
    requires test { held.test.0 < length memory.old.nodes }
    requires value { held.value.0 < length memory.old.nodes }
    ensures { memory.new ≡ record memory.old { regs = set memory.old.regs held.reg (latched memory.old.nodes (get_or memory.old.regs held.reg 0) (If held.test held.value)) } }
{
    if memory.node(held.test.0) == 1 {
        memory.set_reg(held.reg, memory.node(held.value.0));
    }
}

// Writes the word of each file whose port is enabled.
fn clock_files(net: &Netlist, memory: &mut Memory)
    requires fits { Fits net.now memory.old }
    requires known { FitsBelow net.now.nodes memory.old.nodes (length net.now.nodes) }
    ensures fits { Fits net.now memory.new }
    ensures files { (f : ℕ) → f < length net.now.parts.files → get_or memory.new.files f [] ≡ port_from (get_or net.now.parts.files f no_file).port memory.old.nodes (get_or memory.old.files f []) }
    ensures nodes { memory.new.nodes ≡ memory.old.nodes }
    ensures regs { memory.new.regs ≡ memory.old.regs }
    ensures slots { memory.new.slots ≡ memory.old.slots }
{
    let files = net.parts().files.as_slice();
    for i in 0..files.len() {
        write(memory, i as u32, files[i].port);
    }
}

// Performs the write of a file's port, if it has one.
fn write(memory: &mut Memory, file: u32, port: Option<WritePort>)
    requires file { file < length memory.old.files }
    requires ready { PortReady memory.old file port }
    ensures { memory.new ≡ record memory.old { files = set memory.old.files file (port_from port memory.old.nodes (get_or memory.old.files file [])) } }
{
    let Some(port) = port else {
        return;
    };
    if memory.node(port.enable.0) == 1 {
        let address = memory.node(port.address.0);
        let value = memory.node(port.value.0);
        memory.set_word(file, address, value);
    }
}

/// The address that each file's port writes in a cycle, from the values of the nodes: None where the port isn't enabled, and everywhere in a cycle
/// that resets the netlist.
pub fn note_writes(net: &Netlist, memory: &Memory, rst: bool, written: &mut [Option<u32>])
    requires fits { Fits net.now memory.now }
    requires known { FitsBelow net.now.nodes memory.now.nodes (length net.now.nodes) }
    requires room { length written.old ≡ length net.now.parts.files }
    ensures room { length written.new ≡ length net.now.parts.files }
    ensures noted { (f : ℕ) → f < length net.now.parts.files → get_or written.new f None
        ≡ (if net.now.parts.reset && rst then None else port_noted (get_or net.now.parts.files f no_file).port memory.now.nodes) }
{
    let parts = net.parts();
    let files = parts.files.as_slice();
    let is_reset = parts.reset && rst;
    for i in 0..files.len() {
        written[i] = if is_reset {
            None
        } else {
            address_noted(memory, i as u32, files[i].port)
        };
    }
}

// The address that a port writes.
fn address_noted(memory: &Memory, _file: u32, port: Option<WritePort>) -> Option<u32>
    requires ready { PortReady memory.now _file port }
    requires small { length (get_or memory.now.files _file []) < 2 ^ 32 }
    ensures { result ≡ port_noted port memory.now.nodes }
{
    let port = port?;
    if memory.node(port.enable.0) == 1 {
        Some(memory.node(port.address.0) as u32)
    } else {
        None
    }
}
