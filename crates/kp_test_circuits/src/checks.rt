//! Whether the parts of a netlist fit its nodes.
ghost use Rattle.std.specs.Prelude.{◌≡◌, ℕ, ◌<◌, ◌≤◌, ◌^◌, true, length, get_or, All, IsTrue};
ghost use Rattle.kp_bits.specs.Word.{IsWord};
ghost use Rattle.kp_net.specs.Growth.{Held};
ghost use Rattle.kp_net.specs.Widths.{wide, no_node};
ghost use Rattle.kp_net.specs.Parts.{NodeIs, PortOk, RegOk, FileOk, WriteOk, CellOk, AllCells, PartsOk};

use kp_bits::Bits;
use kp_net::{Kind, NetFile, NetReg, Node, NodeId, Parts, Port, WritePort};
use kp_pool::Pool;

/// Whether a simulator can run a netlist of these nodes with these parts: everything that they name exists, with the right widths.
pub fn runs(pool: &Pool, parts: &Parts) -> bool
    ensures { IsTrue result → PartsOk pool.now.nodes parts.now × (parts.now.ext ≤ 12) × (wide pool.now.nodes parts.now.full.0 ≡ parts.now.ext) × (wide pool.now.nodes parts.now.ue.0 ≡ parts.now.ext) × (wide pool.now.nodes parts.now.back.0 ≡ 4) }
{
    if !counts_fit(parts) || !outputs_fit(pool, parts) {
        return false;
    }
    if !ports_fit(parts.samples.as_slice()) || !regs_fit(pool, parts.regs.as_slice()) {
        return false;
    }
    if !files_fit(pool, parts.files.as_slice()) {
        return false;
    }
    cells_fit(pool, parts)
}

fn counts_fit(parts: &Parts) -> bool
    ensures { IsTrue result → (1 ≤ parts.now.ext) × (parts.now.ext ≤ 12) × (length parts.now.samples ≤ 16777216) × (length parts.now.regs ≤ 16777216) × (length parts.now.files ≤ 16) }
{
    1 <= parts.ext
        && parts.ext <= 12
        && parts.samples.as_slice().len() <= 16777216
        && parts.regs.as_slice().len() <= 16777216
        && parts.files.as_slice().len() <= 16
}

// Whether the outputs have the widths that a simulator requires.
fn outputs_fit(pool: &Pool, parts: &Parts) -> bool
    ensures { IsTrue result → NodeIs pool.now.nodes parts.now.full parts.now.ext × NodeIs pool.now.nodes parts.now.ue parts.now.ext × NodeIs pool.now.nodes parts.now.back 4 }
{
    node_is(pool, parts.full, parts.ext)
        && node_is(pool, parts.ue, parts.ext)
        && node_is(pool, parts.back, 4)
}

// Whether a node exists, with this width.
fn node_is(pool: &Pool, a: NodeId, width: u8) -> bool
    ensures { IsTrue result → NodeIs pool.now.nodes a width }
{
    (a.0 as usize) < pool.nodes().len() && pool.width(a) == width
}

fn ports_fit(ports: &[Port]) -> bool
    ensures { IsTrue result → All PortOk ports.now }
{
    ports.iter().all(|port| port_fits(port))
}

fn regs_fit(pool: &Pool, regs: &[NetReg]) -> bool
    ensures { IsTrue result → All (RegOk pool.now.nodes) regs.now }
{
    regs.iter().all(|reg| reg_fits(pool, reg))
}

fn files_fit(pool: &Pool, files: &[NetFile]) -> bool
    ensures { IsTrue result → All (FileOk pool.now.nodes) files.now }
{
    files.iter().all(|file| file_fits(pool, file))
}

fn port_fits(port: &Port) -> bool
    ensures { IsTrue result → PortOk port.now }
{
    1 <= port.width && port.width <= 64
}

fn reg_fits(pool: &Pool, reg: &NetReg) -> bool
    ensures { IsTrue result → RegOk pool.now.nodes reg.now }
{
    let width = reg.start.width();
    let _value = reg.start.value();
    node_is(pool, reg.next, width)
}

fn file_fits(pool: &Pool, file: &NetFile) -> bool
    ensures { IsTrue result → FileOk pool.now.nodes file.now }
{
    1 <= file.width
        && file.width <= 64
        && 1 <= file.address_width
        && file.address_width <= 16
        && file.words.as_slice().len() == 1usize << file.address_width
        && words_fit(file.words.as_slice(), file.width)
        && port_is(pool, file.width, file.address_width, file.port)
}

fn words_fit(words: &[u64], width: u8) -> bool
    ensures { IsTrue result → All (λ v. v < 2 ^ width) words.now }
{
    words.iter().all(|word| word_fits(*word, width))
}

fn word_fits(word: u64, width: u8) -> bool
    ensures { IsTrue result → word < 2 ^ width }
{
    match Bits::new(width, word) {
        Some(_) => true,
        None => false,
    }
}

fn port_is(pool: &Pool, width: u8, address_width: u8, port: Option<WritePort>) -> bool
    ensures { IsTrue result → WriteOk pool.now.nodes width address_width port }
{
    match port {
        None => true,
        Some(port) => {
            node_is(pool, port.enable, 1)
                && node_is(pool, port.address, address_width)
                && node_is(pool, port.value, width)
        }
    }
}

fn cells_fit(pool: &Pool, parts: &Parts) -> bool
    ensures { IsTrue result → AllCells pool.now.nodes parts.now }
{
    let Ok(count) = u32::try_from(pool.nodes().len()) else {
        return false;
    };
    for i in 0..count {
        if !cell_fits(pool, parts, pool.at(NodeId(i))) {
            return false;
        }
    }
    true
}

fn cell_fits(pool: &Pool, parts: &Parts, node: &Node) -> bool
    ensures { IsTrue result → CellOk pool.now.nodes parts.now node.now.width node.now.kind }
{
    match &node.kind {
        Kind::Ext => node.width == parts.ext,
        Kind::Sample(port) => match parts.samples.as_slice().get(*port as usize) {
            Some(port) => port.width == node.width,
            None => false,
        },
        Kind::Reg(reg) => match parts.regs.as_slice().get(*reg as usize) {
            Some(reg) => reg.start.width() == node.width,
            None => false,
        },
        Kind::Word(file, address) => match parts.files.as_slice().get(*file as usize) {
            Some(file) => file.width == node.width && node_is(pool, *address, file.address_width),
            None => false,
        },
        _ => true,
    }
}
