// The parts of a netlist other than the nodes.
ghost use Rattle.std.specs.Prelude.{◌≡◌, All, map, IfOk};
ghost use Rattle.kp_bits.specs.Word.{IsWord};
ghost use Rattle.kp_vlog.specs.Denote.{sample_of};
ghost use Rattle.kp_vread_rules.specs.Tables.{found};
ghost use Rattle.kp_vread.specs.inner.Building.{AreNarrow, start_from};
ghost use Rattle.kp_vread.specs.inner.Parts.{RegFits, PortFits, reg_by, regs_by, file_by, files_by, output_by, port_by};

use crate::kinds::node;
use crate::nexts::Nexts;
use crate::places::Places;
use crate::words::words;
use kp_base::NoMemory;
use kp_bits::Bits;
use kp_net::{Label, NetFile, NetReg, NodeId, Port, WritePort};
use kp_vlog::{Init, Item, Right, Update, VPort};
use kp_vread_rules::{Sizes, Starts};
use std::alloc::Global;

/// The sample ports, in the order of declaration. The only error is out of memory.
pub(crate) fn samples(alloc: Global, ports: &[VPort]) -> Result<Vec<Port>, NoMemory>
    requires { All PortFits ports.now }
    ensures { IfOk result (λ v. v.items ≡ map sample_of ports.now) }
{
    let mut all = Vec::new(alloc);
    for port in ports {
        let name = Label::new(alloc, port.port.name.bytes())?;
        let width = (port.range.high.value + 1) as u8;
        all.push(Port { name, width })?;
    }
    Ok(all)
}

/// The registers, in the order of declaration. The only error is out of memory.
pub(crate) fn regs<'m>(
    alloc: Global,
    starts: &Starts<'m>,
    nexts: &Nexts<'m>,
    items: &'m [Item],
) -> Result<Vec<NetReg>, NoMemory>
    requires { All (RegFits starts.now) items.now }
    ensures { IfOk result (λ v. v.items ≡ regs_by starts.now nexts.now items.now) }
{
    let mut all = Vec::new(alloc);
    for item in items {
        if let Item::Reg(_, name) = item {
            all.push(reg(alloc, starts, nexts, &name.name)?)?;
        }
    }
    Ok(all)
}

fn reg<'m>(
    alloc: Global,
    starts: &Starts<'m>,
    nexts: &Nexts<'m>,
    name: &'m Label,
) -> Result<NetReg, NoMemory>
    requires { IsWord (start_from (found starts.now name.now)) }
    ensures { IfOk result (λ r. r ≡ reg_by starts.now nexts.now name.now) }
{
    Ok(NetReg {
        name: Label::new(alloc, name.bytes())?,
        start: start(starts, name),
        next: nexts.get(name),
    })
}

// The start value of a register.
fn start<'m>(starts: &Starts<'m>, name: &'m Label) -> Bits
    requires { IsWord (start_from (found starts.now name.now)) }
    ensures { result ≡ start_from (found starts.now name.now) }
{
    starts.get(name).unwrap().fit().unwrap()
}

/// The node of the wire that is assigned to an output; node 0 if none is.
pub(crate) fn output<'m>(wires: &Places<'m>, out: &[u8], items: &'m [Item]) -> NodeId
    ensures { result ≡ output_by wires.now out.now items.now }
{
    for item in items {
        if let Item::Assign(target, Right::Name(name)) = item {
            if target.name.bytes() == out {
                return node(wires, name);
            }
        }
    }
    NodeId(0)
}

/// What the contents of the files of a module are built from.
#[derive(Clone, Copy)]
pub(crate) struct Sources<'s, 'm> {
    pub sizes: &'s Sizes<'m>,
    pub wires: &'s Places<'m>,
    pub inits: &'m [Init],
    pub updates: &'m [Update],
}

/// The files, in the order of declaration. The only error is out of memory.
pub(crate) fn files<'m>(
    alloc: Global,
    from: &Sources<'_, 'm>,
    items: &'m [Item],
) -> Result<Vec<NetFile>, NoMemory>
    requires { AreNarrow from.now.sizes.now }
    ensures { IfOk result (λ v. v.items ≡ files_by from.now.sizes.now from.now.wires.now from.now.inits.now from.now.updates.now items.now) }
{
    let mut all = Vec::new(alloc);
    for item in items {
        if let Item::File(_, name, _) = item {
            all.push(file(alloc, from, &name.name)?)?;
        }
    }
    Ok(all)
}

fn file<'m>(alloc: Global, from: &Sources<'_, 'm>, name: &'m Label) -> Result<NetFile, NoMemory>
    requires { AreNarrow from.now.sizes.now }
    ensures { IfOk result (λ f. f ≡ file_by from.now.sizes.now from.now.wires.now from.now.inits.now from.now.updates.now name.now) }
{
    let count = from.sizes.words(name) as usize;
    Ok(NetFile {
        name: Label::new(alloc, name.bytes())?,
        width: from.sizes.width(name) as u8,
        address_width: from.sizes.address(name),
        words: words(alloc, from.inits, count, name)?,
        port: port(from.wires, from.updates, name),
    })
}

// The write port of a file.
fn port<'m>(wires: &Places<'m>, updates: &'m [Update], file: &Label) -> Option<WritePort>
    ensures { result ≡ port_by wires.now updates.now file.now }
{
    for update in updates {
        if let Update::File(test, name, address, value) = update {
            if file.bytes() == name.name.bytes() {
                return Some(WritePort {
                    enable: node(wires, test),
                    address: node(wires, address),
                    value: node(wires, value),
                });
            }
        }
    }
    None
}
