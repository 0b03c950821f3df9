// The registers and files of two netlists, compared with their namesakes.
ghost use Rattle.std.specs.Prelude.{◌≡◌, ◌<◌, length, get_or};
ghost use Rattle.std.specs.Bool.{Decides};
ghost use Rattle.kp_net.specs.Parts.{WriteOk, no_reg, no_file};
ghost use Rattle.kp_equiv.specs.{Alike.reg_name, Alike.file_name, Named.reg_names, Named.file_names, Named.HasNames, Classes.Determines};
ghost use Rattle.kp_equiv.specs.Agreement.{RegisterAgrees, FileAgrees};

use crate::alike::{files_are_alike, regs_are_alike};
use crate::classes::Classes;
use crate::names::Names;
use kp_net::{NetFile, NetReg, Netlist};

/// Register `i` of a netlist.
pub(crate) fn reg_at(net: &Netlist, i: usize) -> &NetReg
    requires { i < length net.now.parts.regs }
    ensures value { result.now ≡ get_or net.now.parts.regs i no_reg }
    ensures next { result.now.next.0 < length net.now.nodes }
{
    &net.parts().regs.as_slice()[i]
}

/// File `i` of a netlist.
pub(crate) fn file_at(net: &Netlist, i: usize) -> &NetFile
    requires { i < length net.now.parts.files }
    ensures value { result.now ≡ get_or net.now.parts.files i no_file }
    ensures port { WriteOk net.now.nodes result.now.width result.now.address_width result.now.port }
{
    &net.parts().files.as_slice()[i]
}

/// Whether register `i` of the first netlist has an equivalent namesake in the second, whose registers have these names.
pub(crate) fn register_agrees(
    a: &Netlist,
    b: &Netlist,
    regs: &Names,
    classes: &Classes,
    i: usize,
) -> bool
    requires determines { Determines a.now b.now classes.now.first.items classes.now.second.items }
    requires names { regs.now ≡ reg_names b.now }
    requires first { HasNames a.now }
    requires second { HasNames b.now }
    requires inside { i < length a.now.parts.regs }
    ensures { Decides result (RegisterAgrees a.now b.now (reg_name a.now i)) }
{
    let reg = reg_at(a, i);
    match regs.find(&reg.name) {
        None => false,
        Some(q) => {
            let other = reg_at(b, q);
            regs_are_alike(a, b, classes, reg, other)
        }
    }
}

/// Whether file `i` of the first netlist has an equivalent namesake in the second, whose files have these names.
pub(crate) fn file_agrees(
    a: &Netlist,
    b: &Netlist,
    files: &Names,
    classes: &Classes,
    i: usize,
) -> bool
    requires determines { Determines a.now b.now classes.now.first.items classes.now.second.items }
    requires names { files.now ≡ file_names b.now }
    requires first { HasNames a.now }
    requires second { HasNames b.now }
    requires inside { i < length a.now.parts.files }
    ensures { Decides result (FileAgrees a.now b.now (file_name a.now i)) }
{
    let file = file_at(a, i);
    match files.find(&file.name) {
        None => false,
        Some(g) => {
            let other = file_at(b, g);
            files_are_alike(a, b, classes, file, other)
        }
    }
}
