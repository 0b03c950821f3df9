// The registers and the files of a job, among those of a netlist.
ghost use Rattle.std.specs.Prelude.{◌≡◌, ◌++◌, ◌∷◌, [], codes};
ghost use Rattle.kp_machine.specs.Slots.{targets_of};
ghost use Rattle.kp_net.specs.Names.{same};
ghost use Rattle.kp_vread.specs.Matching.{has_register, has_file, has_targets, names_register, names_file, is_port_of};

use kp_ast::{Decl, Name};
use kp_net::{Label, NetFile, NetReg, Parts, Port};

// What is declared exists, if it is a register or a file. A file without address bits is treated as a register.
pub(crate) fn has_target(parts: &Parts, decl: &Decl) -> bool
    ensures { result ≡ has_targets parts.now (targets_of (decl.now ∷ [])) }
{
    match decl {
        Decl::Reg(name, width, _) => {
            has_register(parts.regs.as_slice(), &name.name, width.value)
        }
        Decl::File(name, width, address) => {
            if address.value == 0 {
                has_register(parts.regs.as_slice(), &name.name, width.value)
            } else {
                has_file(
                    parts.files.as_slice(),
                    &name.name,
                    width.value,
                    address.value,
                )
            }
        }
        _ => true,
    }
}

// The first register with this name has this width.
fn has_register(regs: &[NetReg], name: &Name, width: u64) -> bool
    ensures { result ≡ has_register regs.now (codes "r_" ++ name.now) width }
{
    for reg in regs {
        if is_named(&reg.name, b"r_", name) {
            return u64::from(reg.start.width()) == width;
        }
    }
    false
}

// The first file with this name has words and addresses of these widths.
fn has_file(files: &[NetFile], name: &Name, width: u64, address: u64) -> bool
    ensures { result ≡ has_file files.now (codes "f_" ++ name.now) width address }
{
    for file in files {
        if is_named(&file.name, b"f_", name) {
            return u64::from(file.width) == width && u64::from(file.address_width) == address;
        }
    }
    false
}

// The name is that of a register that is declared.
pub(crate) fn names_register(decls: &[Decl], label: &Label) -> bool
    ensures { result ≡ names_register (targets_of decls.now) label.now }
{
    for decl in decls {
        if declares_register(decl, label) {
            return true;
        }
    }
    false
}

fn declares_register(decl: &Decl, label: &Label) -> bool
    ensures { result ≡ names_register (targets_of (decl.now ∷ [])) label.now }
{
    match decl {
        Decl::Reg(name, _, _) => is_named(label, b"r_", &name.name),
        Decl::File(name, _, address) => address.value == 0 && is_named(label, b"r_", &name.name),
        _ => false,
    }
}

// The name is that of a file that is declared.
pub(crate) fn names_file(decls: &[Decl], label: &Label) -> bool
    ensures { result ≡ names_file (targets_of decls.now) label.now }
{
    for decl in decls {
        if declares_file(decl, label) {
            return true;
        }
    }
    false
}

fn declares_file(decl: &Decl, label: &Label) -> bool
    ensures { result ≡ names_file (targets_of (decl.now ∷ [])) label.now }
{
    match decl {
        Decl::File(name, _, address) => address.value != 0 && is_named(label, b"f_", &name.name),
        _ => false,
    }
}

// The port is that of a sample with this name and width.
pub(crate) fn is_port_of(port: &Port, name: &Name, width: u64) -> bool
    ensures { result ≡ is_port_of port.now (record { name = name.now; width = width; address = 0 }) }
{
    is_named(&port.name, b"s_", name) && u64::from(port.width) == width
}

// The name is the concatenation of these two.
fn is_named(label: &Label, front: &[u8], name: &Name) -> bool
    ensures { result ≡ same label.now (front.now ++ name.now) }
{
    match label.bytes().strip_prefix(front) {
        Some(behind) => behind == name.bytes(),
        None => false,
    }
}
