// The registers and files of a netlist that store the targets of its job.
ghost use Rattle.std.specs.Prelude.{◌≡◌, ◌<◌, [], ◌∷◌, ◌++◌, codes, length, get_or};
ghost use Rattle.kp_machine.specs.Slots.{targets_of};
ghost use Rattle.kp_machine.specs.Words.{no_slot};
ghost use Rattle.kp_implements.specs.Naming.{place_among, register_name, register_names, file_names};
ghost use Rattle.kp_report.specs.States.{targets_in};

use kp_ast::{Decl, Name};
use kp_net::Netlist;
use kp_report::targets_in;

/// The number of the register with the name of a target.
pub(crate) fn register_at(net: &Netlist, decls: &[Decl], target: u32) -> u32
    requires { target < length (targets_of decls.now) }
    ensures { result ≡ place_among (register_names net.now) (register_name (get_or (targets_of decls.now) target no_slot)) }
{
    let mut left = target;
    for decl in decls {
        let here = targets_in(decl);
        if left < here {
            return register_for(net, decl);
        }
        left -= here;
    }
    0
}

fn register_for(net: &Netlist, decl: &Decl) -> u32
    requires { targets_in decl.now ≡ 1 }
    ensures { result ≡ place_among (register_names net.now) (register_name (get_or (targets_of (decl.now ∷ [])) 0 no_slot)) }
{
    match decl {
        Decl::Reg(name, _, _) | Decl::File(name, _, _) => register_named(net, &name.name),
        _ => 0,
    }
}

/// The number of the register `r_X` for the name X, or the number of registers if none has this name.
pub(crate) fn register_named(net: &Netlist, name: &Name) -> u32
    ensures { result ≡ place_among (register_names net.now) (codes "r_" ++ name.now) }
{
    kp_implements::register_named(net.parts().regs.as_slice(), name)
}

/// The number of the file `f_X` for the name X, or the number of files if none has this name.
pub(crate) fn file_named(net: &Netlist, name: &Name) -> u32
    ensures { result ≡ place_among (file_names net.now) (codes "f_" ++ name.now) }
{
    kp_implements::file_named(net.parts().files.as_slice(), name)
}
