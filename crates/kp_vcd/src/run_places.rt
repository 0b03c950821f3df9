// The registers of a netlist that store those of its job.
ghost use Rattle.std.specs.Prelude.{◌≡◌, ◌≤◌, length, map, IfOk};
ghost use Rattle.kp_vcd.specs.inner.Shown.{places_from};

use kp_ast::Decl;
use kp_base::NoMemory;
use kp_implements::register_named;
use kp_net::NetReg;
use std::alloc::Global;

/// For each declared register its number among those of a netlist. The only error is out of memory.
pub(crate) fn places_of(
    alloc: Global,
    decls: &[Decl],
    regs: &[NetReg],
) -> Result<Vec<u32>, NoMemory>
    requires { length regs.now ≤ 16777216 }
    ensures { IfOk result (λ places. places.items ≡ places_from (map (λ r. r.name) regs.now) decls.now) }
{
    let mut places = Vec::new(alloc);
    for decl in decls {
        if let Decl::Reg(n, _, _) = decl {
            places.push(register_named(regs, &n.name))?;
        }
    }
    Ok(places)
}
