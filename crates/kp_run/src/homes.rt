// Which machine has the value of a target.
ghost use Rattle.std.specs.Prelude.{◌≡◌, ◌<◌, length, IfOk};
ghost use Rattle.kp_pipeline.specs.Accepted.{Accepted};
ghost use Rattle.kp_machine.specs.Slots.{targets_of};
ghost use Rattle.kp_machine.specs.Machine.{machine_of};
ghost use Rattle.kp_run.specs.{Homes.AreHomes, Homes.home_of, inner.Homes.home_by};

use kp_base::NoMemory;
use kp_design::{Layout, Port};
use kp_machine::laws::a_design_is_accepted;
use kp_stage::Design;
use std::alloc::Global;

/// For each target the number of the machine that has its value: that of its write stage, or the number of stages if it has no result. The only error
/// is out of memory.
pub fn homes_of(alloc: Global, design: &Design) -> Result<Vec<u8>, NoMemory>
    ensures { IfOk result (λ homes. AreHomes design.now.job homes.items) }
{
    a_design_is_accepted(design);
    let layout = Layout::of(alloc, design)?;
    homes_by(alloc, &layout)
}

fn homes_by(alloc: Global, layout: &Layout<'_>) -> Result<Vec<u8>, NoMemory>
    requires { Accepted (machine_of layout.now) }
    ensures { IfOk result (λ homes. AreHomes layout.now homes.items) }
{
    let mut homes = Vec::new(alloc);
    for t in 0..layout.target_count() {
        homes.push(home_of(layout, t))?;
    }
    Ok(homes)
}

// The machine that has the value of a target that is written so.
fn home_by(port: Option<Port>, none: u32) -> u32
    ensures { result ≡ home_by port none }
{
    match port {
        Some(port) => port.write,
        None => none,
    }
}

#[tactic(auto, using(crate::proofs::Machines::home_is, crate::proofs::Machines::home_small))]
fn home_of(layout: &Layout<'_>, t: u32) -> u8
    requires { t < length (targets_of layout.now.decls) }
    ensures { result ≡ home_of layout.now t }
{
    home_by(layout.port(t), layout.stages()) as u8
}
