// The signals of the dump of a job.
ghost use Rattle.std.specs.Prelude.{◌≡◌, ◌∷◌, true, IfOk};
ghost use Rattle.kp_base.specs.Characters.{is_letter};
ghost use Rattle.kp_vcd.specs.{Name.IsName, Dumps.wire, Dumps.register, Dumps.register_signals, Dumps.signals_of};
ghost use Rattle.kp_implements.specs.Naming.{module_name};

use crate::{Name as DumpName, Signal};
use kp_ast::{Decl, Name};
use kp_base::NoMemory;
use kp_stage::Design;
use std::alloc::Global;

/// The name of the module of a job. The only error is out of memory.
pub(crate) fn module_of(alloc: Global, design: &Design) -> Result<DumpName, NoMemory>
    ensures { IfOk result (λ n. n ≡ module_name design.now.job) }
{
    behind_letter(alloc, b'm', &design.job().name.name)
}

/// Three signals that every machine has, and one for each register, in the order of declaration. The only error is out of memory.
pub(crate) fn signals_of(alloc: Global, design: &Design) -> Result<Vec<Signal>, NoMemory>
    ensures { IfOk result (λ ss. ss.items ≡ signals_of design.now.job) }
{
    let job = design.job();
    let stages = job.stages.value as u8;
    let full = wire(alloc, b"full", stages)?;
    let ue = wire(alloc, b"ue", stages)?;
    let back = wire(alloc, b"back", 4)?;
    let mut signals = Vec::new(alloc);
    signals.push(full)?;
    signals.push(ue)?;
    signals.push(back)?;
    for decl in job.decls.as_slice() {
        if let Decl::Reg(n, width, _) = decl {
            signals.push(register(alloc, &n.name, width.value as u8)?)?;
        }
    }
    Ok(signals)
}

fn wire(alloc: Global, name: &[u8], width: u8) -> Result<Signal, NoMemory>
    requires { IsName name.now }
    ensures { IfOk result (λ s. s ≡ wire name.now width) }
{
    let name = DumpName::new(alloc, name)?;
    Ok(Signal {
        name,
        reg: false,
        width,
    })
}

fn register(alloc: Global, name: &Name, width: u8) -> Result<Signal, NoMemory>
    ensures { IfOk result (λ s. s ≡ register name.now width) }
{
    let name = behind_letter(alloc, b'r', name)?;
    Ok(Signal {
        name,
        reg: true,
        width,
    })
}

// A name of the job after a letter and `_`.
fn behind_letter(alloc: Global, letter: u8, name: &Name) -> Result<DumpName, NoMemory>
    requires { is_letter letter ≡ true }
    ensures { IfOk result (λ n. n ≡ letter ∷ 95 ∷ name.now) }
{
    let mut bytes = Vec::new(alloc);
    bytes.push(letter)?;
    bytes.push(b'_')?;
    bytes.extend_from_slice(name.bytes())?;
    DumpName::new(alloc, bytes.as_slice())
}
