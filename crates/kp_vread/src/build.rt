// The netlist of a module.
ghost use Rattle.std.specs.Prelude.{◌≡◌, ◌≤◌, ℕ, List, None, All, length, IfOk};
ghost use Rattle.kp_vlog.specs.Scope.{scope_of, sizes_of};
ghost use Rattle.kp_vlog.specs.Rules.{broken};
ghost use Rattle.kp_vlog.specs.Denote.{net_of, parts_of, regs_of};
ghost use Rattle.kp_vread_rules.specs.Tables.{AlikeSizes};
ghost use Rattle.kp_vread.specs.inner.Numbering.{AreNumbered};
ghost use Rattle.kp_vread.specs.inner.Building.{AreNarrow, IsScope};
ghost use Rattle.kp_vread.specs.inner.Parts.{PortFits, AreStarted, files_by};

use crate::nexts::Nexts;
use crate::nodes::Made;
use crate::numbers::Numbers;
use crate::parts::{Sources, files, output, regs, samples};
use crate::places::Places;
use kp_base::{List, NoMemory};
use kp_net::{Label, NetFile, NetReg, Netlist, Parts};
use kp_vlog::VModule;
use kp_vread_rules::Starts;
use std::alloc::Global;

/// The netlist of a module that violates no rule. The only error is out of memory.
pub(crate) fn build(alloc: Global, whole: &VModule) -> Result<Netlist, NoMemory>
    requires sound { broken whole.now ≡ None }
    requires samples { length whole.now.samples ≤ 16777216 }
    requires items { length whole.now.items ≤ 16777216 }
    ensures { IfOk result (λ net. net ≡ net_of whole.now) }
{
    let numbers = Numbers::new(alloc, whole)?;
    let netlist = build_by(alloc, whole, &numbers);
    drop(numbers);
    netlist
}

// The netlist of a module whose names have these numbers.
fn build_by<'m>(
    alloc: Global,
    whole: &'m VModule,
    numbers: &Numbers<'m>,
) -> Result<Netlist, NoMemory>
    requires sound { broken whole.now ≡ None }
    requires samples { length whole.now.samples ≤ 16777216 }
    requires items { length whole.now.items ≤ 16777216 }
    requires scope { IsScope numbers.now (scope_of whole.now) }
    ensures { IfOk result (λ net. net ≡ net_of whole.now) }
{
    let made = Made::new(alloc, numbers, whole.items.as_slice())?;
    let parts = parts(alloc, whole, numbers, &made.wires)?;
    Ok(Netlist::from_nodes(made.nodes, parts))
}

// The parts other than the nodes.
fn parts<'m>(
    alloc: Global,
    whole: &'m VModule,
    numbers: &Numbers<'m>,
    wires: &Places<'m>,
) -> Result<Parts, NoMemory>
    requires narrow { AreNarrow numbers.now.sizes }
    requires ext { PortFits whole.now.ext }
    requires samples { All PortFits whole.now.samples }
    requires regs { AreStarted whole.now }
    ensures { IfOk result (λ p. (ks : List (List ℕ)) → AreNumbered wires.now ks → AlikeSizes numbers.now.sizes (sizes_of whole.now) → p ≡ parts_of ks whole.now) }
{
    let items = whole.items.as_slice();
    let name = Label::new(alloc, whole.name.name.bytes())?;
    let samples = samples(alloc, whole.samples.as_slice())?;
    let regs = all_regs(alloc, whole, wires)?;
    let files = all_files(alloc, whole, numbers, wires)?;
    Ok(Parts {
        name,
        ext: (whole.ext.range.high.value + 1) as u8,
        reset: whole.rst.is_some(),
        samples: List::new(samples),
        regs: List::new(regs),
        files: List::new(files),
        full: output(wires, b"full", items),
        ue: output(wires, b"ue", items),
        back: output(wires, b"back", items),
    })
}

// The registers, whose next values are nodes of these wires.
fn all_regs<'m>(
    alloc: Global,
    whole: &'m VModule,
    wires: &Places<'m>,
) -> Result<Vec<NetReg>, NoMemory>
    requires { AreStarted whole.now }
    ensures { IfOk result (λ v. (ks : List (List ℕ)) → AreNumbered wires.now ks → v.items ≡ regs_of ks whole.now whole.now.items) }
{
    let items = whole.items.as_slice();
    let starts = Starts::new(alloc, whole.inits.as_slice())?;
    let nexts = Nexts::new(alloc, wires, whole.updates.as_slice())?;
    regs(alloc, &starts, &nexts, items)
}

// The files, with the nodes of these wires in their ports.
fn all_files<'m>(
    alloc: Global,
    whole: &'m VModule,
    numbers: &Numbers<'m>,
    wires: &Places<'m>,
) -> Result<Vec<NetFile>, NoMemory>
    requires { AreNarrow numbers.now.sizes }
    ensures { IfOk result (λ v. v.items ≡ files_by numbers.now.sizes wires.now whole.now.inits whole.now.updates whole.now.items) }
{
    let from = Sources {
        sizes: &numbers.sizes,
        wires,
        inits: whole.inits.as_slice(),
        updates: whole.updates.as_slice(),
    };
    let files = files(alloc, &from, whole.items.as_slice())?;
    Ok(files)
}
