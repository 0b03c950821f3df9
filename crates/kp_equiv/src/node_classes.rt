// The classes of the nodes of two netlists.
ghost use Rattle.std.specs.Prelude.{◌≡◌, ◌≤◌, [], List, length, IfOk};
ghost use Rattle.kp_net.specs.Parts.{NetOk};
ghost use Rattle.kp_equiv.specs.Classes.{Determines};
ghost use Rattle.kp_equiv.specs.Named.{HasNames};
ghost use Rattle.kp_equiv.specs.declared.bit.Bit.{Bit};
ghost use Rattle.kp_equiv.specs.inner.Shapes.{known_of, AreFew, IsTable, Grown};

use crate::classes::Classes;
use crate::known::Known;
use crate::table::Table;
use crate::term::Term;
use crate::wires::Wires;
use kp_base::NoMemory;
use kp_net::{Netlist, NodeId};
use std::alloc::Global;

/// The classes of the nodes of two netlists, where no two registers, files or sample ports of the first have the same name. Each node is visited
/// once. The only error is out of memory.
pub fn classes_of(alloc: Global, a: &Netlist, b: &Netlist) -> Result<Classes, NoMemory>
    requires { HasNames a.now }
    ensures { IfOk result (λ c. Determines a.now b.now c.first.items c.second.items) }
{
    let known = Known::new(alloc, a)?;
    let classes = classes_by(alloc, &known, a, b);
    drop(known);
    classes
}

// The classes of the nodes of two netlists, given the names of the first.
fn classes_by(alloc: Global, known: &Known, a: &Netlist, b: &Netlist) -> Result<Classes, NoMemory>
    requires known { known.now ≡ known_of a.now }
    requires few { AreFew known.now }
    ensures { IfOk result (λ c. Determines a.now b.now c.first.items c.second.items) }
{
    let mut table = Table::new(alloc);
    classes_in(alloc, known, a, b, &mut table)
}

// The same, given an empty table.
fn classes_in(
    alloc: Global,
    known: &Known,
    a: &Netlist,
    b: &Netlist,
    table: &mut Table,
) -> Result<Classes, NoMemory>
    requires known { known.now ≡ known_of a.now }
    requires few { AreFew known.now }
    requires empty { table.old ≡ [] }
    ensures { IfOk result (λ c. Determines a.now b.now c.first.items c.second.items) }
{
    let first = classes_of_net(alloc, known, a, table)?;
    let second = classes_of_net(alloc, known, b, table)?;
    Ok(Classes { first, second })
}

// The classes of the nodes of one netlist, by the terms in the table.
fn classes_of_net(
    alloc: Global,
    known: &Known,
    net: &Netlist,
    table: &mut Table,
) -> Result<Vec<NodeId>, NoMemory>
    requires few { AreFew known.now }
    requires room { length table.old ≤ 33554432 }
    requires table { IsTable table.old }
    ensures right { IfOk result (λ _. NetOk net.now) }
    ensures classes { IfOk result (λ v. (ws : List (List Bit)) × Grown known.now net.now table.old table.new v.items ws (length net.now.nodes)) }
{
    let mut classes = Vec::new(alloc);
    let mut wires = Vec::new(alloc);
    for n in net.nodes() {
        let shape = known.shape(alloc, net, classes.as_slice(), n);
        let number = table.number(Term::Operation(shape))?;
        let bits = Wires::of_node(alloc, wires.as_slice(), number, n)?;
        let key = bits.copied(alloc)?;
        let class = table.number(Term::Bits(key))?;
        classes.push(class)?;
        wires.push(bits)?;
    }
    Ok(classes)
}
