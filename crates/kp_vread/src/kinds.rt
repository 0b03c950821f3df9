// The function of the right side of an assignment.
ghost use Rattle.std.specs.Prelude.{◌≡◌, ◌≤◌, length, map, IfOk};
ghost use Rattle.kp_vread.specs.inner.Building.{node_by, source_by, kind_by, RightFits};

use crate::numbers::Numbers;
use crate::places::Places;
use kp_base::NoMemory;
use kp_net::{Kind, NodeId, Operands};
use kp_vlog::{Named, Right};
use kp_vread_rules::is_sample;
use std::alloc::Global;

/// The kind of node of a wire with this right side. Its operands are wires that are numbered so far. The only error is out of memory.
pub(crate) fn kind<'m>(
    alloc: Global,
    numbers: &Numbers<'m>,
    wires: &Places<'m>,
    right: &'m Right,
) -> Result<Kind, NoMemory>
    requires { RightFits right.now }
    ensures { IfOk result (λ k. k ≡ kind_by numbers.now wires.now right.now) }
{
    match right {
        Right::Literal(literal) => Ok(Kind::Const(literal.literal.value)),
        Right::Name(name) => Ok(source(numbers, name)),
        Right::Not(a) => Ok(Kind::Not(node(wires, a))),
        Right::Binary(op, a, b) => Ok(Kind::Binary(*op, node(wires, a), node(wires, b))),
        Right::Choice(test, a, b) => {
            Ok(Kind::Mux(node(wires, test), node(wires, a), node(wires, b)))
        }
        Right::Slice(a, high, low) => Ok(Kind::Slice(
            node(wires, a),
            high.value as u8,
            low.value as u8,
        )),
        Right::Word(file, address) => Ok(Kind::Word(
            numbers.files.place(&file.name),
            node(wires, address),
        )),
        Right::Concat(parts) => Ok(Kind::Concat(operands(alloc, wires, parts.as_slice())?)),
    }
}

/// The node of a wire.
pub(crate) fn node<'m>(wires: &Places<'m>, name: &'m Named) -> NodeId
    ensures { result ≡ node_by wires.now name.now }
{
    NodeId(wires.place(&name.name))
}

// The source that a single name reads.
fn source<'m>(numbers: &Numbers<'m>, name: &'m Named) -> Kind
    ensures { result ≡ source_by numbers.now name.now.name }
{
    let bytes = name.name.bytes();
    if matches!(bytes, b"ext") {
        Kind::Ext
    } else if is_sample(bytes) {
        Kind::Sample(numbers.samples.place(&name.name))
    } else {
        Kind::Reg(numbers.regs.place(&name.name))
    }
}

fn operands<'m>(alloc: Global, wires: &Places<'m>, parts: &'m [Named]) -> Result<Operands, NoMemory>
    requires at_least { 2 ≤ length parts.now }
    requires at_most { length parts.now ≤ 12 }
    ensures { IfOk result (λ o. o ≡ map (node_by wires.now) parts.now) }
{
    let mut nodes = Vec::new(alloc);
    for part in parts {
        nodes.push(node(wires, part))?;
    }
    Ok(Operands::new(alloc, nodes.as_slice()))
}
