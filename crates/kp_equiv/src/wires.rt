// The bits of nodes, through slices and concatenations.
ghost use Rattle.std.specs.Prelude.{◌≡◌, ◌+◌, ◌<◌, ◌≤◌, ◌==◌, length, map, take, drop, get_or, [], All, IfOk};
ghost use Rattle.std.specs.{Int.bit_at, List.range_with_len};
ghost use Rattle.std.specs.Cmp.Lexicographic.{pointwise, lists_per, lists_equiv};
ghost use Rattle.std.specs.Hash as fed;
ghost use Rattle.kp_equiv.specs.contracts.bit.BitPartialEq.TheImpl as equals;
ghost use Rattle.kp_equiv.specs.contracts.bit.BitPartialEq.TheImpl.Laws as partial;
ghost use Rattle.kp_equiv.specs.contracts.bit.BitEq.TheImpl.Laws as equivalence;
ghost use Rattle.kp_equiv.specs.contracts.bit.BitHash.TheImpl as hashes;
ghost use Rattle.kp_equiv.specs.contracts.bit.BitHash.TheImpl.Laws as hashing;
ghost use Rattle.kp_equiv.specs.Wiring.{bits_of_kind, bits_of_parts};
ghost use Rattle.kp_equiv.specs.inner.Bits.{bits_in, Fits};
ghost use Rattle.kp_equiv.specs.declared.bit.Bit.TheVariants.{Fixed, Of};

use crate::bit::Bit;
use kp_base::NoMemory;
use kp_net::{Kind, Node, NodeId};
use std::alloc::Global;
use std::hash::{Hash, Hasher};
use std::marker::Model;

/// The bits of a node, the lowest first.
///
/// Contracts see the list of them.
pub(crate) struct Wires {
    bits: Vec<Bit>,
}

impl Drop for Wires {
    fn drop(self) {
        let Wires { bits } = self;
        drop(bits);
    }
}

impl Model for Wires {
    ghost use Rattle.std.specs.Prelude.{List};
    ghost use Rattle.kp_equiv.specs.declared.bit.Bit.{Bit as Wire};

    ghost Value = { List Wire };

    ghost view = { λ w. w.bits.items };
}

impl Wires {
    /// The bits of a node, given those of its operands. Its own bits, where it has some, are those of this number. The only error is out of memory.
    pub fn of_node(
        alloc: Global,
        operands: &[Wires],
        number: NodeId,
        n: &Node,
    ) -> Result<Wires, NoMemory>
        requires width { n.now.width ≤ 64 }
        requires fits { Fits operands.now n.now.width n.now.kind }
        ensures { IfOk result (λ w. w ≡ bits_of_kind (bits_in operands.now) number n.now.width n.now.kind) }
    {
        match &n.kind {
            Kind::Const(value) => fixed(alloc, *value, n.width),
            Kind::Concat(parts) => joined(alloc, operands, parts.nodes()),
            Kind::Slice(a, _, lo) => sliced(alloc, bits_at(operands, *a), *lo, n.width),
            Kind::Ext
            | Kind::Sample(_)
            | Kind::Reg(_)
            | Kind::Word(_, _)
            | Kind::Not(_)
            | Kind::Binary(_, _, _)
            | Kind::Mux(_, _, _) => own(alloc, number, n.width),
        }
    }

    /// A copy of the bits. The only error is out of memory.
    pub fn copied(&self, alloc: Global) -> Result<Wires, NoMemory>
        ensures { IfOk result (λ w. w ≡ self.now) }
    {
        let mut bits = Vec::new(alloc);
        bits.extend_from_slice(self.bits.as_slice())?;
        Ok(Wires { bits })
    }
}

impl PartialEq for Wires {
    ghost eq = { pointwise equals.eq-value.it };

    ghost laws = { lists_per partial.laws-law };

    fn eq(&self, other: &Wires) -> bool {
        self.bits.as_slice() == other.bits.as_slice()
    }
}

impl Eq for Wires {
    ghost laws = { lists_equiv equivalence.laws-law };
}

impl Hash for Wires {
    ghost hash_input = { fed.slice hashes.hash_input-value.it };

    ghost respects_eq = { (fed.items_Alike (record { fed = hashing.respects_eq-law })).fed };

    fn hash<H: Hasher>(&self, state: &mut H) {
        self.bits.as_slice().hash(state);
    }
}

fn bits_at(operands: &[Wires], node: NodeId) -> &[Bit]
    requires { node.0 < length operands.now }
    ensures { result.now ≡ bits_in operands.now node }
{
    let wires = &operands[node.0 as usize];
    wires.bits.as_slice()
}

// The bits of a constant.
fn fixed(alloc: Global, value: u64, width: u8) -> Result<Wires, NoMemory>
    requires { width ≤ 64 }
    ensures { IfOk result (λ w. w ≡ map (λ k. Fixed (bit_at value k == 1)) (range_with_len 0 width)) }
{
    let mut bits = Vec::new(alloc);
    for k in 0..width {
        bits.push(Bit::Fixed(value >> k & 1 == 1))?;
    }
    Ok(Wires { bits })
}

// The bits of an operation or a cell.
fn own(alloc: Global, number: NodeId, width: u8) -> Result<Wires, NoMemory>
    ensures { IfOk result (λ w. w ≡ map (Of number) (range_with_len 0 width)) }
{
    let mut bits = Vec::new(alloc);
    for k in 0..width {
        bits.push(Bit::Of(number, k))?;
    }
    Ok(Wires { bits })
}

fn sliced(alloc: Global, whole: &[Bit], lo: u8, width: u8) -> Result<Wires, NoMemory>
    requires { lo + width ≤ length whole.now }
    ensures { IfOk result (λ w. w ≡ take width (drop lo whole.now)) }
{
    let first = lo as usize;
    let mut bits = Vec::new(alloc);
    bits.extend_from_slice(&whole[first..first + width as usize])?;
    Ok(Wires { bits })
}

fn joined(alloc: Global, operands: &[Wires], parts: &[NodeId]) -> Result<Wires, NoMemory>
    requires { All (λ a. a.0 < length operands.now) parts.now }
    ensures { IfOk result (λ w. w ≡ bits_of_parts (bits_in operands.now) parts.now) }
{
    let mut bits = Vec::new(alloc);
    let mut left = parts.len();
    'parts: while left > 0 {
        left -= 1;
        bits.extend_from_slice(bits_at(operands, parts[left]))?;
    }
    Ok(Wires { bits })
}
