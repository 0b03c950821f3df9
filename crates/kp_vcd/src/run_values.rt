// The values of the signals at a time.
ghost use Rattle.std.specs.Prelude.{◌≡◌, ℕ, ◌≤◌, ◌<◌, ◌%◌, ◌^◌, ◌++◌, length, get_or, IfOk};
ghost use Rattle.kp_bits.specs.Word.{word};
ghost use Rattle.kp_vcd.specs.{Dumps.no_row, inner.Shown.shown_at, inner.Shown.mask_values};

use kp_base::{NoMemory, Row};
use kp_bits::Bits;
use kp_cycle::Sim;
use std::alloc::Global;

/// The values of the registers with these numbers. The only error is out of memory.
pub(crate) fn registers_in(
    alloc: Global,
    sim: &Sim<'_>,
    places: &[u32],
) -> Result<Vec<Option<Bits>>, NoMemory>
    requires { (i d : ℕ) → i < length places.now → get_or places.now i d < length sim.now.net.parts.regs }
    ensures { IfOk result (λ values. values.items ≡ shown_at sim.now places.now) }
{
    let mut values = Vec::new(alloc);
    for i in 0..places.len() {
        values.push(Some(sim.value(places[i])))?;
    }
    Ok(values)
}

/// The values in a cycle of n stages with this row. The only error is out of memory.
pub(crate) fn values_in(
    alloc: Global,
    n: u8,
    row: Row,
    registers: &[Option<Bits>],
) -> Result<Vec<Option<Bits>>, NoMemory>
    requires some { 1 ≤ n }
    requires few { n ≤ 12 }
    ensures { IfOk result (λ values. values.items ≡ mask_values n row ++ registers.now) }
{
    let mut values = Vec::new(alloc);
    values.push(Some(low_bits(n, row.full)))?;
    values.push(Some(low_bits(n, row.ue)))?;
    values.push(Some(low_bits(4, u16::from(row.back))))?;
    values.extend_from_slice(registers)?;
    Ok(values)
}

/// The values after the last cycle: only registers have one. The only error is out of memory.
pub(crate) fn values_behind(
    alloc: Global,
    registers: &[Option<Bits>],
) -> Result<Vec<Option<Bits>>, NoMemory>
    ensures { IfOk result (λ values. values.items ≡ no_row ++ registers.now) }
{
    let mut values = Vec::new(alloc);
    values.push(None)?;
    values.push(None)?;
    values.push(None)?;
    values.extend_from_slice(registers)?;
    Ok(values)
}

fn low_bits(width: u8, mask: u16) -> Bits
    requires some { 1 ≤ width }
    requires few { width ≤ 12 }
    ensures { result ≡ word width (mask % 2 ^ width) }
{
    Bits::new(width, u64::from(mask) % (1 << width)).unwrap()
}
