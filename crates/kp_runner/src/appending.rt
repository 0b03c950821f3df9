// Texts that are appended to what is to be written.
ghost use Rattle.std.specs.Prelude.{◌≡◌, ◌+◌, ◌<◌, ◌^◌, ◌++◌, ◌&&◌, ltb, cond, codes, decimal, flat_map, length, OnOk};
ghost use Rattle.kp_bits.specs.Spelling.{spelling};
ghost use Rattle.kp_diagram_text.specs.Text.{hundredths, rate, rate_text};

use itoa::Buffer;
use kp_base::NoMemory;
use kp_bits::Bits;

pub(crate) fn put_number(out: &mut Vec<u8>, number: u64) -> Result<(), NoMemory>
    ensures { OnOk result (out.new.items ≡ out.old.items ++ decimal number) }
{
    let mut digits = Buffer::new();
    out.extend_from_slice(digits.format(number).as_bytes())?;
    Ok(())
}

/// Appends a value as a literal.
pub(crate) fn put_value(out: &mut Vec<u8>, value: Bits) -> Result<(), NoMemory>
    ensures { OnOk result (out.new.items ≡ out.old.items ++ spelling value) }
{
    let mut spelled = [0; 20];
    let length = value.spell(&mut spelled);
    out.extend_from_slice(&spelled[..length])?;
    Ok(())
}

/// Appends pieces, in order.
pub(crate) fn put_all(out: &mut Vec<u8>, pieces: &[&[u8]]) -> Result<(), NoMemory>
    ensures { OnOk result (out.new.items ≡ out.old.items ++ flat_map (λ piece. piece.now) pieces.now) }
{
    for piece in pieces {
        out.extend_from_slice(piece)?;
    }
    Ok(())
}

/// Appends the cycles per instruction, if there is one: `, 1.53 cycles per instruction`.
pub(crate) fn put_rate(out: &mut Vec<u8>, cycles: u32, retired: u64) -> Result<(), NoMemory>
    requires { retired < 2 ^ 32 }
    ensures { OnOk result (out.new.items ≡ out.old.items ++ rate_text cycles retired) }
{
    if retired == 0 {
        Ok(())
    } else {
        put_some_rate(out, cycles, retired)
    }
}

// The same where there is one.
#[tactic(auto, using(std::proofs::Common::append_assoc))]
fn put_some_rate(out: &mut Vec<u8>, cycles: u32, retired: u64) -> Result<(), NoMemory>
    requires some { 0 < retired }
    requires few { retired < 2 ^ 32 }
    ensures { OnOk result (out.new.items ≡ out.old.items ++ (codes ", " ++ (rate cycles retired ++ codes " cycles per instruction"))) }
{
    out.extend_from_slice(b", ")?;
    put_ratio(out, cycles, retired)?;
    out.extend_from_slice(b" cycles per instruction")?;
    Ok(())
}

// Appends the cycles per instruction, with two digits after the point.
#[tactic(auto, using(std::proofs::Common::append_assoc), unfolding(kp_diagram_text::specs::Text::rate))]
fn put_ratio(out: &mut Vec<u8>, cycles: u32, retired: u64) -> Result<(), NoMemory>
    requires some { 0 < retired }
    requires few { retired < 2 ^ 32 }
    ensures { OnOk result (out.new.items ≡ out.old.items ++ rate cycles retired) }
{
    let hundredths = (200 * u64::from(cycles) + retired) / (2 * retired);
    put_number(out, hundredths / 100)?;
    out.extend_from_slice(point(hundredths % 100))?;
    put_number(out, hundredths % 100)
}

// What is written before the hundredths, so that they have two digits.
fn point(rest: u64) -> &'static [u8]
    ensures { result.now ≡ cond (ltb rest 10) (codes ".0") (codes ".") }
{
    if rest < 10 { b".0" } else { b"." }
}
