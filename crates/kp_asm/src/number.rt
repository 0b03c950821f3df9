// The numbers and the registers that tokens denote.
ghost use Rattle.std.specs.Prelude.{◌≡◌, ◌≤◌, ◌<◌, ◌^◌, drop};
ghost use Rattle.std.specs.List.{list_all};
ghost use Rattle.kp_bits.specs.Literals.{number_of};
ghost use Rattle.kp_base.specs.Characters.{is_digit};
ghost use Rattle.kp_asm.specs.Numbers.{is_negative, magnitude, is_at_most, in_range, number as number_in, is_register, is_low, register as register_of};

use kp_base::is_digit;
use kp_bits::{read_number, read_numeral};

fn is_negative(run: &[u8]) -> bool
    ensures { result ≡ is_negative run.now }
{
    matches!(run, [b'-', ..])
}

// The absolute value of a number, if it fits 64 bits.
fn magnitude(run: &[u8]) -> Option<u64>
    ensures { result ≡ magnitude run.now }
{
    if let [b'0', b'x', digits @ ..] = run {
        return read_numeral(16, digits);
    }
    if let [b'-', digits @ ..] = run {
        return read_numeral(10, digits);
    }
    read_numeral(10, run)
}

fn is_at_most(n: Option<u64>, limit: u64) -> bool
    ensures { result ≡ is_at_most n limit }
{
    match n {
        None => false,
        Some(n) => n <= limit,
    }
}

/// Whether the number is in -low to high.
pub fn in_range(low: u64, high: u64, run: &[u8]) -> bool
    ensures { result ≡ in_range low high run.now }
{
    is_at_most(magnitude(run), if is_negative(run) { low } else { high })
}

/// The number in `width` bits, in two's complement.
pub fn number(width: u32, run: &[u8]) -> u32
    requires { width ≤ 32 }
    ensures value { result ≡ number_in width run.now }
    ensures fits { result < 2 ^ width }
{
    let size = 1u64 << width;
    let low = magnitude(run).unwrap_or(0) % size;
    if is_negative(run) {
        ((size - low) % size) as u32
    } else {
        low as u32
    }
}

/// Whether it is `r` and 1 to 20 decimal digits.
pub fn is_register(run: &[u8]) -> bool
    ensures { result ≡ is_register run.now }
{
    let [b'r', digits @ ..] = run else {
        return false;
    };
    if digits.is_empty() {
        return false;
    }
    if digits.len() > 20 {
        return false;
    }
    are_digits(digits)
}

fn are_digits(run: &[u8]) -> bool
    ensures { result ≡ list_all is_digit run.now }
{
    run.iter().all(|byte| is_digit(*byte))
}

// The number after the first byte, if it fits 64 bits.
fn register_number(run: &[u8]) -> Option<u64>
    ensures { result ≡ number_of (drop 1 run.now) }
{
    match run {
        [] => read_number(run),
        [_, digits @ ..] => read_number(digits),
    }
}

/// Whether the register's number is at most 31.
pub fn is_low(run: &[u8]) -> bool
    ensures { result ≡ is_low run.now }
{
    is_at_most(register_number(run), 31)
}

/// The register's number, in five bits.
pub fn register(run: &[u8]) -> u32
    ensures value { result ≡ register_of run.now }
    ensures fits { result < 2 ^ 5 }
{
    (register_number(run).unwrap_or(0) % 32) as u32
}
