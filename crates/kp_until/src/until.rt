// A condition on which a run ends.
ghost use Rattle.std.specs.Prelude.{◌≡◌, ◌<◌, length, IfOk};
ghost use Rattle.kp_until.specs.Parts.{part_of};
ghost use Rattle.kp_until.specs.Untils.{compared, until_of, with_part, IsUntil};

use crate::part::{Part, PartFault, ValueFault, ends_in, find, front, part_of, single, value_of};
use kp_bits::{Bits, read_number};
use kp_design::Layout;

/// A condition on the state after some instructions.
#[derive(Clone, Copy)]
pub enum Until {
    /// The state repeats.
    Halt,
    /// There are this many instructions.
    Retired(u64),
    /// The word of a target at an address has this value, or hasn't.
    Word(u32, u32, bool, Bits),
}

/// Why a word is no condition.
#[derive(Clone, Copy)]
pub enum UntilFault {
    Form,
    NoPart(PartFault),
    /// It compares more than one word.
    ManyWords,
    /// It has no value for this target.
    NoValue(ValueFault, u32),
}

/// The condition that a word of the command line is.
#[tactic(auto, unfolding(crate::specs::Untils::until_of))]
pub fn until_of(layout: &Layout<'_>, word: &[u8]) -> Result<Until, UntilFault>
    ensures until { result ≡ until_of layout.now word.now }
    ensures fits { IfOk result (IsUntil layout.now) }
{
    if word == b"halt".as_slice() {
        return Ok(Until::Halt);
    }
    match find(word, b'=') {
        Some(i) => compared(layout, &word[..i], &word[i + 1..]),
        None => Err(UntilFault::Form),
    }
}

// The condition with these sides of its `=`.
fn compared(layout: &Layout<'_>, left: &[u8], right: &[u8]) -> Result<Until, UntilFault>
    ensures until { result ≡ compared layout.now left.now right.now }
    ensures fits { IfOk result (IsUntil layout.now) }
{
    if left == b"retired".as_slice() {
        return match read_number(right) {
            Some(n) => Ok(Until::Retired(n)),
            None => Err(UntilFault::Form),
        };
    }
    if ends_in(b'!', left) {
        with_part(layout, front(left), false, right)
    } else {
        with_part(layout, left, true, right)
    }
}

// The condition on these words.
fn with_part(
    layout: &Layout<'_>,
    left: &[u8],
    equal: bool,
    right: &[u8],
) -> Result<Until, UntilFault>
    ensures until { result ≡ with_part layout.now (part_of layout.now left.now) equal right.now }
    ensures fits { IfOk result (IsUntil layout.now) }
{
    let part = match part_of(layout, left) {
        Ok(part) => part,
        Err(fault) => return Err(UntilFault::NoPart(fault)),
    };
    let Some(address) = single(layout, part) else {
        return Err(UntilFault::ManyWords);
    };
    match value_of(layout.width(part.target), right) {
        Ok(value) => Ok(Until::Word(part.target, address, equal, value)),
        Err(fault) => Err(UntilFault::NoValue(fault, part.target)),
    }
}
