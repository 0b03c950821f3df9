// The first target of which two instructions have other nodes.
ghost use Rattle.std.specs.Prelude.{◌≡◌, length, None, Some, IfSome};
ghost use Rattle.kp_same.specs.inner.Differences.{Differs, IsFirst};

use crate::sinks::Sink;

/// What an instruction does to a target, in parts.
#[derive(Clone, Copy, PartialEq, Eq)]
pub enum Part {
    /// Whether it has a result for the target.
    Result,
    /// The address that it writes.
    Address,
    /// Whether it writes.
    Enable,
    /// What it writes.
    Value,
}

/// A part of a target, by the number of the target, that wasn't shown to be the same.
#[derive(Clone, Copy, PartialEq, Eq)]
pub struct Difference {
    pub target: usize,
    pub part: Part,
}

// The first part of two sinks that differs.
fn part_between(a: Sink, b: Sink) -> Option<Part>
    ensures none { result ≡ None → a ≡ b }
    ensures some { IfSome result (λ part. Differs part (Some a) (Some b)) }
{
    if a.address != b.address {
        Some(Part::Address)
    } else if a.enable != b.enable {
        Some(Part::Enable)
    } else if a.value != b.value {
        Some(Part::Value)
    } else {
        None
    }
}

// The same where there may be no sink.
fn part_of(a: Option<Sink>, b: Option<Sink>) -> Option<Part>
    ensures none { result ≡ None → a ≡ b }
    ensures some { IfSome result (λ part. Differs part a b) }
{
    match a {
        None => match b {
            None => None,
            Some(_) => Some(Part::Result),
        },
        Some(x) => match b {
            None => Some(Part::Result),
            Some(y) => part_between(x, y),
        },
    }
}

/// The first of as many sinks that differ.
pub(crate) fn first_difference(left: &[Option<Sink>], right: &[Option<Sink>]) -> Option<Difference>
    requires { length left.now ≡ length right.now }
    ensures none { result ≡ None → left.now ≡ right.now }
    ensures some { IfSome result (λ d. IsFirst d left.now right.now) }
{
    for target in 0..left.len() {
        if let Some(part) = part_of(left[target], right[target]) {
            return Some(Difference { target, part });
        }
    }
    None
}
