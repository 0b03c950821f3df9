// A violated rule of widths: V4.
ghost use Rattle.std.specs.Prelude.{option_map};
ghost use Rattle.kp_view_help.specs.Phrases.{printed};
ghost use Rattle.kp_view_verilog_faults.specs.Helps.{HasBits, HelpsWidth};

use crate::source::Source;
use kp_view_help::{Bits, Line, Term, Terms, Word, sentences};
use kp_vread_rules::{Side, WidthFault};
use std::fmt::{self, Display};

// Writes the sentence for a violated rule of widths, in a text with this name at its place.
pub(crate) fn write_width<W: fmt::Write>(
    f: &mut fmt::Formatter<W>,
    source: Source<'_>,
    name: Word<'_>,
    fault: WidthFault,
) -> fmt::Result {
    sentences!(f, fault, {
        WidthFault::Range => "a range is `[h:0]`, where h is 63 at most",
        WidthFault::StallRange => "the range of `{name}` is `[h:0]`, where h is 1 to 11",
        WidthFault::BackRange => "the range of `back` is `[3:0]`",
        WidthFault::Words =>
            "the words of a file are `[0:w]`, where w + 1 is 2, 4, 8 or another power of 2 up to 65,536",
        WidthFault::Files => "a module has at most 16 files",
        WidthFault::Value { target, found } =>
            "{}, and this value has {}" (Sized(source, target), bits(found)),
        WidthFault::Operands { op, a, b, target } =>
            "the target and the operands of `{}` have different widths: {}, {} and {}"
            (op.symbol(), Sized(source, target), Sized(source, a), Sized(source, b)),
        WidthFault::Compared { op, a, b } =>
            "the operands of `{}` have different widths: {} and {}" (op.symbol(), Sized(source, a), Sized(source, b)),
        WidthFault::Comparison { op, target } =>
            "{}, and `{}` gives 1 bit" (Sized(source, target), op.symbol()),
        WidthFault::Shifted { op, a, target } =>
            "the target and the left operand of `{}` have different widths: {} and {}"
            (op.symbol(), Sized(source, target), Sized(source, a)),
        WidthFault::Test(side) => "a test has 1 bit; {}" (Sized(source, side)),
        WidthFault::Branches { a, b, target } =>
            "the target and the branches have different widths: {}, {} and {}"
            (Sized(source, target), Sized(source, a), Sized(source, b)),
        WidthFault::Slice { high, low, .. } if high < low =>
            "the high number is written first: `[{low}:{high}]`",
        WidthFault::Slice { high, low, width } =>
            "bits {high} to {low} of {}: the bits are numbered {} to 0"
            (bits(width), bits(width).0.saturating_sub(1)),
        WidthFault::Address { address, file, wanted } =>
            "an address of `{}` has {}; {}"
            (source.name_at(file as usize), bits(u128::from(wanted)), Sized(source, address)),
        WidthFault::LiteralWidth(width) => "a literal has 1 to 64 bits, not {width}",
        WidthFault::LiteralValue { value, width } => "{value} doesn't fit {}" (Bits(width)),
        WidthFault::Index { words, found } =>
            "the words of `{name}` are numbered 0 to {}, and {found} isn't one of them"
            (words.saturating_sub(1)),
        WidthFault::Loop { words } => "the `for` of `{name}` goes over all its {words} words",
    })
}

// A name of the text, with its width and the line of its declaration.
#[derive(Clone, Copy)]
struct Sized<'t>(Source<'t>, Side);

impl<'t> Display for Sized<'t> {
    fn fmt<W: fmt::Write>(&self, f: &mut fmt::Formatter<W>) -> fmt::Result {
        let Sized(source, side) = *self;
        let (name, line) = (
            source.name_at(side.name as usize),
            source.line_at(side.declared),
        );
        let width = bits(side.width);
        write!(f, "`{name}` (line {line}) has {width}")
    }
}

// A width as it is printed: the greatest 64-bit number where it is greater.
fn bits(width: u128) -> Bits {
    match u64::try_from(width) {
        Ok(width) => Bits(width),
        Err(_) => Bits(u64::MAX),
    }
}

// What helps where this name violates a rule of widths, if anything is known to.
pub(crate) fn width_help<'t>(name: Word<'t>, fault: WidthFault) -> Option<Line<'t>>
    ensures { HelpsWidth name.entry.0.now fault (option_map printed result) }
{
    match fault {
        WidthFault::LiteralValue { value, .. } => {
            let width = bits_of(value);
            let terms = Terms::Three(Term::Bits(width), Term::Number(width), Term::Number(value));
            let text = "it needs {}: `{}'d{}`";
            Some(Line { text, terms })
        }
        WidthFault::Loop { words } => Some(Line {
            text: "write `for (i = 0; i < {}; i = i + 1) {}[i] = ..;`",
            terms: Terms::Two(Term::Number(words), Term::Word(name)),
        }),
        _ => None,
    }
}

// The number of bits that a number needs.
fn bits_of(value: u64) -> u64
    ensures { HasBits result value }
{
    (64 - value.leading_zeros()) as u64
}
