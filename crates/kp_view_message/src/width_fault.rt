// Sentences on names and widths (E5 to E14 and E26).
ghost use Rattle.std.specs.Prelude.{◌≡◌, [], ◌∷◌, None, Some};
ghost use Rattle.kp_width.specs.declared.fault.WidthFault.TheVariants as faults;
ghost use Rattle.kp_view_help.specs.declared.phrase.Term.TheVariants as term;
ghost use Rattle.kp_view_help.specs.declared.help.Help.TheVariants as help;
ghost use Rattle.kp_view_message.specs.Sites.{literal_at};
ghost use Rattle.kp_view_message.specs.Widths.{address_help, AreNumberHelps, AreWidthHelps, AreNameHelps, IsWidthMessage, bits_in, fit, number_widths, value_widths, widen, widths_in, with_width};

use crate::message::Message;
use crate::name_fault::{argument_count, called_early, declared_again, not_in_scope, wrong_kind};
use crate::sentence::Sentence;
use crate::site::{Site, declared, line_of, parameter, word_of};
use kp_ast::{Job, NameKind, Named};
use kp_base::{Finding, Place};
use kp_bits::Literal;
use kp_view_help::{Help, Kind, Term, Terms, Word};
use kp_width::{Destination, WidthFault};

/// What is said of a violated rule of names or widths in a text, which has this tree.
#[tactic(auto, using(crate::proofs::Said::said))]
pub fn width_message<'t>(text: &'t [u8], job: &'t Job, finding: Finding<WidthFault>) -> Message<'t>
    ensures { IsWidthMessage text.now job.now finding result }
{
    let Finding { place, fault } = finding;
    let site = Site { text, job, place };
    Message::Rule(fault.rule(), name_sentence(site, site.word(), fault))
}

// The sentence on the name at the place, or on widths.
fn name_sentence<'t>(site: Site<'t>, name: Word<'t>, fault: WidthFault) -> Sentence<'t>
    ensures helps { AreNameHelps site.entry.text.now site.entry.job.now site.entry.place name.entry fault result.helps }
    ensures widths { bits_in result.terms ≡ widths_in fault }
{
    let job = site.job;
    match fault {
        WidthFault::DeclaredAgain { found, from, here } => {
            declared_again(job, name, found, from, here)
        }
        WidthFault::NotInScope { here, bound } => not_in_scope(site, name, here, bound),
        WidthFault::WrongKind {
            found,
            from,
            wanted,
            here,
        } => wrong_kind(job, name, found, from, wanted, here),
        WidthFault::ArgumentCount {
            found,
            wanted,
            function,
        } => argument_count(job, name, found, wanted, function),
        WidthFault::CalledEarly { before } => called_early(job, name, before),
        WidthFault::Target {
            result,
            target,
            kind,
            from,
        } => Sentence::new(
            "the result has {}; the {} `{}` (line {}) has {}",
            Terms::Five(
                bits(result),
                Term::Kind(Kind::of(kind)),
                Term::Word(name),
                Term::Number(line_of(declared(job, from))),
                bits(target),
            ),
        ),
        WidthFault::Enable { found, from } => Sentence::new(
            "an enable has 1 bit; the pipe `{}` (line {}) has {}",
            Terms::Three(
                Term::Word(name),
                Term::Number(line_of(declared(job, from))),
                bits(found),
            ),
        ),
        WidthFault::Address {
            found,
            wanted,
            file,
        } => address_width(site, name, found, wanted, declared(job, file)),
        fault => width_sentence(site, name, fault),
    }
}

// The sentence on the widths of expressions, with the word at the place.
fn width_sentence<'t>(site: Site<'t>, word: Word<'t>, fault: WidthFault) -> Sentence<'t>
    ensures helps { AreWidthHelps site.entry.text.now site.entry.place fault result.helps }
    ensures widths { bits_in result.terms ≡ value_widths fault }
{
    match fault {
        WidthFault::Operands {
            left,
            right,
            left_at,
            right_at,
            ..
        } => Sentence::new(
            "the operands of `{}` have different widths: {} and {}",
            Terms::Three(Term::Word(word), bits(left), bits(right)),
        )
        .with(Some(widen(
            (site.literal(left_at), left),
            (site.literal(right_at), right),
        ))),
        WidthFault::Branches {
            left,
            right,
            left_at,
            right_at,
        } => Sentence::new(
            "the branches of this choice have different widths: {} and {}",
            Terms::Two(bits(left), bits(right)),
        )
        .with(Some(widen(
            (site.literal(left_at), left),
            (site.literal(right_at), right),
        ))),
        WidthFault::Value { found, wanted, to } => value_width(site, found, wanted, to),
        WidthFault::Start { found, wanted } => Sentence::new(
            "the start value has {}; `{}` has {}",
            Terms::Three(
                bits(found),
                Term::Word(word_of(site.started())),
                Term::Bits(wanted),
            ),
        )
        .with(with_width(site.literal(site.place), wanted)),
        WidthFault::Condition { found } => Sentence::new(
            "a condition has 1 bit; this has {}",
            Terms::One(bits(found)),
        )
        .with(Some(Help::Compare)),
        fault => number_sentence(fault),
    }
}

// The sentence on numbers in the text.
#[tactic(auto, using(crate::proofs::Said::words))]
fn number_sentence<'t>(fault: WidthFault) -> Sentence<'t>
    ensures helps { AreNumberHelps fault result.helps }
    ensures widths { bits_in result.terms ≡ number_widths fault }
{
    match fault {
        WidthFault::DeclaredWidth { width } => Sentence::new(
            "a width is 1 to 64, not {}",
            Terms::One(Term::Number(width)),
        ),
        WidthFault::LiteralWidth { width } => literal_width(width),
        WidthFault::JoinedWidth => Sentence::new(
            "the parts have more than 64 bits together",
            Terms::None,
        ),
        WidthFault::Slice { hi, lo, width } => slice(hi, lo, width),
        WidthFault::Extension { from, to } => Sentence::new(
            "an extension of {} can't give {}",
            Terms::Two(bits(from), Term::Bits(to)),
        ),
        WidthFault::LiteralValue { value, width } => literal_value(value, width),
        WidthFault::DeclaredAddress { width } => Sentence::new(
            "an address has 1 to 16 bits, not {}",
            Terms::One(Term::Number(width)),
        )
        .with(Help::words(width)),
        _ => Sentence::new("the declaration of this name breaks a rule", Terms::None),
    }
}

fn bits<'t>(count: u8) -> Term<'t>
    ensures { result ≡ term.Bits count }
{
    Term::Bits(u64::from(count))
}

// A value of another width than what it goes to.
fn value_width<'t>(site: Site<'t>, found: u8, wanted: u64, to: Destination) -> Sentence<'t>
    ensures helps { result.helps ≡ (Some (fit (literal_at site.entry.text.now site.entry.place) found wanted), None) }
    ensures widths { bits_in result.terms ≡ found ∷ wanted ∷ [] }
{
    let (kind, named) = destination(site.job, to);
    let found = u64::from(found);
    other_width(kind, word_of(named), found, wanted).with(Some(fit(
        site.literal(site.place),
        found,
        wanted,
    )))
}

// A value for a name of this kind, with another width.
pub(crate) fn other_width<'t>(kind: Kind, name: Word<'t>, found: u64, wanted: u64) -> Sentence<'t>
    ensures widths { bits_in result.terms ≡ found ∷ wanted ∷ [] }
{
    Sentence::new(
        "this value has {}; the {} `{}` has {}",
        Terms::Four(
            Term::Bits(found),
            Term::Kind(kind),
            Term::Word(name),
            Term::Bits(wanted),
        ),
    )
}

// What a value goes to.
fn destination(job: &Job, to: Destination) -> (Kind, Option<&Named>) {
    match to {
        Destination::Named { kind, from } => (Kind::of(kind), declared(job, from)),
        Destination::Parameter { function, index } => {
            (Kind::Parameter, parameter(job, function, index))
        }
        Destination::Body { function } => (Kind::Function, declared(job, function)),
    }
}

// An address of another width than those of its file.
fn address_width<'t>(
    site: Site<'t>,
    name: Word<'t>,
    found: u8,
    wanted: u8,
    file: Option<&'t Named>,
) -> Sentence<'t>
    ensures helps { result.helps ≡ (Some (address_help site.entry.text.now site.entry.job.now site.entry.place name.entry found wanted), None) }
    ensures widths { bits_in result.terms ≡ found ∷ wanted ∷ [] }
{
    Sentence::new(
        "this address has {}; addresses of `{}` (line {}) have {}",
        Terms::Four(
            bits(found),
            Term::Word(word_of(file)),
            Term::Number(line_of(file)),
            bits(wanted),
        ),
    )
    .with(Some(address_help(site, name, found, wanted)))
}

// What helps there: at the address of a result, which is a pipe, another declaration.
fn address_help<'t>(site: Site<'t>, name: Word<'t>, found: u8, wanted: u8) -> Help<'t>
    ensures { result ≡ address_help site.entry.text.now site.entry.job.now site.entry.place name.entry found wanted }
{
    if site.is_address() {
        return Help::AddressPipe(name, wanted);
    }
    let literal = site.literal(site.place);
    fit(literal, u64::from(found), u64::from(wanted))
}

// Two values that are to have one width, each with the literal that it is, if it is one. A literal among them, with the width of the other, is what to
// change where its value fits.
fn widen<'t>(left: (Option<Literal>, u8), right: (Option<Literal>, u8)) -> Help<'t>
    ensures { result ≡ widen left right }
{
    let given = match with_width(right.0, u64::from(left.1)) {
        Some(help) => Some(help),
        None => with_width(left.0, u64::from(right.1)),
    };
    given.unwrap_or(Help::Extend(u64::from(left.1.max(right.1))))
}

// A value that is to have another width, with the literal that it is, if it is one.
pub(crate) fn fit<'t>(literal: Option<Literal>, found: u64, wanted: u64) -> Help<'t>
    ensures { result ≡ fit literal found wanted }
{
    match with_width(literal, wanted) {
        Some(help) => help,
        None if found < wanted => Help::Extend(wanted),
        None => Help::Cut(wanted),
    }
}

// The literal with another width, where its value fits.
fn with_width<'t>(literal: Option<Literal>, width: u64) -> Option<Help<'t>>
    ensures { result ≡ with_width literal width }
{
    let value = literal?.value;
    match (Literal { width, value }).fit() {
        Ok(_) => Some(Help::Literal(width, value)),
        Err(_) => None,
    }
}

// Bits that a value of this width doesn't have.
fn slice<'t>(hi: u64, lo: u64, width: u8) -> Sentence<'t>
    ensures helps { result.helps ≡ (None, None) }
    ensures widths { bits_in result.terms ≡ number_widths (faults.Slice hi lo width) }
{
    let (high, low) = (Term::Number(hi), Term::Number(lo));
    if hi < lo {
        return Sentence::new(
            "the high number stands first: `[{}:{}]`",
            Terms::Two(low, high),
        );
    }
    let last = Term::Number(u64::from(width.saturating_sub(1)));
    Sentence::new(
        "bits {} to {} of {}: the bits are numbered {} to 0",
        Terms::Four(high, low, bits(width), last),
    )
}

// A literal of a width that isn't one.
pub(crate) fn literal_width<'t>(width: u64) -> Sentence<'t>
    ensures widths { bits_in result.terms ≡ [] }
    ensures helps { result.helps ≡ (None, None) }
{
    Sentence::new(
        "a literal has 1 to 64 bits, not {}",
        Terms::One(Term::Number(width)),
    )
}

// A literal whose value doesn't fit in its width: the largest value is named that fits.
pub(crate) fn literal_value<'t>(value: u64, width: u64) -> Sentence<'t>
    ensures helps { result.helps ≡ (Some (help.LiteralBits value), None) }
    ensures widths { bits_in result.terms ≡ width ∷ [] }
{
    let (number, bits) = (Term::Number(value), Term::Bits(width));
    let sentence = match largest(width) {
        Some(most) => Sentence::new(
            "{} doesn't fit {}: the largest value is {}",
            Terms::Three(number, bits, Term::Number(most)),
        ),
        None => Sentence::new("{} doesn't fit {}", Terms::Two(number, bits)),
    };
    sentence.with(Some(Help::LiteralBits(value)))
}

// The largest value of a width of 1 to 63.
fn largest(width: u64) -> Option<u64> {
    if width >= 1 && width < 64 {
        Some(u64::MAX >> (64 - width))
    } else {
        None
    }
}
