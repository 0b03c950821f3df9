// What helps where a rule is broken.
ghost use Rattle.kp_view_help.specs.Helps.{IsHelpForWords};

use crate::phrase::{Term, Terms, write_phrase};
use crate::phrases;
use crate::word::Word;
use std::fmt;

/// A line of help.
#[derive(Clone, Copy)]
pub enum Help<'t> {
    /// `!` of other languages.
    NotEqual,
    /// `>` and `>=`.
    Greater,
    /// `<=`.
    NotGreater,
    /// `=` for `==`.
    Equal,
    /// `&&` and `||`.
    OneMark,
    /// `&` or `|` in front of a value.
    Reduction,
    /// `#` and `/`.
    Comment,
    /// `%`
    Remainder,
    /// `$`
    Dollar,
    /// `'`
    NoWidth,
    Typographic,
    ByteOrderMark,
    /// A number in the place of a literal, and the width that is declared for it.
    NumberAsValue(Word<'t>, u64),
    /// The same in an expression.
    NumberInValue(Word<'t>),
    /// The same where a name before it has the width.
    NumberAsWord(Word<'t>),
    /// A name in the place of a number of a slice.
    NameAsNumber(Word<'t>),
    /// In the place of another number.
    Digits,
    KeywordAsName(Word<'t>),
    /// A name in the place of a statement.
    GiveValue(Word<'t>),
    /// An expression in the place of a name.
    NameAlone,
    /// `]` is wanted in a result's address.
    AddressInPipe,
    /// An expression after `when` of a result.
    EnableInPipe,
    /// `when` comes after `at`.
    WhenBeforeAt,
    /// `when` of a statement that has none.
    WhenOfSet,
    /// A declaration after the stages have begun.
    DeclaredFirst,
    SectionsLast,
    PipeIsPut,
    MoveUp,
    OwnDefinition,
    /// The declared name that differs from a name in the case of letters alone.
    OtherCase(Word<'t>),
    KnownThere(usize),
    /// The pipe that holds the value.
    HeldBy(Word<'t>),
    ThroughPipe {
        name: Word<'t>,
        stage: usize,
        width: Option<u8>,
    },
    ReadRegister(Word<'t>),
    ReadFile(Word<'t>),
    WritePut(Word<'t>),
    WriteSet(Word<'t>),
    WriteAim(Word<'t>),
    SetItsResult(Word<'t>),
    WithAddress(Word<'t>),
    WithNumber(Word<'t>),
    Literal(u64, u64),
    LiteralBits(u64),
    Extend(u64),
    Cut(u64),
    /// The pipe of a result's address, and the width that the address has.
    AddressPipe(Word<'t>, u8),
    Compare,
    AddressWords {
        words: u64,
        bits: u32,
    },
    EmptyStage(usize),
    PutIt(Word<'t>),
    OnePut,
    SameStage(usize),
    ReadEarlier,
    PutBefore,
    WriteLater {
        line: u32,
        stage: usize,
        write: u64,
    },
    OneSet(Word<'t>),
    OneAim(Word<'t>),
    OneResult(Word<'t>),
    NotWritten,
    NotSampled,
    NamePart,
    SamplePipe,
    /// Of a warning: the lines in which a result is set.
    SetOnlyIn {
        name: Word<'t>,
        lines: [Option<u32>; 4],
    },
    EnableIt {
        target: Word<'t>,
        stage: u64,
        file: bool,
    },
    FirstCounts,
}

impl<'t> Help<'t> {
    /// What helps where the number of words is in the place of the width of their addresses.
    pub fn words(value: u64) -> Option<Help<'t>>
        ensures { IsHelpForWords value result }
    {
        for bits in 5..17 {
            if value == 1u64 << bits {
                return Some(Help::AddressWords { words: value, bits });
            }
        }
        None
    }
}

impl<'t> fmt::Display for Help<'t> {
    fn fmt<W: fmt::Write>(&self, f: &mut fmt::Formatter<W>) -> fmt::Result {
        phrases!(f, self, {
            Help::NotEqual => "for `a != b` write `~(a == b)`, and for `!x` of 1 bit `~x`",
            Help::Greater => "for `a > b` write `b < a`, and for `a >= b` write `~(a < b)`",
            Help::NotGreater => "the comparisons are `==` and `<`: for `a <= b` write `~(b < a)`",
            Help::Equal => "values are compared by `==`",
            Help::OneMark => "a condition has 1 bit: for `a && b` write `a & b`, and for `a || b` write `a | b`",
            Help::Reduction => "for `|a` of 8 bits write `~(a == 8'h00)`, and for `&a` write `a == 8'hff`",
            Help::Comment => "a comment begins with `//` and ends with its line",
            Help::Remainder => "there is no division: for `a % 8` write the low bits, `a[2:0]`",
            Help::Dollar => "a name has letters, digits and `_`; a signed number is widened by `sext(a, 16)`",
            Help::NoWidth => "a literal has its width before the `'`: `8'h01`",
            Help::Typographic => "a typographic quote, dash or arrow begins with it: write `'`, `-` or `->`",
            Help::ByteOrderMark => "a byte order mark at the beginning of a file begins with it: save the file as UTF-8 without one",
            Help::NumberAsValue(word, width) => "a value is written with its width: for {}, `{}'d{}`" [Term::Bits(*width), Term::Number(*width), Term::Word(*word)],
            Help::NumberInValue(word) => "a value is written with its width: `w'd{}` for w bits; n copies of a bit b are `sext(b, n)`" [Term::Word(*word)],
            Help::NumberAsWord(word) => "a value is written with its width: `w'd{}`, where w is the declared width" [Term::Word(*word)],
            Help::NameAsNumber(name) => "a number is written in digits; bit {} of a value a is `(a >> {})[0]`, and a word of a file M is read by a statement first: `read x = M[{}];`" [Term::Word(*name), Term::Word(*name), Term::Word(*name)],
            Help::Digits => "a number is written in digits",
            Help::KeywordAsName(word) => "`{}` is a word of the language, and no name: choose another" [Term::Word(*word)],
            Help::GiveValue(name) => "a new name gets its value by `let {} = ..;`, a pipe by `put {} = ..;`, and a result by `set {} = ..;`" [Term::Word(*name), Term::Word(*name), Term::Word(*name)],
            Help::NameAlone => "only a name can be here: the enable of a result is a pipe of 1 bit that an earlier stage `put`s, and `let` names the value of an expression",
            Help::AddressInPipe => "a result is written at the address in a pipe: declare `pipe AD : w;`, `put` it in an earlier stage, and write `[AD]`",
            Help::EnableInPipe => "an enable is the name of a pipe: declare `pipe E : 1;`, `put` the condition into it in an earlier stage, and write `when E`",
            Help::WhenBeforeAt => "`when` stands before `at`: `-> X when W at 3;`",
            Help::WhenOfSet => "only `set` and `read` have a condition: elsewhere choose between two values, `c ? a : b`",
            Help::DeclaredFirst => "declarations come before `stage 0`",
            Help::SectionsLast => "`image`, `stalls` and `inputs` come after the last stage, in this order",
            Help::PipeIsPut => "`read` and `let` name a new value; a pipe gets its value by `put`",
            Help::MoveUp => "a name is declared before it is used: move the declaration up",
            Help::OwnDefinition => "a definition can't use the name that it defines: another name is meant, or its declaration is missing",
            Help::OtherCase(name) => "`{}` is declared: capital and small letters differ" [Term::Word(*name)],
            Help::HeldBy(pipe) => "the pipe `{}` holds it: use `{}`" [Term::Word(*pipe), Term::Word(*pipe)],
            Help::KnownThere(stage) => "a name that `read` or `let` defines is known only in its own stage, here stage {}" [Term::Number(*stage as u64)],
            Help::ThroughPipe { name, stage, width: Some(width) } => "a later stage sees it through a pipe: declare `pipe P : {};`, write `put P = {};` in stage {}, and use `P`" [Term::Number(u64::from(*width)), Term::Word(*name), Term::Number(*stage as u64)],
            Help::ThroughPipe { name, stage, width: None } => "a later stage sees it through a pipe: declare `pipe P : w;`, write `put P = {};` in stage {}, and use `P`" [Term::Word(*name), Term::Number(*stage as u64)],
            Help::ReadRegister(name) => "a register is read by a statement first: `read x = {};`" [Term::Word(*name)],
            Help::ReadFile(name) => "a file is read by a statement first: `read x = {}[..];`" [Term::Word(*name)],
            Help::WritePut(name) => "a pipe gets its value by `put {} = ..;`" [Term::Word(*name)],
            Help::WriteSet(name) => "a result gets its value by `set {} = ..;`" [Term::Word(*name)],
            Help::WriteAim(name) => "a hint gets its value by `aim {} = ..;`" [Term::Word(*name)],
            Help::SetItsResult(name) => "a register changes by its result: `result C : w -> {} at k;` and `set C = ..;`" [Term::Word(*name)],
            Help::WithAddress(name) => "write `{}[..]`" [Term::Word(*name)],
            Help::WithNumber(name) => "write `{}[0] = ..;` for the words from address 0 on" [Term::Word(*name)],
            Help::Literal(width, value) => "give the literal {} bits: `{}'d{}`" [Term::Number(*width), Term::Number(*width), Term::Number(*value)],
            Help::LiteralBits(value) => "it needs {} bits: `{}'d{}`" [Term::Number(u64::from(bits_of(*value))), Term::Number(u64::from(bits_of(*value))), Term::Number(*value)],
            Help::Extend(width) => "widen it by `zext(.., {})`, or `sext(.., {})` for a signed number" [Term::Number(*width), Term::Number(*width)],
            Help::Cut(width) => "cut it by a slice: `(..)[{}:0]`" [Term::Number(width.saturating_sub(1))],
            Help::AddressPipe(pipe, width) => "an address is put into a pipe of that width: declare `pipe {} : {};`, or another pipe" [Term::Word(*pipe), Term::Number(u64::from(*width))],
            Help::Compare => "compare it, as `x == 8'h00`, or take a bit, as `x[0]`",
            Help::AddressWords { words, bits } => "the number is the width of an address: for {} words write `[{}]`" [Term::Number(*words), Term::Number(u64::from(*bits))],
            Help::EmptyStage(stage) => "an empty stage is written too: `stage {} {}`" [Term::Number(*stage as u64), Term::Text("{ }")],
            Help::PutIt(name) => "write `put {} = ..;` in the stage that computes it, or remove the declaration" [Term::Word(*name)],
            Help::OnePut => "a pipe has one value for an instruction, given in one stage; for a value that a later stage changes take a second pipe",
            Help::SameStage(stage) => "in stage {} use the value itself" [Term::Number(*stage as u64)],
            Help::ReadEarlier => "read it earlier and pass it on in a pipe, or write its result in a later stage",
            Help::PutBefore => "the address and the enable of a result are put at least one stage before `at`",
            Help::WriteLater { line, stage, write } => "write `at {}` in line {}, or set it by stage {}" [Term::Number(*stage as u64), Term::Number(u64::from(*line)), Term::Number(*write)],
            Help::OneSet(name) => "write one `set` with a choice: `set {} = c ? a : b;`, and where both have a condition `set {} = c ? a : b when c | d;`" [Term::Word(*name), Term::Word(*name)],
            Help::OneAim(name) => "write one `aim` with a choice: `aim {} = c ? a : b;`" [Term::Word(*name)],
            Help::OneResult(name) => "a register or a file has one result: choose between the values, `set {} = c ? a : b;`, or set it in several stages by `when`" [Term::Word(*name)],
            Help::NotWritten => "an instruction that may be squashed must not have written: choose a later stage",
            Help::NotSampled => "an instruction that may be squashed must not have taken a sample: choose a later stage",
            Help::NamePart => "name a part of it by `let`",
            Help::SamplePipe => "pass it on in a pipe, or change its `at`",
            Help::SetOnlyIn { name, .. } => "`{}` is set only where" [Term::Word(*name)],
            Help::EnableIt { target, stage, file: false } => "to leave `{}` as it is, give the result an enable: declare `pipe E : 1;` before it, `put` it in an earlier stage, and write `-> {} when E at {};`" [Term::Word(*target), Term::Word(*target), Term::Number(*stage)],
            Help::EnableIt { target, stage, file: true } => "to leave `{}` as it is, give the result an enable: declare `pipe E : 1;` before it, `put` it in an earlier stage, and write `-> {}[A] when E at {};`" [Term::Word(*target), Term::Word(*target), Term::Number(*stage)],
            Help::FirstCounts => "the first `set` that takes place counts: give that one a condition, `set .. when ..;`",
        })?;
        match self {
            Help::SetOnlyIn { lines, .. } => Lines(lines).fmt(f),
            _ => Ok(()),
        }
    }
}

// The number of bits that a number needs.
fn bits_of(value: u64) -> u32 {
    64 - value.leading_zeros()
}

// Some of these lines: ` line 3 or line 5 says so`.
#[derive(Clone, Copy)]
struct Lines<'h>(&'h [Option<u32>; 4]);

impl<'h> fmt::Display for Lines<'h> {
    fn fmt<W: fmt::Write>(&self, f: &mut fmt::Formatter<W>) -> fmt::Result {
        let mut before = " line ";
        for line in self.0 {
            if let Some(line) = line {
                write!(f, "{before}{line}")?;
                before = " or line ";
            }
        }
        f.write_str(" says so")
    }
}
