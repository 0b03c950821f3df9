// What helps at a token that can't be there.
ghost use Rattle.std.specs.Prelude.{◌≡◌, ◌||◌};
ghost use Rattle.kp_view_help.specs.Helps.{begins_section, byte_help, declares, Describes, goes_on, HelpsAt, keyword_help, mark_help, number_help, reduction, token_help, value_help};

use crate::found::FoundToken;
use crate::help::Help;
use crate::word::Word;
use kp_lex::{Keyword, Mark};
use kp_view_expected::{Expected, TokenClass};

/// What is before a place, of that on which help depends.
#[derive(Clone, Copy)]
pub enum Before {
    /// The width of a value at the place, where it is declared right before.
    Width(u64),
    /// A value, and the opening bracket of a slice of it.
    Sliced,
    /// `&`
    And,
    /// `|`
    Or,
    Other,
}

/// Which tokens may be at a place, of those on which help depends.
#[derive(Clone, Copy)]
pub(crate) struct Allowed {
    /// `~`, with which a value begins.
    value: bool,
    /// `+`, which goes on with a value.
    operator: bool,
    literal: bool,
    number: bool,
    name: bool,
    semicolon: bool,
    /// `]`
    bracket: bool,
    /// `}`
    brace: bool,
    at: bool,
    /// `let`, with which a statement begins.
    statement: bool,
    stage: bool,
    end: bool,
}

impl Allowed {
    fn of(expected: Expected) -> Allowed
        ensures { Describes expected result }
    {
        Allowed {
            value: expected.has(TokenClass::Mark(Mark::Tilde)),
            operator: expected.has(TokenClass::Mark(Mark::Plus)),
            literal: expected.has(TokenClass::Literal),
            number: expected.has(TokenClass::Number),
            name: expected.has(TokenClass::Name),
            semicolon: expected.has(TokenClass::Mark(Mark::Semicolon)),
            bracket: expected.has(TokenClass::Mark(Mark::CloseBracket)),
            brace: expected.has(TokenClass::Mark(Mark::CloseBrace)),
            at: expected.has(TokenClass::Keyword(Keyword::At)),
            statement: expected.has(TokenClass::Keyword(Keyword::Let)),
            stage: expected.has(TokenClass::Keyword(Keyword::Stage)),
            end: expected.has(TokenClass::Keyword(Keyword::End)),
        }
    }

    fn help<'t>(self, found: FoundToken<'t>, before: Before) -> Option<Help<'t>>
        ensures { result ≡ token_help self before found.entry }
    {
        match found {
            FoundToken::Number(word) if self.literal => Some(self.number_help(word, before)),
            FoundToken::Mark(word) => self.mark_help(word, before),
            FoundToken::Keyword(word) => self.keyword_help(word),
            FoundToken::Name(word) if self.number => Some(match before {
                Before::Sliced => Help::NameAsNumber(word),
                _ => Help::Digits,
            }),
            FoundToken::Name(word) if self.statement => Some(Help::GiveValue(word)),
            _ => None,
        }
    }

    fn number_help<'t>(self, word: Word<'t>, before: Before) -> Help<'t>
        ensures { result ≡ number_help self.value before word.entry }
    {
        match before {
            Before::Width(width) => Help::NumberAsValue(word, width),
            _ if self.value => Help::NumberInValue(word),
            _ => Help::NumberAsWord(word),
        }
    }

    fn mark_help<'t>(self, word: Word<'t>, before: Before) -> Option<Help<'t>>
        ensures { result ≡ mark_help self word.entry before }
    {
        let mark = word.0;
        if self.value {
            value_help(mark, before)
        } else if self.operator {
            if mark == b"=".as_slice() {
                Some(Help::Equal)
            } else {
                None
            }
        } else if self.bracket && mark == b"[".as_slice() {
            Some(Help::AddressInPipe)
        } else if self.at && goes_on(mark) {
            Some(Help::EnableInPipe)
        } else if self.name && (mark == b"~".as_slice() || mark == b"(".as_slice()) {
            Some(Help::NameAlone)
        } else {
            None
        }
    }

    fn keyword_help<'t>(self, word: Word<'t>) -> Option<Help<'t>>
        ensures { result ≡ keyword_help self word.entry }
    {
        let keyword = word.0;
        if self.semicolon && keyword == b"when".as_slice() {
            Some(if self.operator {
                Help::WhenOfSet
            } else {
                Help::WhenBeforeAt
            })
        } else if (self.statement || self.end) && declares(keyword) {
            Some(Help::DeclaredFirst)
        } else if (self.stage || self.end) && begins_section(keyword) {
            Some(Help::SectionsLast)
        } else if self.name && !self.brace {
            Some(Help::KeywordAsName(word))
        } else {
            None
        }
    }
}

// In the place of a value.
fn value_help<'t>(mark: &[u8], before: Before) -> Option<Help<'t>>
    ensures { result ≡ value_help mark.now before }
{
    if mark == b"=".as_slice() {
        Some(Help::NotGreater)
    } else if mark == b"&".as_slice() {
        Some(reduction(matches!(before, Before::And)))
    } else if mark == b"|".as_slice() {
        Some(reduction(matches!(before, Before::Or)))
    } else {
        None
    }
}

// At `&` or `|`, after the same mark or not.
fn reduction<'t>(doubled: bool) -> Help<'t>
    ensures { result ≡ reduction doubled }
{
    if doubled {
        Help::OneMark
    } else {
        Help::Reduction
    }
}

// Whether the mark goes on with a condition.
fn goes_on(mark: &[u8]) -> bool
    ensures { result ≡ goes_on mark.now }
{
    mark == b"==".as_slice()
        || mark == b"<".as_slice()
        || mark == b"&".as_slice()
        || mark == b"|".as_slice()
        || mark == b"^".as_slice()
        || mark == b"[".as_slice()
}

fn declares(word: &[u8]) -> bool
    ensures { result ≡ declares word.now }
{
    word == b"reg".as_slice()
        || word == b"file".as_slice()
        || word == b"pipe".as_slice()
        || word == b"result".as_slice()
        || word == b"hint".as_slice()
        || word == b"sample".as_slice()
        || word == b"fn".as_slice()
}

fn begins_section(word: &[u8]) -> bool
    ensures { result ≡ begins_section word.now }
{
    word == b"image".as_slice() || word == b"stalls".as_slice() || word == b"inputs".as_slice()
}

impl<'t> Help<'t> {
    /// What helps at a byte that no token begins with.
    pub fn at_byte(byte: u8) -> Option<Help<'t>>
        ensures { result ≡ byte_help byte }
    {
        match byte {
            b'!' => Some(Help::NotEqual),
            b'>' => Some(Help::Greater),
            b'#' | b'/' => Some(Help::Comment),
            b'%' => Some(Help::Remainder),
            b'$' => Some(Help::Dollar),
            b'\'' => Some(Help::NoWidth),
            226 => Some(Help::Typographic),
            239 => Some(Help::ByteOrderMark),
            _ => None,
        }
    }

    /// What helps at a token that can't be there.
    #[tactic(auto, using(crate::proofs::Allows::at_token))]
    pub fn at_token(found: FoundToken<'t>, expected: Expected, before: Before) -> Option<Help<'t>>
        ensures { HelpsAt found.entry expected before result }
    {
        Allowed::of(expected).help(found, before)
    }
}
