// Sentences with terms in them.
ghost use Rattle.std.specs.Prelude.{◌≡◌, [], Some, slice_index_or};
ghost use Rattle.std.specs.Fmt.{WritesOnOk};
ghost use Rattle.kp_view_help.specs.Texts.{term_text};
ghost use Rattle.kp_view_help.specs.Phrases.{phrase_text, printed, terms_texts};
ghost use Rattle.kp_view_help.specs.declared.phrase.Term.TheVariants as term_as;
ghost use Rattle.kp_view_help.specs.declared.phrase.Terms.TheVariants as terms_as;
ghost use Rattle.kp_view_help.specs.inner.Terms.{IsTermAt};

use crate::kind::{Kind, Wanted};
use crate::word::{Bits, Word};
use std::fmt::{self, Display};

/// A term of a sentence.
#[derive(Clone, Copy)]
pub enum Term<'t> {
    Number(u64),
    /// A number of bits: `1 bit`, `8 bits`.
    Bits(u64),
    Word(Word<'t>),
    Kind(Kind),
    Wanted(Wanted),
    Text(&'t str),
}

impl<'t> Display for Term<'t> {
    ghost output = { λ term. Some (term_text term) };

    fn fmt<W: fmt::Write>(&self, f: &mut fmt::Formatter<W>) -> fmt::Result {
        match self {
            Term::Number(number) => number.fmt(f),
            Term::Bits(count) => Bits(*count).fmt(f),
            Term::Word(word) => word.fmt(f),
            Term::Kind(kind) => kind.fmt(f),
            Term::Wanted(wanted) => wanted.fmt(f),
            Term::Text(text) => f.write_str(text),
        }
    }
}

/// The terms of a sentence, in order.
#[derive(Clone, Copy)]
pub enum Terms<'t> {
    None,
    One(Term<'t>),
    Two(Term<'t>, Term<'t>),
    Three(Term<'t>, Term<'t>, Term<'t>),
    Four(Term<'t>, Term<'t>, Term<'t>, Term<'t>),
    Five(Term<'t>, Term<'t>, Term<'t>, Term<'t>, Term<'t>),
}

impl<'t> Terms<'t> {
    // The term of this number, counted from 0.
    fn get(&self, number: usize) -> Option<&Term<'t>>
        ensures { IsTermAt self.now number result }
    {
        match (number, self) {
            (0, Terms::One(term))
            | (0, Terms::Two(term, _))
            | (0, Terms::Three(term, _, _))
            | (0, Terms::Four(term, _, _, _))
            | (0, Terms::Five(term, _, _, _, _))
            | (1, Terms::Two(_, term))
            | (1, Terms::Three(_, term, _))
            | (1, Terms::Four(_, term, _, _))
            | (1, Terms::Five(_, term, _, _, _))
            | (2, Terms::Three(_, _, term))
            | (2, Terms::Four(_, _, term, _))
            | (2, Terms::Five(_, _, term, _, _))
            | (3, Terms::Four(_, _, _, term))
            | (3, Terms::Five(_, _, _, term, _))
            | (4, Terms::Five(_, _, _, _, term)) => Some(term),
            _ => None,
        }
    }
}

/// Writes a sentence: a text with the terms in the place of each `{}` in it, in order. The text is ASCII, and has no other braces. Nothing is written for
/// a `{}` after the last term, and no term after the last `{}`.
pub fn write_phrase<W: fmt::Write>(
    f: &mut fmt::Formatter<W>,
    text: &str,
    terms: &Terms<'_>,
) -> fmt::Result
    ensures { WritesOnOk W.write_str_gives f.old result (phrase_text text.now (terms_texts terms.now)) f.new }
{
    let mut number = 0usize;
    for byte in text.as_bytes() {
        match *byte {
            b'{' => {
                write_term(f, terms, number)?;
                number = number.saturating_add(1);
            }
            b'}' => {}
            byte => f.write_char(char::from(byte))?,
        }
    }
    Ok(())
}

// Writes the term of this number, if there is one.
fn write_term<W: fmt::Write>(
    f: &mut fmt::Formatter<W>,
    terms: &Terms<'_>,
    number: usize,
) -> fmt::Result
    ensures { WritesOnOk W.write_str_gives f.old result (slice_index_or (terms_texts terms.now) number []) f.new }
{
    match terms.get(number) {
        Some(term) => term.fmt(f),
        None => Ok(()),
    }
}

/// A sentence or a line of help: a text with a `{}` for each of its terms.
#[derive(Clone, Copy)]
pub struct Line<'t> {
    pub text: &'static str,
    pub terms: Terms<'t>,
}

impl<'t> Line<'t> {
    /// A text without terms.
    #[tactic(auto, using(crate::proofs::Lines::none_printed))]
    pub fn plain(text: &'static str) -> Line<'t>
        ensures { printed result ≡ [] }
    {
        Line {
            text,
            terms: Terms::None,
        }
    }

    /// A text with this word.
    pub fn of(text: &'static str, word: Word<'t>) -> Line<'t>
        ensures text { result.text.now ≡ text.now }
        ensures terms { result.terms ≡ terms_as.One (term_as.Word word.entry) }
    {
        Line {
            text,
            terms: Terms::One(Term::Word(word)),
        }
    }
}

impl<'t> Display for Line<'t> {
    fn fmt<W: fmt::Write>(&self, f: &mut fmt::Formatter<W>) -> fmt::Result {
        write_phrase(f, self.text, &self.terms)
    }
}
