// Sentences on violated rules.
ghost use Rattle.std.specs.Prelude.{◌≡◌, None, Some};
ghost use Rattle.kp_view_help.specs.Phrases.{phrase_text, terms_texts};
ghost use Rattle.kp_view_message.specs.inner.Places.{count, places};

use kp_view_help::{Help, Terms, write_phrase};
use std::fmt::{self, Display};

/// A sentence: a text with a `{}` for each of its terms; and what helps, in up to two lines.
#[derive(Clone, Copy)]
pub struct Sentence<'t> {
    pub(crate) text: &'static str,
    pub(crate) terms: Terms<'t>,
    pub(crate) helps: (Option<Help<'t>>, Option<Help<'t>>),
}

impl<'t> Sentence<'t> {
    /// A sentence without help.
    pub(crate) fn new(text: &'static str, terms: Terms<'t>) -> Sentence<'t>
        requires { places text.now ≡ count terms }
        ensures text { result.text.now ≡ text.now }
        ensures terms { result.terms ≡ terms.entry }
        ensures helps { result.helps ≡ (None, None) }
    {
        Sentence {
            text,
            terms,
            helps: (None, None),
        }
    }

    /// The sentence with what helps, if anything is known to.
    pub(crate) fn with(self, help: Option<Help<'t>>) -> Sentence<'t>
        ensures text { result.text.now ≡ self.entry.text.now }
        ensures terms { result.terms ≡ self.entry.terms }
        ensures helps { result.helps ≡ (help.entry, None) }
    {
        Sentence {
            helps: (help, None),
            ..self
        }
    }
}

impl<'t> Display for Sentence<'t> {
    ghost output = { λ s. Some (phrase_text s.text.now (terms_texts s.terms)) };

    fn fmt<W: fmt::Write>(&self, f: &mut fmt::Formatter<W>) -> fmt::Result {
        write_phrase(f, self.text, &self.terms)
    }
}
