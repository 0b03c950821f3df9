// The tokens of a text.
ghost use Rattle.std.specs.Prelude.{◌≡◌, ◌+◌, ◌<◌, ◌≤◌, ◌-◌, ◌^◌, not, length, take, drop, [], ◌∷◌, IfSome, IfNone, IfOk, IfErr, Err};
ghost use Rattle.kp_base.specs.Characters.{run_length};
ghost use Rattle.kp_vcd.specs.{Words.is_layout, inner.Left.left_at};
ghost use Rattle.kp_vcd.specs.declared.refused.DumpRefused.TheVariants as refused;

use crate::refused::DumpRefused;
use kp_base::{Place, place_of, run_length};
use std::marker::Model;

/// A token, with its position in the text.
#[derive(Drop)]
pub(crate) struct Found<'a> {
    text: &'a [u8],
    start: usize,
    bytes: &'a [u8],
}

impl<'a> Model for Found<'a> {
    ghost use Rattle.std.specs.Prelude.{◌≤◌, ◌-◌, ◌^◌, length};
    ghost use Rattle.kp_vcd.specs.Words.{Spot};
    ghost use Rattle.kp_vcd.specs.inner.Left.{spot_at};

    ghost Value = { Spot };

    ghost view = { λ w. spot_at w.text.now w.start w.bytes.now };

    ghost invariant = { λ w. (w.start ≤ length w.text.now) × (length w.text.now ≤ 2 ^ 32 - 2) };
}

impl<'a> Found<'a> {
    /// The bytes of the token.
    pub fn bytes(&self) -> &'a [u8]
        ensures { result.now ≡ self.now.bytes }
    {
        self.bytes
    }

    /// The error that this token violates a rule.
    pub fn breaks(&self, rule: u8) -> DumpRefused
        ensures { result ≡ refused.Rule rule self.now.place }
    {
        DumpRefused::Rule(rule, place_of(self.text, self.start as u32))
    }
}

/// The tokens of a text that are left.
#[derive(Drop)]
pub(crate) struct Words<'a> {
    text: &'a [u8],
    at: usize,
}

impl<'a> Model for Words<'a> {
    ghost use Rattle.std.specs.Prelude.{◌≤◌, ◌-◌, ◌^◌, length};
    ghost use Rattle.kp_vcd.specs.inner.Left.{Left, left_at};

    ghost Value = { Left };

    ghost view = { λ w. left_at w.text.now w.at };

    ghost invariant = { λ w. (w.at ≤ length w.text.now) × (length w.text.now ≤ 2 ^ 32 - 2) };
}

impl<'a> Words<'a> {
    /// All tokens of a text.
    pub fn of(text: &'a [u8]) -> Words<'a>
        requires { length text.now ≤ 2 ^ 32 - 2 }
        ensures { result ≡ left_at text.now 0 }
    {
        Words { text, at: 0 }
    }

    /// Reads the next token, if one is left.
    pub fn next(&mut self) -> Option<Found<'a>>
        ensures some { IfSome result (λ w. self.old.words ≡ w ∷ self.new.words) }
        ensures none { IfNone result (self.old.words ≡ []) }
        ensures end { self.new.end ≡ self.old.end }
    {
        let start = self.at + layout_length(&self.text[self.at..]);
        let end = start + word_length(&self.text[start..]);
        self.at = end;
        if start == end {
            return None;
        }
        Some(Found {
            text: self.text,
            start,
            bytes: &self.text[start..end],
        })
    }

    /// Reads the next token; a text that ends too early violates rule 1 at its end.
    pub fn need(&mut self) -> Result<Found<'a>, DumpRefused>
        ensures word { IfOk result (λ w. self.old.words ≡ w ∷ self.new.words) }
        ensures none { IfErr result (λ e. (self.old.words ≡ []) × (e ≡ refused.Rule 1 self.old.end)) }
        ensures end { self.new.end ≡ self.old.end }
    {
        match self.next() {
            Some(word) => Ok(word),
            None => Err(self.ended()),
        }
    }

    // The error that the text ends too early.
    #[tactic(auto, unfolding(crate::specs::inner::Left::left_at))]
    fn ended(&self) -> DumpRefused
        ensures { result ≡ refused.Rule 1 self.now.end }
    {
        DumpRefused::Rule(1, place_of(self.text, self.text.len() as u32))
    }
}

fn is_layout(byte: u8) -> bool
    ensures { result ≡ is_layout byte }
{
    byte == b' ' || byte == b'\t' || byte == b'\r' || byte == b'\n'
}

// The number of layout bytes at the front.
fn layout_length(text: &[u8]) -> usize
    ensures value { result ≡ run_length is_layout text.now }
    ensures within { result ≤ length text.now }
{
    run_length(text, is_layout)
}

// The number of bytes of a token at the front.
fn word_length(text: &[u8]) -> usize
    ensures value { result ≡ run_length (λ byte. not (is_layout byte)) text.now }
    ensures within { result ≤ length text.now }
{
    run_length(text, |byte| !is_layout(byte))
}
