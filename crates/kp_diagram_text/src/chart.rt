// What a diagram is drawn from.
ghost use Rattle.std.specs.Prelude.{◌≡◌, ◌+◌, ◌<◌, ◌≤◌, length, map, max, string_bytes};
ghost use Rattle.std.specs.List.{list_all};
ghost use Rattle.kp_base.specs.Bytes.{Writes};
ghost use Rattle.kp_base.specs.Causes.{HasCause};
ghost use Rattle.kp_diagram_text.specs.Charts.{IsDrawable, are_names as are_names_for, is_name as is_a_name, names_of};
ghost use Rattle.kp_diagram_text.specs.Text.{column, longest, stage_name};
ghost use Rattle.kp_diagram_text.specs.{Writing.Wrote, inner.Pieces.piece_text};

use crate::pieces::{Piece, write_piece};
use crate::writer::Writing;
use itoa::Buffer;
use kp_base::{Row, Sink, SinkFault, word_length};

/// A run of a machine: its name, how many stages it has, the row and the stall word of each cycle, and the names of its stages. A stage past
/// the end of the names is named by its number.
#[derive(Clone, Copy)]
pub struct Chart<'a> {
    pub name: &'a [u8],
    pub stages: u8,
    pub rows: &'a [Row],
    pub words: &'a [u16],
    pub names: &'a [String],
}

impl<'a> Chart<'a> {
    /// The length of the longest name of a stage.
    #[tactic(auto, using(crate::proofs::Names::longest_next))]
    pub fn longest(&self) -> usize
        requires { IsDrawable self.now }
        ensures value { result ≡ longest (names_of self.now) self.now.stages }
        ensures few { result ≤ 8 }
    {
        let mut longest = 0;
        for k in 0..self.stages {
            longest = larger(longest, self.name_length(k));
        }
        longest
    }

    /// The length of the name of stage k.
    pub fn name_length(&self, k: u8) -> usize
        requires { IsDrawable self.now }
        ensures value { result ≡ length (stage_name (names_of self.now) k) }
        ensures few { result ≤ 8 }
    {
        self.bytes_of_name(k)
    }

    fn bytes_of_name(&self, k: u8) -> usize
        ensures { result ≡ length (stage_name (names_of self.now) k) }
    {
        if usize::from(k) < self.names.len() {
            self.names[usize::from(k)].as_bytes().len()
        } else {
            let mut buffer = Buffer::new();
            buffer.format(k).len()
        }
    }

    /// Writes the name of stage k as a part of a text.
    pub fn put_name<K: Sink>(&self, k: u8, writing: &mut Writing, sink: &mut K)
        requires { IsDrawable self.now }
        ensures { Wrote (K.held sink.old) (K.faults sink.old) writing.old (K.held sink.new) (K.faults sink.new) writing.new (stage_name (names_of self.now) k) }
    {
        write_piece(writing, sink, self.name(k))
    }

    /// Writes the name of stage k. A fault comes only from the sink, which then has a prefix of the name.
    #[tactic(auto, using(crate::proofs::InOrder::ended_text, crate::proofs::InOrder::ended_cause))]
    pub fn write_name<K: Sink>(&self, k: u8, sink: &mut K) -> Result<(), SinkFault>
        requires { IsDrawable self.now }
        ensures text { Writes (K.held sink.old) (K.held sink.new) (stage_name (names_of self.now) k) result }
        ensures cause { HasCause (K.faults sink.old) (K.faults sink.new) result }
    {
        let mut writing = Writing::begin();
        self.put_name(k, &mut writing, sink);
        writing.end()
    }

    // The name of stage k as a piece of a text.
    pub(crate) fn name(&self, k: u8) -> Piece<'_>
        ensures { piece_text result ≡ stage_name (names_of self.now) k }
    {
        if usize::from(k) < self.names.len() {
            Piece::Text(self.names[usize::from(k)].as_bytes())
        } else {
            Piece::Number(u64::from(k))
        }
    }

    // The width of a column of the text of cycles below `end`.
    pub(crate) fn width(&self, end: u64) -> usize
        requires { IsDrawable self.now }
        ensures value { result ≡ column (names_of self.now) self.now.stages end }
        ensures few { result ≤ 42 }
    {
        let mut buffer = Buffer::new();
        let digits = buffer.format(end).len();
        larger(self.longest() + 2, digits + 1)
    }
}

fn larger(a: usize, b: usize) -> usize
    ensures { result ≡ max a b }
{
    if a < b { b } else { a }
}

/// Whether these are names for the stages of a machine of n stages: none, or one of 1 to 8 letters, digits or `_` for each stage.
pub fn are_names(names: &[String], n: u8) -> bool
    ensures { result ≡ are_names_for (map string_bytes names.now) n }
{
    (names.is_empty() || names.len() == usize::from(n)) && are_all_names(names)
}

#[tactic(auto, using(crate::proofs::Names::one_wrong))]
fn are_all_names(names: &[String]) -> bool
    ensures { result ≡ list_all is_a_name (map string_bytes names.now) }
{
    for name in names {
        if !is_name(name.as_bytes()) {
            return false;
        }
    }
    true
}

fn is_name(name: &[u8]) -> bool
    ensures { result ≡ is_a_name name.now }
{
    0 < name.len() && name.len() <= 8 && word_length(name) == name.len()
}
