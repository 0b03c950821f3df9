// The pieces of a text.
ghost use Rattle.std.specs.Prelude.{◌≡◌, ◌≤◌, length, map, flat_map};
ghost use Rattle.kp_base.specs.Texts.{filled, hole_in, in_column, is_text as is_text_byte, piece_text, spaces};
ghost use Rattle.kp_base.specs.Writer.{Wrote};

use crate::{Sink, Writer, run_length};
use itoa::Buffer;

/// A piece of a text.
#[derive(Clone, Copy)]
pub enum Piece<'a> {
    Text(&'a [u8]),
    /// A number in decimal digits.
    Number(u64),
    Spaces(usize),
    /// A number at the right end of a column of this width.
    Column(usize, u64),
}

impl<'a, K: Sink> Writer<'a, K> {
    /// Appends the pieces in order.
    #[tactic(auto, using(crate::proofs::Writing::each_all, crate::proofs::Writing::wrote_none))]
    pub fn pieces(&mut self, pieces: &[Piece<'_>])
        ensures { Wrote K.held K.faults self.old self.new (flat_map piece_text pieces.now) }
    {
        for piece in pieces {
            self.piece(*piece);
        }
    }

    #[tactic(auto, using(crate::proofs::Writing::up_none))]
    /// Appends a text with these pieces in the places of its bytes `@`.
    pub fn fill(&mut self, text: &[u8], pieces: &[Piece<'_>])
        ensures { Wrote K.held K.faults self.old self.new (filled text.now (map piece_text pieces.now)) }
    {
        let mut at = 0;
        for piece in pieces {
            let rest = &text[at..];
            let before = hole(rest);
            self.put(&rest[..before]);
            self.piece(*piece);
            at = (at + before + 1).min(text.len());
        }
        self.put(&text[at..])
    }

    /// Appends a piece.
    pub fn piece(&mut self, piece: Piece<'_>)
        ensures { Wrote K.held K.faults self.old self.new (piece_text piece.entry) }
    {
        match piece {
            Piece::Text(text) => self.put(text),
            Piece::Number(number) => self.number(number),
            Piece::Spaces(count) => self.spaces(count),
            Piece::Column(width, number) => {
                let mut digits = Buffer::new();
                self.column(width, digits.format(number).as_bytes())
            }
        }
    }

    #[tactic(auto, using(crate::proofs::Writing::up_none))]
    /// Appends this many spaces.
    pub fn spaces(&mut self, count: usize)
        ensures { Wrote K.held K.faults self.old self.new (spaces count) }
    {
        let blank = [b' '; 64];
        let mut left = count;
        while left > 0 {
            let here = left.min(64);
            self.put(&blank[..here]);
            left -= here;
        }
    }

    /// Appends a text at the right end of a column of this width.
    pub fn column(&mut self, width: usize, text: &[u8])
        ensures { Wrote K.held K.faults self.old self.new (in_column width text.now) }
    {
        self.spaces(width.saturating_sub(text.len()));
        self.put(text)
    }
}

// The number of bytes before the first hole.
fn hole(text: &[u8]) -> usize
    ensures value { result ≡ hole_in text.now }
    ensures within { result ≤ length text.now }
{
    run_length(text, is_text)
}

fn is_text(byte: u8) -> bool
    ensures { result ≡ is_text_byte byte }
{
    byte != b'@'
}
