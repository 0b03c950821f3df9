// Names and lines of the text that a message is of.
ghost use Rattle.std.specs.Prelude.{◌≡◌, ◌≤◌, length, take};
ghost use Rattle.kp_base.specs.{Characters.run_length, Place.line_after};
ghost use Rattle.kp_net.specs.Names.{is_in_identifier};
ghost use Rattle.kp_view_verilog_faults.specs.Sources.{name_in};

use kp_base::{is_word, run_length};
use kp_view_help::Word;

/// The text that a message is of.
#[derive(Clone, Copy)]
pub struct Source<'t>(pub &'t [u8]);

impl<'t> Source<'t> {
    /// The name at an offset.
    pub fn name_at(self, at: usize) -> Word<'t>
        ensures { result.0.now ≡ name_in self.entry.0.now at }
    {
        let (_before, rest) = self.0.split_at(at.min(self.0.len()));
        let (name, _after) = rest.split_at(name_length(rest));
        Word(name)
    }

    /// The number of the line with the byte at an offset.
    pub(crate) fn line_at(self, at: u32) -> u64
        ensures { result ≡ line_after (take at self.entry.0.now) }
    {
        let (before, _rest) = self.0.split_at((at as usize).min(self.0.len()));
        let mut line = 1;
        for byte in before {
            if *byte == b'\n' {
                line += 1;
            }
        }
        line
    }
}

/// The length of the run of letters, digits, `_` and `$` at the head of a text.
fn name_length(text: &[u8]) -> usize
    ensures value { result ≡ run_length is_in_identifier text.now }
    ensures within { result ≤ length text.now }
{
    run_length(text, is_in_identifier)
}

/// Whether a byte is a letter, a digit, `_` or `$`.
pub fn is_in_identifier(byte: u8) -> bool
    ensures { result ≡ is_in_identifier byte }
{
    is_word(byte) || byte == b'$'
}
