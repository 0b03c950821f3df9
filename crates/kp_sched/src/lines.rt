// The line of a cycle in the output.
ghost use Rattle.std.specs.Prelude.{◌≡◌, ◌+◌, ◌≤◌, ◌++◌, length, take, if◌then◌else◌};
ghost use Rattle.kp_pipeline.specs.Rows.{bits};
ghost use Rattle.kp_sched.specs.Rows.{bit_of, row_seen};
ghost use Rattle.kp_sched.specs.Lines.{row_line as row_line_of, digits, stage_back};

use crate::monitor::is_set;
use itoa::Buffer;
use kp_base::Row;

/// Writes the line of a row of n stages at the front of `out`, with its line feed, and returns its length.
#[tactic(auto, unfolding(crate::specs::Lines::row_line))]
pub fn row_line(cycle: u64, n: u8, row: Row, out: &mut [u8; 80]) -> usize
    requires some { 2 ≤ n }
    requires few { n ≤ 12 }
    ensures length { result ≤ 80 }
    ensures line { take result out.new ≡ row_line_of cycle (row_seen n row) }
{
    let mut number = Buffer::new();
    let mut at = put(out, 0, b"cycle ");
    at = put(out, at, number.format(cycle).as_bytes());
    at = put(out, at, b" full ");
    at = put_digits(out, at, row.full, n);
    at = put(out, at, b" ue ");
    at = put_digits(out, at, row.ue, n);
    at = put(out, at, b" back ");
    at = put_back(out, at, row.back);
    put(out, at, b"\n")
}

// Writes a piece at an offset, and returns the offset after it.
fn put(out: &mut [u8; 80], at: usize, piece: &[u8]) -> usize
    requires { at + length piece.now ≤ 80 }
    ensures place { result ≡ at + length piece.now }
    ensures text { take result out.new ≡ take at out.old ++ piece.now }
{
    for i in 0..piece.len() {
        out[at + i] = piece[i];
    }
    at + piece.len()
}

// The same for the stage that rolls back.
fn put_back(out: &mut [u8; 80], at: usize, back: u8) -> usize
    requires { at + 3 ≤ 80 }
    ensures place { result ≤ at + 3 }
    ensures text { take result out.new ≡ take at out.old ++ stage_back back }
{
    if back == 0 {
        return put(out, at, b"-");
    }
    let mut stage = Buffer::new();
    put(out, at, stage.format(back - 1).as_bytes())
}

// The same for the bits of n stages, as digits.
fn put_digits(out: &mut [u8; 80], at: usize, word: u16, n: u8) -> usize
    requires few { n ≤ 12 }
    requires room { at + n ≤ 80 }
    ensures place { result ≡ at + n }
    ensures text { take result out.new ≡ take at out.old ++ digits (bits (bit_of word) n 0) }
{
    let mut end = at;
    for k in 0..n {
        out[end] = digit(is_set(word, k));
        end += 1;
    }
    end
}

fn digit(bit: bool) -> u8
    ensures { result ≡ (if bit then 49 else 48) }
{
    if bit { b'1' } else { b'0' }
}
