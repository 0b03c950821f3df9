//! The lines of the text of a timeline.
ghost use Rattle.std.specs.Prelude.{◌≡◌, ◌+◌, ◌*◌, ◌≤◌, ◌++◌, None, length, take, get_or, codes, if◌then◌else◌};
ghost use Rattle.kp_pipeline.specs.Rows.{bits};
ghost use Rattle.kp_sched.specs.Rows.{bit_of};
ghost use Rattle.kp_sched.specs.Lines.{digits};
ghost use Rattle.kp_timing.specs.Lines.{timing_line as timing_line_of, total_line as total_line_of, held_text, holds_text};

use crate::masks::is_set;
use itoa::Buffer;

/// The maximal length in bytes of a line of a timeline of at most 12 stages.
pub const LINE: usize = 400;

/// Writes the line of a cycle of n stages to the front of `out`, with its line feed, and returns its length: the instructions in the stages before
/// the cycle, the mask of the stages that waited and that of the stages that moved on. Bit k of a mask belongs to stage k.
#[tactic(auto, unfolding(crate::specs::Lines::timing_line))]
pub fn timing_line(
    cycle: u64,
    n: u8,
    hold: &[Option<u64>; 12],
    waits: u16,
    go: u16,
    out: &mut [u8; LINE],
) -> usize
    requires few { n ≤ 12 }
    ensures length { result ≤ 400 }
    ensures line { take result out.new ≡ timing_line_of cycle n (λ k. get_or hold.now k None) (bit_of waits) (bit_of go) }
{
    let mut number = Buffer::new();
    let mut at = put(out, 0, b"cycle ");
    at = put(out, at, number.format(cycle).as_bytes());
    at = put(out, at, b" at");
    at = put_holds(out, at, hold, n);
    at = put(out, at, b" wait ");
    at = put_digits(out, at, waits, n);
    at = put(out, at, b" go ");
    at = put_digits(out, at, go, n);
    put(out, at, b"\n")
}

/// Writes the last line to the front of `out`, with its line feed, and returns its length: how many instructions were retired, and in how many cycles
/// stage 0 didn't move.
#[tactic(auto, unfolding(crate::specs::Lines::total_line))]
pub fn total_line(retired: u64, waited: u64, out: &mut [u8; LINE]) -> usize
    ensures length { result ≤ 400 }
    ensures line { take result out.new ≡ total_line_of retired waited }
{
    let mut number = Buffer::new();
    let mut at = put(out, 0, b"retired ");
    at = put(out, at, number.format(retired).as_bytes());
    at = put(out, at, b" waits ");
    let mut other = Buffer::new();
    at = put(out, at, other.format(waited).as_bytes());
    put(out, at, b"\n")
}

// Writes a piece at an offset, and returns the offset after it.
fn put(out: &mut [u8; LINE], at: usize, piece: &[u8]) -> usize
    requires { at + length piece.now ≤ 400 }
    ensures place { result ≡ at + length piece.now }
    ensures text { take result out.new ≡ take at out.old ++ piece.now }
{
    for i in 0..piece.len() {
        out[at + i] = piece[i];
    }
    at + piece.len()
}

// The same for the instructions in the stages.
fn put_holds(out: &mut [u8; LINE], at: usize, hold: &[Option<u64>; 12], n: u8) -> usize
    requires few { n ≤ 12 }
    requires room { at + 21 * n ≤ 400 }
    ensures place { result ≤ at + 21 * n }
    ensures text { take result out.new ≡ take at out.old ++ holds_text (λ k. get_or hold.now k None) n 0 }
{
    let mut end = at;
    for k in 0..n {
        end = put_held(out, end, hold[usize::from(k)]);
    }
    end
}

fn put_held(out: &mut [u8; LINE], at: usize, held: Option<u64>) -> usize
    requires room { at + 21 ≤ 400 }
    ensures place { result ≤ at + 21 }
    ensures text { take result out.new ≡ take at out.old ++ (codes " " ++ held_text held) }
{
    let end = put(out, at, b" ");
    match held {
        Some(i) => {
            let mut number = Buffer::new();
            put(out, end, number.format(i).as_bytes())
        }
        None => put(out, end, b"-"),
    }
}

// The same for the bits of n stages, as digits.
fn put_digits(out: &mut [u8; LINE], at: usize, word: u16, n: u8) -> usize
    requires few { n ≤ 12 }
    requires room { at + n ≤ 400 }
    ensures place { result ≡ at + n }
    ensures text { take result out.new ≡ take at out.old ++ digits (bits (bit_of word) n 0) }
{
    let mut end = at;
    for k in 0..n {
        out[end] = digit(is_set(word, usize::from(k)));
        end += 1;
    }
    end
}

fn digit(bit: bool) -> u8
    ensures { result ≡ (if bit then 49 else 48) }
{
    if bit { b'1' } else { b'0' }
}
