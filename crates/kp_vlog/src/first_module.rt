// Where the first of two modules in one text ends.
ghost use Rattle.std.specs.Prelude.{◌≡◌, ◌≤◌, ◌-◌, ◌^◌, length, drop};
ghost use Rattle.kp_vlog.specs.Splitting.{FirstEnds};

use crate::lead::{Lead, read_lead};

/// The offset after the first module of the text from `from` on: after the first keyword `endmodule` that is a token with no invalid token before it,
/// or the length of the text if there is none. Each byte is read once. Allocates nothing.
pub fn first_module_end(text: &[u8], from: u32) -> u32
    requires within { from ≤ length text.now }
    requires fits { length text.now ≤ 2 ^ 32 - 2 }
    ensures ends { FirstEnds from (drop from text.now) result }
    ensures after { from ≤ result }
    ensures within { result ≤ length text.now }
{
    let mut start: u32 = from;
    let mut rest = &text[from as usize..];
    loop {
        match read_lead(rest) {
            Lead::Stops => return text.len() as u32,
            Lead::Closes(len) => return start + len as u32,
            Lead::Past(len) => {
                let (_past, after) = rest.split_at(len);
                start += len as u32;
                rest = after;
            }
        }
    }
}
