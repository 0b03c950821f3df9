// What the front of a text means for the end of its first module.
ghost use Rattle.std.specs.Prelude.{◌≡◌};
ghost use Rattle.kp_vlog.specs.Tokens.{front};
ghost use Rattle.kp_vlog.specs.inner.Leads.{is_closing, lead_of};

use crate::front::{Front, read_front};
use crate::token::{Keyword, VKind};

/// What the front of a text means for the end of its first module.
#[derive(Clone, Copy)]
pub enum Lead {
    /// The end of the text, or an invalid token: the module ends with the text.
    Stops,
    /// The keyword `endmodule`, of this length.
    Closes(usize),
    /// Layout, a comment or another token, of this length.
    Past(usize),
}

/// What the text starts with.
pub fn read_lead(text: &[u8]) -> Lead
    ensures { result ≡ lead_of (front text.now) }
{
    match read_front(text) {
        Front::End | Front::Broken(_) => Lead::Stops,
        Front::Skip(len) => Lead::Past(len),
        Front::Token(kind, len) => {
            if is_closing(kind) {
                Lead::Closes(len)
            } else {
                Lead::Past(len)
            }
        }
    }
}

// Whether it is the keyword `endmodule`.
fn is_closing(kind: VKind) -> bool
    ensures { result ≡ is_closing kind }
{
    matches!(kind, VKind::Keyword(Keyword::Endmodule))
}
