// The tokens that may stand at a place.
ghost use Rattle.std.specs.Prelude.{◌↔◌, IsTrue};
ghost use Rattle.kp_view_expected.specs.GoesOn.{Lists};

use crate::token_class::TokenClass;
use kp_expected::Class;

/// A set of classes of tokens.
#[derive(Clone, Copy)]
pub struct Expected {
    /// Which of all classes are in the set.
    pub(crate) listed: [bool; 53],
}

impl Expected {
    /// Whether a token of this class is among them.
    pub fn has(&self, class: TokenClass) -> bool
        ensures { IsTrue result ↔ Lists self.now class }
    {
        for (i, each) in TokenClass::all().iter().enumerate() {
            if class.is(*each) && self.listed[i] {
                return true;
            }
        }
        false
    }
}
