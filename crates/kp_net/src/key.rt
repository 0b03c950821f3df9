// Names as the keys of sets and tables.
ghost use Rattle.std.specs.Prelude.{◌≡◌, nat_eq};
ghost use Rattle.std.proofs.Common.{rules};
ghost use Rattle.std.specs.Cmp.Lexicographic.{pointwise};
ghost use Rattle.std.specs.Cmp.Rules.{comparing, hashing};
ghost use Rattle.std.specs.Hash as fed;

use crate::Label;
use std::hash::{Hash, Hasher};
use std::marker::Model;

/// A name as a key: its bytes, which are borrowed.
///
/// Keys are equal if their bytes are, and contracts see a key as the list of them.
#[derive(Drop)]
pub struct Key<'m> {
    bytes: &'m [u8],
}

impl<'m> Model for Key<'m> {
    ghost use Rattle.std.specs.Prelude.{ℕ, List};

    ghost Value = { List ℕ };

    ghost view = { λ k. k.bytes.now };
}

impl<'m> Key<'m> {
    /// The key of this name.
    pub fn new(name: &'m Label) -> Key<'m>
        ensures { result ≡ name.now }
    {
        Key {
            bytes: name.bytes(),
        }
    }
}

impl<'m> PartialEq for Key<'m> {
    ghost eq = { pointwise nat_eq };

    ghost laws = { Prim.search (comparing, rules) };

    fn eq(&self, other: &Key<'m>) -> bool {
        self.bytes == other.bytes
    }
}

impl<'m> Eq for Key<'m> {
    ghost laws = { Prim.search (comparing, rules) };
}

impl<'m> Hash for Key<'m> {
    ghost hash_input = { fed.slice fed.u8 };

    ghost respects_eq = { Prim.search (hashing, rules) };

    fn hash<H: Hasher>(&self, state: &mut H) {
        self.bytes.hash(state);
    }
}
