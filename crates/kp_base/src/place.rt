// Positions in a text.
ghost use Rattle.std.specs.Prelude.{◌≡◌, ◌-◌, ◌^◌, ◌+◌, ◌≤◌, ℕ, List, [], ◌∷◌, ◌++◌, length, take};
ghost use Rattle.kp_base.specs.Place.{place_after};

/// The position of a byte of a text, or of its end: line and column, both counted from 1, columns in bytes.
#[derive(Clone, Copy, Debug)]
pub struct Place {
    pub line: u32,
    pub col: u32,
}

impl Place {
    /// The position of the first byte of a text.
    pub const START: Place = Place { line: 1, col: 1 };

    /// The position after `bytes`, which start at `self`. With it, several positions of one text are found in one pass.
    pub fn after(self, bytes: &[u8]) -> Place
        requires lines { self.line + length bytes.now ≤ 2 ^ 32 - 1 }
        requires columns { self.col + length bytes.now ≤ 2 ^ 32 - 1 }
        ensures { (front : List ℕ) → self ≡ place_after front → result ≡ place_after (front ++ bytes.now) }
    {
        let mut place = self;
        for byte in bytes {
            place = place.next(*byte);
        }
        place
    }

    // The position after one byte.
    #[tactic(auto, using(crate::proofs::Places::line_after_next, crate::proofs::Places::column_after_next))]
    fn next(self, byte: u8) -> Place
        requires line { self.line + 1 ≤ 2 ^ 32 - 1 }
        requires column { self.col + 1 ≤ 2 ^ 32 - 1 }
        ensures place { (front : List ℕ) → self ≡ place_after front → result ≡ place_after (front ++ byte ∷ []) }
        ensures line { result.line ≤ self.line + 1 }
        ensures column { result.col ≤ self.col + 1 }
    {
        if byte == b'\n' {
            Place {
                line: self.line + 1,
                col: 1,
            }
        } else {
            Place {
                line: self.line,
                col: self.col + 1,
            }
        }
    }
}

/// The position of the byte at `offset`, or of the end of the text if `offset` is its length.
pub fn place_of(text: &[u8], offset: u32) -> Place
    requires within { offset ≤ length text.now }
    requires fits { length text.now ≤ 2 ^ 32 - 2 }
    ensures { result ≡ place_after (take offset text.now) }
{
    Place::START.after(&text[..offset as usize])
}
