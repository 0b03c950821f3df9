// The words of `same`.
ghost use Rattle.std.specs.Prelude.{◌≡◌, map, string_bytes, option_map};
ghost use Rattle.kp_command_line.specs.Words.{file_seen};
ghost use Rattle.kp_view_words.specs.{Asked.pair_seen, Words.pair_of, Words.pair_with};

use kp_command_line::Input;

/// The two inputs that `same` compares, of which one may be standard input.
#[derive(Clone, Copy)]
pub struct Pair<'w> {
    pub first: Input<'w>,
    pub second: Input<'w>,
}

impl<'w> Pair<'w> {
    /// The inputs of `same FILE FILE`. `None` for other words.
    pub fn of(words: &'w [String]) -> Option<Self>
        ensures { option_map pair_seen result ≡ pair_of (map string_bytes words.now) }
    {
        match words {
            [word, first, second] => {
                if word.as_str() == "same" {
                    Pair::with(Input::named(first)?, Input::named(second)?)
                } else {
                    None
                }
            }
            _ => None,
        }
    }

    // Two inputs, unless both are standard input.
    fn with(first: Input<'w>, second: Input<'w>) -> Option<Self>
        ensures { option_map pair_seen result ≡ pair_with (file_seen first.entry) (file_seen second.entry) }
    {
        match first.file {
            Some(_) => Some(Pair { first, second }),
            None => match second.file {
                Some(_) => Some(Pair { first, second }),
                None => None,
            },
        }
    }
}
