// A word in the place of a stage's name that can't be one.
ghost use Rattle.std.specs.Prelude.{◌≡◌, map, string_bytes, option_map, not};
ghost use Rattle.std.specs.{List.find, Option.option_copied};
ghost use Rattle.kp_view_words.specs.Words.{is_name, takes_names, wrong_name};

use crate::runs::{is_name, names_in};
use crate::words::Word;

/// The first word in the place of a stage's name that can't be one. `None` where each can, or where the words have no such place.
pub fn wrong_name(words: &[String]) -> Option<&String>
    ensures { option_map (λ name. string_bytes name.now) result ≡ wrong_name (map string_bytes words.now) }
{
    match words {
        [word, _, rest @ ..] => {
            if takes_names(word.as_str()) {
                first_other(names_in(rest))
            } else {
                None
            }
        }
        _ => None,
    }
}

fn first_other(words: &[String]) -> Option<&String>
    ensures { option_copied result ≡ find (λ word. not (is_name (string_bytes word))) words.now }
{
    words.iter().find(|word| !is_name(word.as_str()))
}

// The word is followed by names of stages.
fn takes_names(word: &str) -> bool
    ensures { result ≡ takes_names word.now }
{
    matches!(
        Word::named(word),
        Some(Word::Diagram | Word::Svg | Word::Page | Word::Stalls)
    )
}
