// The text of a line, as it is shown.
ghost use Rattle.std.specs.Prelude.{◌≡◌, ◌<◌, ◌^◌, [], All, IfOk, OnOk, length, map};
ghost use Rattle.kp_base.specs.Lines.{IsWithin, piece_of};
ghost use Rattle.kp_listing.specs.Listings.{is_hash, shortened, text_shown, with_word, words_joined};

use kp_base::{NoMemory, Run, words_in};
use std::alloc::Global;

/// The greatest length of a text that is shown in full.
const MOST: usize = 28;

/// The words of a text up to `#`, with a space between them, cut off after 26 bytes where they are longer than 28.
pub(crate) fn text_shown(alloc: Global, text: &[u8]) -> Result<Vec<u8>, NoMemory>
    requires { length text.now < 2 ^ 32 }
    ensures { IfOk result (λ shown. shown.items ≡ text_shown text.now) }
{
    let run = Run {
        at: 0,
        end: text.len() as u32,
    };
    let words = words_in(alloc, text, run)?;
    let mut shown = words_joined(alloc, text, words.as_slice())?;
    shorten(&mut shown)?;
    Ok(shown)
}

fn words_joined(alloc: Global, text: &[u8], words: &[Run]) -> Result<Vec<u8>, NoMemory>
    requires { All (IsWithin text.now) words.now }
    ensures { IfOk result (λ shown. shown.items ≡ words_joined [] (map (piece_of text.now) words.now)) }
{
    let mut shown = Vec::new(alloc);
    for word in words {
        let bytes = bytes_of(text, *word);
        if bytes == b"#".as_slice() {
            return Ok(shown);
        }
        add_word(&mut shown, bytes)?;
    }
    Ok(shown)
}

fn bytes_of(text: &[u8], run: Run) -> &[u8]
    requires { IsWithin text.now run }
    ensures { result.now ≡ (piece_of text.now run).bytes }
{
    &text[run.at as usize..run.end as usize]
}

fn add_word(shown: &mut Vec<u8>, word: &[u8]) -> Result<(), NoMemory>
    ensures { OnOk result (shown.new.items ≡ with_word shown.old.items word.now) }
{
    if !shown.is_empty() {
        shown.push(b' ')?;
    }
    shown.extend_from_slice(word)?;
    Ok(())
}

fn shorten(shown: &mut Vec<u8>) -> Result<(), NoMemory>
    ensures { OnOk result (shown.new.items ≡ shortened shown.old.items) }
{
    if shown.len() > MOST {
        shown.truncate(MOST - 2);
        shown.extend_from_slice(b"..")?;
    }
    Ok(())
}
