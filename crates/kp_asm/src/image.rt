// The text of an image.
ghost use Rattle.std.specs.Prelude.{◌≡◌, ◌++◌, OnOk, IfOk};
ghost use Rattle.kp_asm.specs.Image.{image_line, image_text_of};

use itoa::Buffer;
use kp_base::NoMemory;
use kp_bits::Bits;
use std::alloc::Global;

/// The text of the `image` section of a description with these words, word i at IM[i], including words that are 0. The only error is out of memory.
#[tactic(auto, using(crate::proofs::Images::line_more, crate::proofs::Images::lines_all))]
pub fn image_text(alloc: Global, words: &[u32]) -> Result<Vec<u8>, NoMemory>
    ensures { IfOk result (λ text. text.items ≡ image_text_of words.now) }
{
    let mut text = Vec::from_slice(alloc, b"image {\n")?;
    for (i, word) in words.iter().enumerate() {
        let value = Bits::new(32, u64::from(*word)).unwrap();
        add_line(&mut text, i, value)?;
    }
    text.extend_from_slice(b"}\n")?;
    Ok(text)
}

// Adds the line of one word.
#[tactic(auto, unfolding(crate::specs::Image::image_line), using(std::proofs::Common::append_assoc))]
fn add_line(text: &mut Vec<u8>, i: usize, value: Bits) -> Result<(), NoMemory>
    ensures { OnOk result (text.new.items ≡ text.old.items ++ image_line i value) }
{
    let mut digits = Buffer::new();
    let mut spelled = [0; 20];
    let length = value.spell(&mut spelled);
    text.extend_from_slice(b"  IM[")?;
    text.extend_from_slice(digits.format(i).as_bytes())?;
    text.extend_from_slice(b"] = ")?;
    text.extend_from_slice(&spelled[..length])?;
    text.extend_from_slice(b";\n")?;
    Ok(())
}
