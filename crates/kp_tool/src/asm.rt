// `asm`: the image section of an assembler program.
ghost use Rattle.std.specs.Prelude.{◌≤◌, length, Some};
ghost use Rattle.kp_words.specs.declared.commands.Command.TheVariants.{Assemble};
ghost use Rattle.kp_tool.specs.{Due.DueFor, Ends.Ends};

use crate::failure::Failure;
use crate::outcome::{Outcome, finish};
use kp_asm::{assemble, image_text};
use kp_base::{Sink, SinkFault, write_all};
use std::alloc::Global;

/// `asm`: assembles a program, and writes the `image` section with its words.
pub fn asm<K: Sink>(alloc: Global, input: &[u8], sink: &mut K) -> Result<u8, Failure>
    requires { length input.now ≤ 16777216 }
    ensures { Ends K.held K.faults ⊥ (DueFor (Some Assemble) input.now) sink.old sink.new result }
{
    let words = assemble(alloc, input)?;
    let section = image_text(alloc, &words)?;
    finish(section, sink)
}

impl Outcome for Vec<u8> {
    ghost status = { λ _. 0 };

    ghost text = { λ section. section.items };

    fn write<K: Sink>(self, sink: &mut K) -> Result<u8, SinkFault> {
        write_all(sink, &self)?;
        Ok(0)
    }
}
