// The outcome of a command: a status and a text, ready to be written.
ghost use Rattle.std.specs.Prelude.{◌≡◌, ℕ, List, IfOk};
ghost use Rattle.kp_base.specs.Bytes.{Writes};
ghost use Rattle.kp_base.specs.Causes.{HasCause};
ghost use Rattle.kp_report.specs.Texts.{bad_words};
ghost use Rattle.kp_tool.specs.{Saying.Says, Ends.Ends};

use crate::failure::Failure;
use kp_base::{Sink, SinkFault, write_all};

/// A status and a text, for which all memory is allocated: `write` is given no allocator, so only the sink can fail.
pub trait Outcome {
    ghost status: { Self → ℕ };

    ghost text: { Self → List ℕ };

    /// Writes the text and returns the status. A fault comes only from the sink, which then has a prefix of the text.
    fn write<K: Sink>(self, sink: &mut K) -> Result<u8, SinkFault>
        ensures text { Writes (K.held sink.old) (K.held sink.new) (text self) result }
        ensures status { IfOk result (λ s. s ≡ status self) }
        ensures cause { HasCause (K.faults sink.old) (K.faults sink.new) result };
}

/// Ends a command: writes its outcome. The only error is a fault of the sink.
pub fn finish<O: Outcome, K: Sink>(outcome: O, sink: &mut K) -> Result<u8, Failure>
    ensures { Ends K.held K.faults ⊥ (Says (O.status outcome) (O.text outcome)) sink.old sink.new result }
{
    Ok(outcome.write(sink)?)
}

/// The outcome for arguments that aren't accepted.
#[derive(Clone, Copy)]
pub struct BadWords;

impl Outcome for BadWords {
    ghost status = { λ _. 1 };

    ghost text = { λ _. bad_words };

    fn write<K: Sink>(self, sink: &mut K) -> Result<u8, SinkFault> {
        write_all(sink, b"bad words\n")?;
        Ok(1)
    }
}
