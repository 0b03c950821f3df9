// Writing a text completely.
ghost use Rattle.std.specs.Prelude.{◌≡◌, [], false, decimal, flat_map};
ghost use Rattle.kp_base.specs.Bytes.{Writes};
ghost use Rattle.kp_base.specs.Causes.{HasCause};
ghost use Rattle.kp_base.specs.Writer.{Ended, Wrote};

use crate::page::Page;
use crate::{Failed, Sink};
use itoa::Buffer;
use thiserror::Error;

/// The sink failed before it had accepted the complete text.
#[derive(Clone, Copy, Debug, Error)]
#[error("the sink failed")]
pub struct SinkFault;

impl From<Failed> for SinkFault {
    fn from(_: Failed) -> Self {
        SinkFault
    }
}

/// Appends the complete piece, or a prefix of it if the sink fails. For an empty piece the sink is not called.
pub fn write_all<K: Sink>(sink: &mut K, piece: &[u8]) -> Result<(), SinkFault>
    ensures text { Writes (K.held sink.old) (K.held sink.new) piece.now result }
    ensures cause { HasCause (K.faults sink.old) (K.faults sink.new) result }
    ensures empty { piece.now ≡ [] → sink.new ≡ sink.old }
{
    let mut done = 0;
    while done < piece.len() {
        done += sink.write(&piece[done..])?;
    }
    Ok(())
}

/// Appends the pieces in order, or a prefix of their concatenation if the sink fails.
pub fn write_pieces<K: Sink>(sink: &mut K, pieces: &[&[u8]]) -> Result<(), SinkFault>
    ensures text { Writes (K.held sink.old) (K.held sink.new) (flat_map (λ piece. piece.now) pieces.now) result }
    ensures cause { HasCause (K.faults sink.old) (K.faults sink.new) result }
{
    for piece in pieces {
        write_all(sink, piece)?;
    }
    Ok(())
}

/// A text on its way to a sink, through a buffer of 8,192 bytes. Once the sink has failed nothing more is written, so a text is written without a test
/// after each piece, and `finish` returns the fault.
#[derive(Drop)]
pub struct Writer<'a, K: Sink> {
    sink: &'a mut K,
    page: Page,
    failed: bool,
}

impl<'a, K: Sink> Writer<'a, K> {
    /// Nothing is written yet. Allocates nothing.
    pub fn new(sink: &'a mut K) -> Writer<'a, K>
        ensures same { result.sink.ghost_name ≡ sink.entry.ghost_name }
        ensures sink { result.sink.now ≡ sink.old }
        ensures empty { result.page ≡ [] }
        ensures fine { result.failed ≡ false }
    {
        Writer {
            sink,
            page: Page::new(),
            failed: false,
        }
    }

    /// Appends a piece of text.
    #[tactic(auto, using(crate::proofs::Writing::passed_piece, crate::proofs::Writing::wrote_failed))]
    pub fn put(&mut self, piece: &[u8])
        ensures { Wrote K.held K.faults self.old self.new piece.now }
    {
        if !self.failed {
            self.failed = self.page.put(self.sink, piece).is_err();
        }
    }

    /// Appends a number in decimal digits.
    pub fn number(&mut self, number: u64)
        ensures { Wrote K.held K.faults self.old self.new (decimal number) }
    {
        let mut digits = Buffer::new();
        self.put(digits.format(number).as_bytes())
    }

    /// Writes what the buffer contains. It fails if the sink has failed before, too. A fault comes only from the sink.
    pub fn finish(self) -> Result<(), SinkFault>
        ensures { Ended K.held K.faults self.entry self.exit.0.now result }
    {
        let Writer {
            sink,
            mut page,
            failed,
        } = self;
        if failed {
            return Err(SinkFault);
        }
        page.flush(sink)
    }
}
