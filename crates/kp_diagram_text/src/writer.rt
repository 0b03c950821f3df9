// Writing to a sink that may fail.
ghost use Rattle.std.specs.Prelude.{◌≡◌, false, is_err};
ghost use Rattle.kp_diagram_text.specs.Writing.{Wrote};

use kp_base::{Sink, SinkFault, write_all};
use std::marker::Model;

/// The writing of a text to a sink. Once the sink has failed nothing more is written, so a text is written without a test after each part. Contracts
/// see whether the sink has failed.
#[derive(Drop)]
pub struct Writing {
    failed: bool,
}

impl Model for Writing {
    ghost use Rattle.std.specs.Prelude.{Bool};

    ghost Value = { Bool };

    ghost view = { λ w. w.failed };
}

impl Writing {
    /// Nothing is written yet.
    pub fn begin() -> Writing
        ensures { result ≡ false }
    {
        Writing { failed: false }
    }

    /// Writes a part of the text.
    #[tactic(auto, using(crate::proofs::InOrder::wrote_piece, crate::proofs::InOrder::wrote_failed))]
    pub fn put<K: Sink>(&mut self, sink: &mut K, piece: &[u8])
        ensures { Wrote (K.held sink.old) (K.faults sink.old) self.old (K.held sink.new) (K.faults sink.new) self.new piece.now }
    {
        if self.failed {
            return;
        }
        self.failed = write_all(sink, piece).is_err();
    }

    /// What the call that writes the text returns.
    pub fn end(self) -> Result<(), SinkFault>
        ensures { is_err result ≡ self }
    {
        if self.failed { Err(SinkFault) } else { Ok(()) }
    }
}
