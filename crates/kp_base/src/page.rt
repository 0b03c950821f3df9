// The buffer that a text passes through on its way to the sink, so that the sink is called once for many pieces.
ghost use Rattle.std.specs.Prelude.{◌≡◌, ◌+◌, ◌≤◌, [], ◌++◌, length, OnOk};
ghost use Rattle.kp_base.specs.Bytes.{Writes};
ghost use Rattle.kp_base.specs.Causes.{HasCause};
ghost use Rattle.kp_base.specs.inner.Writing.{Sends};

use crate::{Sink, SinkFault, write_all};
use std::marker::Model;

const SIZE: usize = 8192;

// Bytes that have not been written to the sink yet. Contracts see the list of them.
#[derive(Drop)]
pub(crate) struct Page {
    bytes: [u8; 8192],
    len: usize,
}

impl Model for Page {
    ghost use Rattle.std.specs.Prelude.{ℕ, ◌≤◌, List, take};

    ghost Value = { List ℕ };

    ghost view = { λ p. take p.len p.bytes };

    ghost invariant = { λ p. p.len ≤ 8192 };
}

impl Page {
    // An empty buffer. Allocates nothing.
    pub(crate) fn new() -> Page
        ensures { result ≡ [] }
    {
        Page {
            bytes: [0; 8192],
            len: 0,
        }
    }

    // How many more bytes fit.
    fn room(&self) -> usize
        ensures { length self.now + result ≡ 8192 }
    {
        SIZE - self.len
    }

    fn push(&mut self, piece: &[u8])
        requires { length self.old + length piece.now ≤ 8192 }
        ensures { self.new ≡ self.old ++ piece.now }
    {
        let end = self.len + piece.len();
        self.bytes[self.len..end].copy_from_slice(piece);
        self.len = end;
    }

    // Appends a piece of text to the buffer, which is written to the sink when it is full. A fault comes only from the sink.
    pub(crate) fn put<K: Sink>(&mut self, sink: &mut K, piece: &[u8]) -> Result<(), SinkFault>
        ensures text { Sends (K.held sink.old) self.old (K.held sink.new) self.new piece.now result }
        ensures cause { HasCause (K.faults sink.old) (K.faults sink.new) result }
    {
        if self.room() < piece.len() {
            self.flush(sink)?;
            if SIZE < piece.len() {
                return write_all(sink, piece);
            }
        }
        self.push(piece);
        Ok(())
    }

    // Writes all bytes to the sink. A fault comes only from the sink.
    pub(crate) fn flush<K: Sink>(&mut self, sink: &mut K) -> Result<(), SinkFault>
        ensures text { Writes (K.held sink.old) (K.held sink.new) self.old result }
        ensures empty { OnOk result (self.new ≡ []) }
        ensures cause { HasCause (K.faults sink.old) (K.faults sink.new) result }
    {
        write_all(sink, &self.bytes[..self.len])?;
        self.len = 0;
        Ok(())
    }
}
