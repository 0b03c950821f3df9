// Names in Verilog.
ghost use Rattle.std.specs.Prelude.{◌≡◌, ◌≤◌, length, IfOk};

use kp_base::NoMemory;
use std::alloc::Global;
use std::marker::Model;

/// A name of a module, a register, a file or a port in Verilog: 1 to 70 bytes.
///
/// Contracts see a label as the list of its bytes.
pub struct Label {
    bytes: Vec<u8>,
}

impl Drop for Label {
    fn drop(self) {
        let Label { bytes } = self;
        drop(bytes);
    }
}

impl Model for Label {
    ghost use Rattle.std.specs.Prelude.{ℕ, ◌≤◌, List, length};

    ghost Value = { List ℕ };

    ghost view = { λ l. l.bytes.items };

    ghost invariant = { λ l. (1 ≤ length l.bytes.items) × (length l.bytes.items ≤ 70) };
}

impl Label {
    /// The label of these bytes, which are copied. Error: out of memory.
    pub fn new(alloc: Global, bytes: &[u8]) -> Result<Label, NoMemory>
        requires at_least { 1 ≤ length bytes.now }
        requires at_most { length bytes.now ≤ 70 }
        ensures { IfOk result (λ l. l ≡ bytes.now) }
    {
        let bytes = Vec::from_slice(alloc, bytes)?;
        Ok(Label { bytes })
    }

    /// The bytes of the label.
    pub fn bytes(&self) -> &[u8]
        ensures bytes { result.now ≡ self.now }
        ensures at_least { 1 ≤ length self.now }
        ensures at_most { length self.now ≤ 70 }
    {
        self.bytes.as_slice()
    }
}
