// The contents of a value change dump.
ghost use Rattle.std.specs.Prelude.{◌≡◌, IfOk};
ghost use Rattle.kp_vcd.specs.Name.{IsName};

use kp_base::{List, NoMemory};
use kp_bits::Bits;
use std::alloc::Global;
use std::marker::Model;

/// A name of a module or of a signal: up to 66 bytes, each a letter, a digit or `_`.
///
/// Contracts see a name as the list of its bytes.
#[derive(Drop)]
pub struct Name {
    bytes: Vec<u8>,
}

impl Model for Name {
    ghost use Rattle.std.specs.Prelude.{ℕ, List};
    ghost use Rattle.kp_vcd.specs.Name.{IsName};

    ghost Value = { List ℕ };

    ghost view = { λ n. n.bytes.items };

    ghost invariant = { λ n. IsName n.bytes.items };
}

impl Name {
    /// The name with these bytes, which are copied. The only error is out of memory.
    pub fn new(alloc: Global, bytes: &[u8]) -> Result<Name, NoMemory>
        requires { IsName bytes.now }
        ensures { IfOk result (λ n. n ≡ bytes.now) }
    {
        let bytes = Vec::from_slice(alloc, bytes)?;
        Ok(Name { bytes })
    }

    /// The bytes of the name.
    pub fn bytes(&self) -> &[u8]
        ensures bytes { result.now ≡ self.now }
        ensures name { IsName self.now }
    {
        self.bytes.as_slice()
    }
}

/// A signal of `width` bits, which is a register or a wire. Signals are numbered from 0 on.
#[derive(Drop)]
pub struct Signal {
    pub name: Name,
    pub reg: bool,
    pub width: u8,
}

/// A signal changes to a value.
#[derive(Clone, Copy)]
pub struct Change {
    pub signal: u32,
    pub value: Bits,
}

/// The changes at a time.
#[derive(Drop)]
pub struct Moment {
    pub at: u64,
    pub changes: List<Change>,
}

/// A change dump: its module, the signals of the module, and their changes by time.
pub struct Dump {
    pub module: Name,
    pub signals: List<Signal>,
    pub moments: List<Moment>,
}

impl Drop for Dump {
    fn drop(self) {
        let Dump {
            module,
            signals,
            moments,
        } = self;
        drop(module);
        drop(signals);
        drop(moments);
    }
}
