// The start state of a machine.
use kp_base::List;
use kp_bits::Bits;

/// The start state of a machine: a value for each register, and for each file its words, in the order of declaration.
pub struct Start {
    pub regs: List<Bits>,
    pub files: List<List<u64>>,
}

impl Drop for Start {
    fn drop(self) {
        let Start { regs, files } = self;
        drop(regs);
        drop(files);
    }
}
