// Where a netlist differs from the sequential machine of its job.
use kp_bits::Bits;

/// The first word in which the value of a netlist isn't the specified one.
#[derive(Clone, Copy)]
pub struct Difference {
    /// The number of cycles that have run.
    pub cycle: u32,
    /// The number of the register or file, in the order of declaration.
    pub target: u32,
    /// The address of the word, 0 for a register.
    pub address: u32,
    /// The value in the netlist.
    pub found: Bits,
    /// The value of the sequential machine.
    pub due: Bits,
}
