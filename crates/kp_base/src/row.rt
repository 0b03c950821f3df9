/// The outputs of a pipelined machine in one cycle (a cycle record). Bit k of a mask belongs to stage k.
#[derive(Clone, Copy)]
pub struct Row {
    /// The stages that hold an instruction.
    pub full: u16,
    /// The stages that update in this cycle.
    pub ue: u16,
    /// 0 if no guess is found wrong, else one more than the greatest stage that finds one.
    pub back: u8,
}
