// Guessed reads by number.

/// A guessed read of the job.
#[derive(Clone, Copy)]
pub struct GuessSlot {
    /// The stage that contains it.
    pub stage: u32,
    /// Its number among the guessed reads of its stage.
    pub index: u32,
    /// The target that it reads, which is a register.
    pub register: u32,
    /// The width of that register.
    pub width: u8,
    /// The write stage of the register's result.
    pub write: u32,
}
