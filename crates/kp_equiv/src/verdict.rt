// The result of a comparison.

/// Whether two netlists were shown equal by their structure.
#[derive(Clone, Copy)]
pub enum Verdict {
    /// All roots agree.
    Same,
    /// The root of this number, counted from 0, is the first that doesn't agree.
    Differs(u32),
}
