// What an instruction computes.

/// A value that an instruction computes: that of a pipe, or the result of a target.
#[derive(Clone, Copy)]
pub enum Computed {
    Pipe(u32),
    Result(u32),
}
