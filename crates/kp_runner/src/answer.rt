// What is to be written, and what is read besides the job.
ghost use Rattle.std.specs.Prelude.{◌≡◌, ◌≢◌, ◌≤◌, vec_len};

/// A status, and its text: for standard error where the status is 1 or 2, else for standard output.
#[derive(Drop)]
pub(crate) struct Answer {
    pub status: u8,
    pub text: Vec<u8>,
    // Not that of a read fault, a write fault or of out of memory.
    pub ghost definite: { (status ≢ 3) × (status ≢ 4) × (status ≢ 5) },
    pub ghost low: { status ≤ 8 },
}

/// An expectation file: its name and its text.
#[derive(Drop)]
pub struct File {
    pub name: Vec<u8>,
    /// At most 16,777,216 bytes.
    pub text: Vec<u8>,
    pub ghost few: { vec_len text ≤ 16777216 },
}

/// The file of a job: its name, its text, and the offset after the `end` of the job.
#[derive(Clone, Copy)]
pub(crate) struct Own<'a> {
    pub name: &'a [u8],
    pub text: &'a [u8],
    pub end: u32,
}
