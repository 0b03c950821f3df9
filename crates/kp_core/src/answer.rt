// What is to be written.
ghost use Rattle.std.specs.Prelude.{◌≡◌};
ghost use Rattle.kp_core.specs.Answers.{text_said};

/// A text.
pub enum Said {
    /// Of the program itself.
    Fixed(&'static str),
    /// Made for an input.
    Made(Vec<u8>),
}

impl Drop for Said {
    fn drop(self) {
        match self {
            Said::Fixed(_) => {}
            Said::Made(text) => drop(text),
        }
    }
}

/// A status, and its text: for standard output where the status is 0, else for standard error.
pub struct Answer {
    pub status: u8,
    pub said: Said,
}

impl Drop for Answer {
    fn drop(self) {
        let Answer { status: _, said } = self;
        drop(said);
    }
}

impl Said {
    /// The bytes of the text.
    pub fn bytes(&self) -> &[u8]
        ensures { result.now ≡ text_said self.now }
    {
        match self {
            Said::Fixed(text) => text.as_bytes(),
            Said::Made(text) => text.as_slice(),
        }
    }
}
