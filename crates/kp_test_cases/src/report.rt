//! The text that the program prints.
use itoa::Buffer;
use std::alloc::Global;

/// A part of a line that is printed.
#[derive(Clone, Copy)]
pub enum Term<'a> {
    Text(&'a [u8]),
    Number(u64),
}

/// The text that is printed at the end.
#[derive(Drop)]
pub struct Report {
    text: Vec<u8>,
    is_complete: bool,
}

impl Report {
    /// An empty text.
    pub fn new(alloc: Global) -> Report {
        Report {
            text: Vec::new(alloc),
            is_complete: true,
        }
    }

    /// The text, or `None` if there was too little memory for it or for a case.
    pub fn text(&self) -> Option<&[u8]> {
        if self.is_complete {
            Some(self.text.as_slice())
        } else {
            None
        }
    }

    /// Records that there was too little memory for a case.
    pub fn fail(&mut self) {
        self.is_complete = false;
    }

    /// Appends these terms.
    pub fn add(&mut self, terms: &[Term<'_>]) {
        for term in terms {
            match term {
                Term::Text(text) => self.append(text),
                Term::Number(number) => {
                    let mut digits = Buffer::new();
                    self.append(digits.format(*number).as_bytes());
                }
            }
        }
    }

    fn append(&mut self, text: &[u8]) {
        if let Err(_) = self.text.extend_from_slice(text) {
            self.is_complete = false;
        }
    }
}
