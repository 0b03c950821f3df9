//! Listings of programs: which text goes with which address. A listing is what `objdump -d` prints, or an assembler.
//!
//! `specs/Listings.antt` defines the lines that have an address, and the text of each. Out of memory is the only error.
#![tactic(auto)]

mod line;
mod listing;
mod text;

pub use listing::{Entry, Listing};
