//! The texts that the commands print, and their writers, which allocate nothing.
#![tactic(auto)]

mod difference_text;
mod line;
mod pieces;
mod refusal_text;
mod runs;
mod states;
mod totals;
mod values;

pub use difference_text::write_difference;
pub use line::{Totals, write_totals};
pub use refusal_text::{write_accepted, write_refusal};
pub use runs::write_board;
pub use states::{targets_in, write_run_after};
pub use totals::totals_of;
pub use values::{write_register, write_word, write_word_line};
