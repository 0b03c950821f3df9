//! Values of 1 to 64 bits, the operations on them, and their textual forms.
#![tactic(auto)]

mod bits;
pub mod checked;
pub mod laws;
mod literal;
mod operator;
mod spelling;

pub use bits::{Bits, low_bits, ones};
pub use literal::{Literal, LiteralFault, read_literal, read_number, read_numeral};
pub use operator::BinOp;
