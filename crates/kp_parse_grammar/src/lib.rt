//! The grammar of machine descriptions, as data and with what it builds (`specs/Language.antt`); and the parts of a reader of it: the tokens as they are read
//! one after another (`Tokens`), and expressions.
#![tactic(auto)]

mod expression;
mod fault;
mod level;
mod tokens;

pub use expression::whole_expression;
pub use fault::Fault;
pub use tokens::Tokens;
