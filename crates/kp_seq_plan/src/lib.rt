//! Expressions of a sequential machine, resolved once and for all instructions.
//!
//! In a `Plan` names are places, and calls have the bodies of their functions. `code_of` lowers a plan to a `Code`, in which the width of each
//! part is known, so that values are numbers alone; `value` computes it.
#![tactic(auto)]

mod code;
mod compute;
mod keys;
mod lowering;
mod plan;
mod resolve;

pub use code::{Code, Typed};
pub use compute::value;
pub use keys::Keys;
pub use lowering::code_of;
pub use plan::Plan;
pub use resolve::{Scope, plan_of};
