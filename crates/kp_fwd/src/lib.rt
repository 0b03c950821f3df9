//! The forwarding network (bypassing), which gives a read the value that an instruction ahead of it will write.
//!
//! `hit_of`: whether a stage hits, that is whether its instruction may write what is read. `carried`: the result that a stage has, stored or set in this
//! cycle, with its valid bit. `select`: of all stages above that hit, the nearest, and whether its value is there. It is a balanced tree, so its depth grows
//! with the logarithm of the number of stages.
//!
//! In the terms of D. Kroening and W. J. Paul, Automated Pipeline Design (DAC 2001), these are the hit signals of the stages, the valid bits, and the
//! forwarding circuit that takes the value of the top hit.
#![tactic(auto)]

mod bypass;
mod entries;
mod nearest_hit;

pub use bypass::{carried, hit_of};
pub use entries::{Candidate, Carried, Picked};
pub use nearest_hit::select;
