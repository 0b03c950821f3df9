//! The words of a command line of `kpview`: what they ask for (`Request`), and the texts of help, usage and version.
//!
//! A word is a variant of `Word`, a line in `named` and in `WORDS`, its texts, and a line in `task_with`, which says what the words after it mean.
//! What it takes is in its variant of `Order`. `runs.rt` has the words of cycles, names and files, and `labels.rt` those of labels.
#![tactic(auto)]

mod given;
mod labels;
mod misnamed;
mod pair;
mod runs;
mod task;
mod texts;
mod words;

pub use misnamed::wrong_name;
pub use pair::Pair;
pub use task::{Cycles, Later, Memories, Order, Run, Task, WithLabels};
pub use texts::{help_of, usage_of, version};
pub use words::{Request, Topic, Word};
