//! A netlist in lockstep with the sequential machine of its job, under the job's own stall words and samples: where it first differs.
//!
//! `watched` runs a netlist under the stall words and the samples of a job, in lockstep with one sequential machine for each stage, which executes an
//! instruction whenever the stage updates. All registers and all words of files are compared before the first cycle, and after each cycle all
//! registers and the words that the netlist or a machine wrote: no other word changes. The result is exact by `specs/Watching.antt`: none if the
//! complete run agrees, and otherwise the first cycle, target and address at which it doesn't. Where the job has samples, the values that
//! instructions read are known from the rows of an earlier run.
#![tactic(auto)]

mod changes;
mod compare;
mod lockstep;
mod machines;
mod results;
mod watch;

pub use watch::watched;
