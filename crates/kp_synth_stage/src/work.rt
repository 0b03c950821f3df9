// The nodes of a stage so far.
use kp_build::Env;
use kp_net::NodeId;
use kp_synth_registers::{Made, Set};

/// What the statements of a stage have done so far: the nodes of its names, whether a read had a data hazard, and for
/// each pipe what is put, for each target the set of its result, for each guessed read the guess, and for each hint
/// what is aimed at it.
#[derive(Drop)]
pub struct Work<'a> {
    pub env: Env<'a>,
    pub hazard: NodeId,
    pub puts: Vec<Option<NodeId>>,
    pub sets: Vec<Option<Set>>,
    pub made: Vec<Made>,
    pub aims: Vec<Option<NodeId>>,
}
