// The control nodes and the outputs.
use kp_net::NodeId;

/// The control signals of a cycle. Of the 12 nodes of a list only those of existing stages are used.
#[derive(Drop)]
pub struct Control {
    /// One more than the greatest stage that mismatches, or 0, in 4 bits.
    pub back: NodeId,
    /// For each stage, whether it is squashed.
    pub swept: [NodeId; 12],
    /// For each stage, whether it updates.
    pub updates: [NodeId; 12],
}

/// The outputs of the netlist in a cycle.
#[derive(Clone, Copy)]
pub struct RowNodes {
    /// Bit k says whether stage k holds an instruction.
    pub full: NodeId,
    /// Bit k says whether stage k updates.
    pub ue: NodeId,
    /// One more than the greatest stage that mismatches, or 0, in 4 bits.
    pub back: NodeId,
}
