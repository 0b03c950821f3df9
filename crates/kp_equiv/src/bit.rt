// One bit of a node.
use kp_net::NodeId;

/// A bit of a node.
#[derive(Clone, Copy, PartialEq, Eq, Hash)]
pub enum Bit {
    /// A bit of a constant.
    Fixed(bool),
    /// This bit of a node that is neither a constant nor a slice nor a concatenation. The lowest bit has the number 0.
    Of(NodeId, u8),
}
