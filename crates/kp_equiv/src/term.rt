// What has a number in the table of two netlists.
use crate::wires::Wires;
use kp_net::Node;

/// An operation on numbered operands, or the bits of a node, in terms of the numbers of operations.
#[derive(Drop, PartialEq, Eq, Hash)]
pub(crate) enum Term {
    Operation(Node),
    Bits(Wires),
}
