// Resolved expressions.
use kp_ast::Boxed;
use kp_base::List;
use kp_bits::{BinOp, Bits};

/// A resolved expression: its names are indices, its literals are words, and a call contains the body of its
/// function, in which names are indices of arguments.
pub enum Plan {
    /// The word of a literal, or None if it has none.
    Word(Option<Bits>),
    /// The value under an index, or None if the name has no index.
    Name(Option<usize>),
    Not(Boxed<Plan>),
    Binary(BinOp, Boxed<Plan>, Boxed<Plan>),
    /// `test ? yes : no`, in this order.
    Mux(Boxed<Plan>, Boxed<Plan>, Boxed<Plan>),
    /// The concatenation of the parts, with the high bits first.
    Concat(List<Plan>),
    /// The bits from the first number down to the second.
    Slice(Boxed<Plan>, u64, u64),
    Zext(Boxed<Plan>, u64),
    Sext(Boxed<Plan>, u64),
    /// The arguments, and the body.
    Call(List<Plan>, Boxed<Plan>),
}

impl Drop for Plan {
    #[cycle(release)]
    fn drop(self) {
        match self {
            Plan::Word(_) | Plan::Name(_) => {}
            Plan::Not(a) => drop(a),
            Plan::Binary(_, a, b) => {
                drop(a);
                drop(b);
            }
            Plan::Mux(test, a, b) => {
                drop(test);
                drop(a);
                drop(b);
            }
            Plan::Concat(parts) => drop(parts),
            Plan::Slice(a, _, _) => drop(a),
            Plan::Zext(a, _) => drop(a),
            Plan::Sext(a, _) => drop(a),
            Plan::Call(args, body) => {
                drop(args);
                drop(body);
            }
        }
    }
}
