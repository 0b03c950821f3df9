// The syntax tree of a module, with the offsets that the rules report.
use kp_base::List;
use kp_bits::{BinOp, Literal};
use kp_net::Label;

/// A number, and its offset.
#[derive(Clone, Copy)]
pub struct Num {
    pub value: u64,
    pub at: u32,
}

/// A literal, and its offset.
#[derive(Clone, Copy)]
pub struct Lit {
    pub literal: Literal,
    pub at: u32,
}

/// A name, and its offset.
#[derive(Drop)]
pub struct Named {
    pub name: Label,
    pub at: u32,
}

/// `[high:low]`
#[derive(Clone, Copy)]
pub struct Range {
    pub high: Num,
    pub low: Num,
}

/// A port with a range.
#[derive(Drop)]
pub struct VPort {
    pub range: Range,
    pub port: Named,
}

/// The right side of an assignment.
#[derive(Drop)]
pub enum Right {
    /// `8'h01`
    Literal(Lit),
    /// `r_X`, `s_Q` or `ext`, or the wire of an output.
    Name(Named),
    /// `~n1`
    Not(Named),
    /// `n1 + n2`, or with another operator.
    Binary(BinOp, Named, Named),
    /// `n1 ? n2 : n3`
    Choice(Named, Named, Named),
    /// `n1[7:0]`
    Slice(Named, Num, Num),
    /// `f_M[n4]`
    Word(Named, Named),
    /// `{n1, n2}`
    Concat(List<Named>),
}

/// A line before `initial`.
#[derive(Drop)]
pub enum Item {
    /// `reg [7:0] r_X;`
    Reg(Range, Named),
    /// `reg [31:0] f_M [0:31];`
    File(Range, Named, Range),
    /// `integer i;`
    Integer(Named),
    /// `wire [7:0] n2;`
    Wire(Range, Named),
    /// `assign n2 = n0 + n1;`
    Assign(Named, Right),
}

/// `for (counter = from; tested < limit; stepped = old + by) file[index] = value;`
#[derive(Drop)]
pub struct Fill {
    pub counter: Named,
    pub from: Num,
    pub tested: Named,
    pub limit: Num,
    pub stepped: Named,
    pub old: Named,
    pub by: Num,
    pub file: Named,
    pub index: Named,
    pub value: Lit,
}

/// A line of the `initial` block.
#[derive(Drop)]
pub enum Init {
    /// `r_X = 8'h01;`
    Reg(Named, Lit),
    /// `f_M[3] = 32'h0000000a;`
    Word(Named, Num, Lit),
    Fill(Fill),
}

/// `r_X <= 8'h01;` in the reset list.
#[derive(Drop)]
pub struct ResetValue {
    pub name: Named,
    pub value: Lit,
}

/// `if (reset) begin .. end else ..`
#[derive(Drop)]
pub struct ResetList {
    pub reset: Named,
    pub values: List<ResetValue>,
}

/// An update at the clock edge.
#[derive(Drop)]
pub enum Update {
    /// `r_X <= n3;`
    Reg(Named, Named),
    /// `if (n1) f_M[n2] <= n3;`, with `n1` first.
    File(Named, Named, Named, Named),
}

/// A module.
pub struct VModule {
    pub name: Named,
    pub clk: Named,
    /// The port without a range.
    pub rst: Option<Named>,
    pub ext: VPort,
    pub samples: List<VPort>,
    pub full: VPort,
    pub ue: VPort,
    pub back: VPort,
    pub items: List<Item>,
    pub inits: List<Init>,
    pub clock: Named,
    pub reset: Option<ResetList>,
    pub updates: List<Update>,
}

impl Drop for VModule {
    fn drop(self) {
        let VModule {
            name,
            clk,
            rst,
            ext,
            samples,
            full,
            ue,
            back,
            items,
            inits,
            clock,
            reset,
            updates,
        } = self;
        drop(name);
        drop(clk);
        drop(rst);
        drop(ext);
        drop(samples);
        drop(full);
        drop(ue);
        drop(back);
        drop(items);
        drop(inits);
        drop(clock);
        drop(reset);
        drop(updates);
    }
}
