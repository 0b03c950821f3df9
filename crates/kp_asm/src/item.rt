// The contents of a line.
use crate::mnemonic::Mnemonic;
use crate::token::Token;

/// A label that is declared, and the address of the word after it.
#[derive(Clone, Copy)]
pub struct Label {
    pub name: Token,
    pub address: u32,
}

/// An instruction: its operands in order, without the punctuators, and its address. A missing operand is replaced by the mnemonic.
#[derive(Clone, Copy)]
pub struct Instruction {
    pub mnemonic: Mnemonic,
    pub first: Token,
    pub second: Token,
    pub third: Token,
    pub address: u32,
}

/// A label or an instruction.
#[derive(Clone, Copy)]
pub enum Item {
    Label(Label),
    Instruction(Instruction),
}
