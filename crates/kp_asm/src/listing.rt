// The lines of a program.
ghost use Rattle.std.specs.Prelude.{◌≡◌, ◌≤◌, ◌<◌, ◌-◌, ◌^◌, ℕ, length, OnOk, OnErr, slice_get, unwrap_or};
ghost use Rattle.kp_asm.specs.{Faults.Reads, Tokens.bytes_of};
ghost use Rattle.kp_asm.specs.Mnemonics.{begins_with_colon, mnemonic_of, misnamed};
ghost use Rattle.kp_asm.specs.inner.Listing.{line_length, instructions_in};
ghost use Rattle.kp_asm.specs.Program.{is_line_end, lines_of, with_label, with_instruction, mnemonic_read, instruction_read, declares, line_read, lines_read, nothing_read};

use crate::fault::{Misread, ProgramFault, broken};
use crate::item::{Instruction, Item, Label};
use crate::mnemonic::{Mnemonic, is_mnemonic_in_any_case, mnemonic_of};
use crate::operands::broken_operand;
use crate::token::{Token, TokenKind, bytes_of};
use kp_base::NoMemory;
use std::alloc::Global;
use std::marker::Model;

// The greatest number of words of a program.
const MOST_WORDS: u32 = 1024;

/// The labels and the instructions of a program in text order, and the number of instructions.
#[derive(Drop)]
pub struct Program {
    items: Vec<Item>,
    count: u32,
}

impl Model for Program {
    ghost use Rattle.std.specs.Prelude.{◌≡◌, ◌≤◌};
    ghost use Rattle.kp_asm.specs.Program.{Listing};
    ghost use Rattle.kp_asm.specs.inner.Listing.{instructions_in};

    ghost Value = { Listing };

    ghost view = { λ p. record { items = p.items.items; count = p.count } };

    ghost invariant = { λ p. (instructions_in p.items.items ≡ p.count) × (p.count ≤ 1024) };
}

impl Program {
    fn new(alloc: Global) -> Program
        ensures { result ≡ nothing_read }
    {
        Program {
            items: Vec::new(alloc),
            count: 0,
        }
    }

    /// The labels and the instructions.
    pub fn items(&self) -> &[Item]
        ensures value { result.now ≡ self.now.items }
        ensures most { instructions_in result.now ≤ 1024 }
    {
        self.items.as_slice()
    }

    fn add_label(&mut self, name: Token) -> Result<(), NoMemory>
        ensures { OnOk result (self.new ≡ with_label self.old name) }
    {
        self.items.push(Item::Label(Label {
            name,
            address: 4 * self.count,
        }))?;
        Ok(())
    }

    fn add_instruction(
        &mut self,
        mnemonic: Mnemonic,
        token: Token,
        operands: &[Token],
    ) -> Result<(), NoMemory>
        requires { self.old.count < 1024 }
        ensures { OnOk result (self.new ≡ with_instruction self.old mnemonic token operands.now) }
    {
        self.items.push(Item::Instruction(Instruction {
            mnemonic,
            first: operand(operands, 0, token),
            second: operand(operands, 2, token),
            third: operand(operands, 4, token),
            address: 4 * self.count,
        }))?;
        self.count += 1;
        Ok(())
    }

    fn read_mnemonic(
        &mut self,
        text: &[u8],
        token: Token,
        operands: &[Token],
    ) -> Result<(), Misread>
        requires { length text.now ≤ 2 ^ 32 - 2 }
        ensures { Reads result (mnemonic_read text.now self.old token operands.now (mnemonic_of (bytes_of text.now token))) (λ _. self.new) }
    {
        let Some(mnemonic) = mnemonic_of(bytes_of(text, token)) else {
            let fault = misnamed(token.kind, bytes_of(text, token), operands);
            return Err(Misread::Found(broken(text, fault, token.start)));
        };
        if let Some(finding) = broken_operand(text, mnemonic, operands) {
            return Err(Misread::Found(finding));
        }
        if self.count >= MOST_WORDS {
            let finding = broken(text, ProgramFault::TooMany, token.start);
            return Err(Misread::Found(finding));
        }
        self.add_instruction(mnemonic, token, operands)?;
        Ok(())
    }

    fn read_instruction(&mut self, text: &[u8], line: &[Token]) -> Result<(), Misread>
        requires { length text.now ≤ 2 ^ 32 - 2 }
        ensures { Reads result (instruction_read text.now self.old line.now) (λ _. self.new) }
    {
        let [token, operands @ ..] = line else {
            return Ok(());
        };
        if is_line_end(token.kind) {
            return Ok(());
        }
        self.read_mnemonic(text, *token, operands)
    }

    fn read_line(&mut self, text: &[u8], line: &[Token]) -> Result<(), Misread>
        requires { length text.now ≤ 2 ^ 32 - 2 }
        ensures { Reads result (line_read text.now self.old line.now) (λ _. self.new) }
    {
        if let [first, second, rest @ ..] = line
            && declares(first.kind, second.kind)
        {
            self.add_label(*first)?;
            return self.read_instruction(text, rest);
        }
        self.read_instruction(text, line)
    }
}

// How a token that is no mnemonic violates A2, with the tokens after it.
fn misnamed(kind: TokenKind, run: &[u8], operands: &[Token]) -> ProgramFault
    ensures { result ≡ misnamed kind run.now operands.now }
{
    if !matches!(kind, TokenKind::Name) {
        ProgramFault::NoInstruction
    } else if begins_with_colon(operands) {
        ProgramFault::SecondLabel
    } else if is_mnemonic_in_any_case(run) {
        ProgramFault::Capitals
    } else {
        ProgramFault::NoMnemonic
    }
}

fn begins_with_colon(tokens: &[Token]) -> bool
    ensures { result ≡ begins_with_colon tokens.now }
{
    match tokens {
        [token, ..] => matches!(token.kind, TokenKind::Colon),
        [] => false,
    }
}

// The operand at an index, or the mnemonic if there is none.
fn operand(operands: &[Token], place: usize, token: Token) -> Token
    ensures { result ≡ unwrap_or (slice_get operands.now place) token }
{
    operands.get(place).copied().unwrap_or(token)
}

fn is_line_end(kind: TokenKind) -> bool
    ensures { result ≡ is_line_end kind }
{
    matches!(kind, TokenKind::LineEnd)
}

// Whether the tokens declare a label: a name and a `:`.
fn declares(first: TokenKind, second: TokenKind) -> bool
    ensures { result ≡ declares first second }
{
    matches!((first, second), (TokenKind::Name, TokenKind::Colon))
}

// The number of tokens of the first line.
fn line_length(tokens: &[Token]) -> usize
    ensures { result ≡ line_length tokens.now }
{
    for (i, token) in tokens.iter().enumerate() {
        if is_line_end(token.kind) {
            return i + 1;
        }
    }
    tokens.len()
}

/// The labels and instructions in the lines of these tokens. Errors: the first violation of A2 to A5 and A7 in text order, and out of memory.
pub fn read_lines(alloc: Global, text: &[u8], tokens: &[Token]) -> Result<Program, Misread>
    requires { length text.now ≤ 2 ^ 32 - 2 }
    ensures { Reads result (lines_read text.now nothing_read (lines_of tokens.now)) (λ program. program) }
{
    let mut program = Program::new(alloc);
    let mut rest = tokens;
    while !rest.is_empty() {
        let (line, after) = rest.split_at(line_length(rest));
        program.read_line(text, line)?;
        rest = after;
    }
    Ok(program)
}
