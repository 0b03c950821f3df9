// The encoding of instructions.
ghost use Rattle.std.specs.Prelude.{◌≡◌, ◌≤◌, ◌<◌, ◌^◌};
ghost use Rattle.kp_asm.specs.Words.{r_form, i_form, j_form, distance, word_of};

use crate::mnemonic::Mnemonic;
use crate::number::{number, register};

// The lowest bits of the fields.
const OPCODE: u32 = 1 << 26;

const RS1: u32 = 1 << 21;

const RS2: u32 = 1 << 16;

const RD_OF_IMMEDIATE: u32 = 1 << 16;

const RD_OF_REGISTERS: u32 = 1 << 11;

/// The word of an instruction: its mnemonic, the bytes of its operands in order, the address of the label that it uses, and its own address.
pub fn word_of(
    mnemonic: Mnemonic,
    first: &[u8],
    second: &[u8],
    third: &[u8],
    label: u32,
    address: u32,
) -> u32
    ensures { result ≡ word_of mnemonic first.now second.now third.now label address }
{
    match mnemonic {
        Mnemonic::Add => r_form(0x20, register(first), register(second), register(third)),
        Mnemonic::Sub => r_form(0x22, register(first), register(second), register(third)),
        Mnemonic::And => r_form(0x24, register(first), register(second), register(third)),
        Mnemonic::Or => r_form(0x25, register(first), register(second), register(third)),
        Mnemonic::Xor => r_form(0x26, register(first), register(second), register(third)),
        Mnemonic::Sll => r_form(0x04, register(first), register(second), register(third)),
        Mnemonic::Srl => r_form(0x06, register(first), register(second), register(third)),
        Mnemonic::Mul => r_form(0x18, register(first), register(second), register(third)),
        Mnemonic::Seq => r_form(0x28, register(first), register(second), register(third)),
        Mnemonic::Slt => r_form(0x2a, register(first), register(second), register(third)),
        Mnemonic::Nop => 0,
        Mnemonic::Addi => i_form(0x08, register(first), register(second), number(16, third)),
        Mnemonic::Slti => i_form(0x0a, register(first), register(second), number(16, third)),
        Mnemonic::Andi => i_form(0x0c, register(first), register(second), number(16, third)),
        Mnemonic::Ori => i_form(0x0d, register(first), register(second), number(16, third)),
        Mnemonic::Xori => i_form(0x0e, register(first), register(second), number(16, third)),
        Mnemonic::Lhi => i_form(0x0f, register(first), 0, number(16, second)),
        Mnemonic::Lw => i_form(0x23, register(first), register(third), number(16, second)),
        Mnemonic::Sw => i_form(0x2b, register(first), register(third), number(16, second)),
        Mnemonic::Beqz => i_form(0x04, 0, register(first), distance(16, label, address)),
        Mnemonic::Bnez => i_form(0x05, 0, register(first), distance(16, label, address)),
        Mnemonic::J => j_form(0x02, distance(26, label, address)),
        Mnemonic::Jal => j_form(0x03, distance(26, label, address)),
        Mnemonic::Jr => i_form(0x16, 0, register(first), 0),
        Mnemonic::Jalr => i_form(0x17, 0, register(first), 0),
        Mnemonic::Word => number(32, first),
    }
}

fn r_form(function: u32, rd: u32, rs1: u32, rs2: u32) -> u32
    requires function { function < 2 ^ 6 }
    requires rd { rd < 2 ^ 5 }
    requires rs1 { rs1 < 2 ^ 5 }
    requires rs2 { rs2 < 2 ^ 5 }
    ensures { result ≡ r_form function rd rs1 rs2 }
{
    rs1 * RS1 + rs2 * RS2 + rd * RD_OF_REGISTERS + function
}

fn i_form(opcode: u32, rd: u32, rs1: u32, immediate: u32) -> u32
    requires opcode { opcode < 2 ^ 6 }
    requires rd { rd < 2 ^ 5 }
    requires rs1 { rs1 < 2 ^ 5 }
    requires immediate { immediate < 2 ^ 16 }
    ensures { result ≡ i_form opcode rd rs1 immediate }
{
    opcode * OPCODE + rs1 * RS1 + rd * RD_OF_IMMEDIATE + immediate
}

fn j_form(opcode: u32, immediate: u32) -> u32
    requires opcode { opcode < 2 ^ 6 }
    requires immediate { immediate < 2 ^ 26 }
    ensures { result ≡ j_form opcode immediate }
{
    opcode * OPCODE + immediate
}

// The address of a label minus that of the next instruction, in two's complement.
fn distance(width: u32, label: u32, address: u32) -> u32
    requires { width ≤ 32 }
    ensures value { result ≡ distance width label address }
    ensures fits { result < 2 ^ width }
{
    let size = 1u64 << width;
    ((u64::from(label) + size - (u64::from(address) + 4) % size) % size) as u32
}
