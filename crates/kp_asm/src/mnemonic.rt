// The mnemonics, and the form of the operands of each.
ghost use Rattle.std.specs.Prelude.{◌≡◌, find};
ghost use Rattle.std.specs.Str.{bytes_eq, str_eq_ignore_ascii_case};
ghost use Rattle.kp_asm.specs.Mnemonics.{all_mnemonics, spelling as spelling_of, mnemonic_of, is_mnemonic_in_any_case, form as form_of};

/// The mnemonic of an instruction.
#[derive(Clone, Copy)]
pub enum Mnemonic {
    Add,
    Sub,
    And,
    Or,
    Xor,
    Sll,
    Srl,
    Mul,
    Seq,
    Slt,
    Nop,
    Addi,
    Slti,
    Andi,
    Ori,
    Xori,
    Lhi,
    Lw,
    Sw,
    Beqz,
    Bnez,
    J,
    Jal,
    Jr,
    Jalr,
    /// `.word`, a word given as a number.
    Word,
}

/// A piece of the form of an instruction, after the mnemonic.
#[derive(Clone, Copy)]
pub enum Piece {
    Register,
    /// A number of 16 bits with a sign.
    Signed,
    /// A number of 16 bits without a sign.
    Unsigned,
    /// A number of 32 bits, with or without a sign.
    Any,
    Label,
    Comma,
    Open,
    Close,
    /// The end of the line.
    End,
}

const THREE_REGISTERS: [Piece; 6] = [
    Piece::Register,
    Piece::Comma,
    Piece::Register,
    Piece::Comma,
    Piece::Register,
    Piece::End,
];

const REGISTERS_AND_SIGNED: [Piece; 6] = [
    Piece::Register,
    Piece::Comma,
    Piece::Register,
    Piece::Comma,
    Piece::Signed,
    Piece::End,
];

const REGISTERS_AND_UNSIGNED: [Piece; 6] = [
    Piece::Register,
    Piece::Comma,
    Piece::Register,
    Piece::Comma,
    Piece::Unsigned,
    Piece::End,
];

const DISPLACEMENT: [Piece; 7] = [
    Piece::Register,
    Piece::Comma,
    Piece::Signed,
    Piece::Open,
    Piece::Register,
    Piece::Close,
    Piece::End,
];

impl Mnemonic {
    /// All mnemonics.
    pub const ALL: [Mnemonic; 26] = [
        Mnemonic::Add,
        Mnemonic::Sub,
        Mnemonic::And,
        Mnemonic::Or,
        Mnemonic::Xor,
        Mnemonic::Sll,
        Mnemonic::Srl,
        Mnemonic::Mul,
        Mnemonic::Seq,
        Mnemonic::Slt,
        Mnemonic::Nop,
        Mnemonic::Addi,
        Mnemonic::Slti,
        Mnemonic::Andi,
        Mnemonic::Ori,
        Mnemonic::Xori,
        Mnemonic::Lhi,
        Mnemonic::Lw,
        Mnemonic::Sw,
        Mnemonic::Beqz,
        Mnemonic::Bnez,
        Mnemonic::J,
        Mnemonic::Jal,
        Mnemonic::Jr,
        Mnemonic::Jalr,
        Mnemonic::Word,
    ];

    /// The text of the mnemonic.
    pub fn spelling(self) -> &'static [u8]
        ensures { result.now ≡ spelling_of self }
    {
        match self {
            Mnemonic::Add => b"add",
            Mnemonic::Sub => b"sub",
            Mnemonic::And => b"and",
            Mnemonic::Or => b"or",
            Mnemonic::Xor => b"xor",
            Mnemonic::Sll => b"sll",
            Mnemonic::Srl => b"srl",
            Mnemonic::Mul => b"mul",
            Mnemonic::Seq => b"seq",
            Mnemonic::Slt => b"slt",
            Mnemonic::Nop => b"nop",
            Mnemonic::Addi => b"addi",
            Mnemonic::Slti => b"slti",
            Mnemonic::Andi => b"andi",
            Mnemonic::Ori => b"ori",
            Mnemonic::Xori => b"xori",
            Mnemonic::Lhi => b"lhi",
            Mnemonic::Lw => b"lw",
            Mnemonic::Sw => b"sw",
            Mnemonic::Beqz => b"beqz",
            Mnemonic::Bnez => b"bnez",
            Mnemonic::J => b"j",
            Mnemonic::Jal => b"jal",
            Mnemonic::Jr => b"jr",
            Mnemonic::Jalr => b"jalr",
            Mnemonic::Word => b".word",
        }
    }

    /// What follows the mnemonic, up to the end of the line.
    pub fn form(self) -> &'static [Piece]
        ensures { result.now ≡ form_of self }
    {
        match self {
            Mnemonic::Add
            | Mnemonic::Sub
            | Mnemonic::And
            | Mnemonic::Or
            | Mnemonic::Xor
            | Mnemonic::Sll
            | Mnemonic::Srl
            | Mnemonic::Mul
            | Mnemonic::Seq
            | Mnemonic::Slt => &THREE_REGISTERS,
            Mnemonic::Addi | Mnemonic::Slti => &REGISTERS_AND_SIGNED,
            Mnemonic::Andi | Mnemonic::Ori | Mnemonic::Xori => &REGISTERS_AND_UNSIGNED,
            Mnemonic::Lhi => &[Piece::Register, Piece::Comma, Piece::Unsigned, Piece::End],
            Mnemonic::Lw | Mnemonic::Sw => &DISPLACEMENT,
            Mnemonic::Beqz | Mnemonic::Bnez => &[
                Piece::Register,
                Piece::Comma,
                Piece::Label,
                Piece::End,
            ],
            Mnemonic::J | Mnemonic::Jal => &[Piece::Label, Piece::End],
            Mnemonic::Jr | Mnemonic::Jalr => &[Piece::Register, Piece::End],
            Mnemonic::Nop => &[Piece::End],
            Mnemonic::Word => &[Piece::Any, Piece::End],
        }
    }
}

/// The mnemonic with this text, if there is one.
pub fn mnemonic_of(run: &[u8]) -> Option<Mnemonic>
    ensures { result ≡ mnemonic_of run.now }
{
    mnemonic_among(&Mnemonic::ALL, run)
}

fn mnemonic_among(mnemonics: &[Mnemonic], run: &[u8]) -> Option<Mnemonic>
    ensures { result ≡ find (λ m. bytes_eq run.now (spelling_of m)) mnemonics.now }
{
    for mnemonic in mnemonics {
        if run == mnemonic.spelling() {
            return Some(*mnemonic);
        }
    }
    None
}

/// Whether a mnemonic has this text, with upper and lower case taken as the same.
pub fn is_mnemonic_in_any_case(run: &[u8]) -> bool
    ensures { result ≡ is_mnemonic_in_any_case run.now }
{
    Mnemonic::ALL
        .iter()
        .any(|mnemonic| is_spelled(*mnemonic, run))
}

#[tactic(auto, using(crate::proofs::AnyCase::same_test))]
fn is_spelled(mnemonic: Mnemonic, run: &[u8]) -> bool
    ensures { result ≡ str_eq_ignore_ascii_case (spelling_of mnemonic) run.now }
{
    mnemonic.spelling().eq_ignore_ascii_case(run)
}
