//! The names of parts.
ghost use Rattle.std.specs.Prelude.{◌≡◌, ◌∷◌, ◌++◌, IfOk, codes, decimal};
ghost use Rattle.kp_ast.specs.Name.{IsName};
ghost use Rattle.kp_net.specs.Names.{IsSpelled, is_reg_name};

use itoa::Buffer;
use kp_ast::Name;
use kp_base::NoMemory;
use kp_net::Label;
use std::alloc::Global;

// The label of a name of the job: a letter, `_`, and the name.
pub(crate) fn label(alloc: Global, letter: u8, name: &Name) -> Result<Label, NoMemory>
    ensures label { IfOk result (λ l. l ≡ letter ∷ 95 ∷ name.now) }
    ensures named { IfOk result (λ l. IsName name.now) }
{
    let mut bytes = Vec::new(alloc);
    bytes.push(letter)?;
    bytes.push(b'_')?;
    bytes.extend_from_slice(name.bytes())?;
    Label::new(alloc, bytes.as_slice())
}

// The label of a register that has no name in the job.
#[tactic(auto, using(crate::proofs::Spelled::numbered_spelled))]
pub(crate) fn numbered(alloc: Global, number: u32) -> Result<Label, NoMemory>
    ensures label { IfOk result (λ l. l ≡ codes "q_" ++ decimal number) }
    ensures spelled { IfOk result (λ l. IsSpelled is_reg_name l) }
{
    let mut digits = Buffer::new();
    let mut bytes = Vec::new(alloc);
    bytes.extend_from_slice(b"q_")?;
    bytes.extend_from_slice(digits.format(number).as_bytes())?;
    Label::new(alloc, bytes.as_slice())
}
