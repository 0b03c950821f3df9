// The head of what is said of a violated rule.
ghost use Rattle.std.specs.Prelude.{◌≡◌, ◌++◌, OnOk};
ghost use Rattle.kp_view_texts.specs.Heads.{rule_head, letter};

use itoa::Buffer;
use kp_base::{Family, NoMemory, Refusal};

/// Appends the head of a violated rule: `mini5.kp:11:13: error E9: `.
#[tactic(auto, unfolding(crate::specs::Heads::rule_head), using(std::proofs::Common::append_assoc))]
pub fn write_head(out: &mut Vec<u8>, file: &[u8], refusal: Refusal) -> Result<(), NoMemory>
    ensures { OnOk result (out.new.items ≡ out.old.items ++ rule_head file.now refusal) }
{
    let (mut number, mut line, mut col) = (Buffer::new(), Buffer::new(), Buffer::new());
    out.extend_from_slice(file)?;
    out.extend_from_slice(b":")?;
    out.extend_from_slice(line.format(refusal.place.line).as_bytes())?;
    out.extend_from_slice(b":")?;
    out.extend_from_slice(col.format(refusal.place.col).as_bytes())?;
    out.extend_from_slice(b": error ")?;
    out.extend_from_slice(letter(refusal.family))?;
    out.extend_from_slice(number.format(refusal.number).as_bytes())?;
    out.extend_from_slice(b": ")?;
    Ok(())
}

// The letter of the language whose rule is violated.
fn letter(family: Family) -> &'static [u8]
    ensures { result.now ≡ letter family }
{
    match family {
        Family::E => b"E",
        Family::V => b"V",
        Family::A => b"A",
    }
}
