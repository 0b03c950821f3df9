// Why a line is refused.
ghost use Rattle.std.specs.Prelude.{◌≡◌, ◌++◌, OnOk, IfOk, option_map};
ghost use Rattle.kp_core.specs.Messages.{port_head, sentence, help, AreFacts, IsMessage};

use itoa::Buffer;
use kp_base::NoMemory;
use kp_core_ports::{PortRefusal, PortRule};
use kp_view_excerpt::Excerpt;
use std::alloc::Global;

/// The message on a line that violates a rule, under the name of the file: the place, the rule, a sentence, the line, and what helps. The only error is
/// out of memory.
pub fn message_of(
    alloc: Global,
    file: &[u8],
    text: &[u8],
    refusal: PortRefusal,
) -> Result<Vec<u8>, NoMemory>
    ensures { IfOk result (λ said. IsMessage file.now text.now refusal said.items) }
{
    let facts = facts(alloc, text, refusal)?;
    let mut said = Vec::new(alloc);
    write_head(&mut said, file, refusal)?;
    said.extend_from_slice(facts.as_slice())?;
    Ok(said)
}

// Appends the head of a message: `core.kp:11:13: error P2: `.
#[tactic(auto, unfolding(crate::specs::Messages::port_head), using(std::proofs::Common::append_assoc))]
fn write_head(out: &mut Vec<u8>, file: &[u8], refusal: PortRefusal) -> Result<(), NoMemory>
    ensures { OnOk result (out.new.items ≡ out.old.items ++ port_head file.now refusal) }
{
    let (mut number, mut line, mut col) = (Buffer::new(), Buffer::new(), Buffer::new());
    out.extend_from_slice(file)?;
    out.extend_from_slice(b":")?;
    out.extend_from_slice(line.format(refusal.place.line).as_bytes())?;
    out.extend_from_slice(b":")?;
    out.extend_from_slice(col.format(refusal.place.col).as_bytes())?;
    out.extend_from_slice(b": error P")?;
    out.extend_from_slice(number.format(refusal.rule.number()).as_bytes())?;
    out.extend_from_slice(b": ")?;
    Ok(())
}

// What follows the head.
fn facts(alloc: Global, text: &[u8], refusal: PortRefusal) -> Result<Vec<u8>, NoMemory>
    ensures { IfOk result (λ facts. AreFacts text.now refusal facts.items) }
{
    let excerpt = Excerpt::at(text, refusal.place);
    let mut out = Vec::from_slice(alloc, sentence(refusal.rule).as_bytes())?;
    out.extend_from_slice(b"\n")?;
    excerpt.write(&mut out)?;
    if let Some(help) = help(refusal.rule) {
        excerpt.write_help(&mut out, help)?;
    }
    Ok(out)
}

fn sentence(rule: PortRule) -> &'static str
    ensures { result.now ≡ sentence rule }
{
    match rule {
        PortRule::Form => "no line that asks for ports has this form",
        PortRule::Taken => "an earlier line asks for a port of the same name",
        PortRule::NoRegister => "no register has this name",
        PortRule::NoFile => "no file has this name",
        PortRule::NoPipe => "no pipe has this name",
        PortRule::NoStage => "no stage of this number holds the pipe",
    }
}

fn help(rule: PortRule) -> Option<&'static str>
    ensures { option_map (λ text. text.now) result ≡ help rule }
{
    match rule {
        PortRule::Form => Some(
            "a line is `show R`, `peek F`, `load F`, `probe P at k`, `next P at k` or `commit`",
        ),
        PortRule::NoStage => Some(
            "a pipe is held from the stage after its put to the last stage that uses it",
        ),
        PortRule::Taken | PortRule::NoRegister | PortRule::NoFile | PortRule::NoPipe => None,
    }
}
