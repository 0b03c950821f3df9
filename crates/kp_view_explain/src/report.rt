// The report: for each finding a line with the file, the place and the rule, the excerpt at the place, and lines of help.
ghost use Rattle.std.specs.Prelude.{◌≡◌, ◌++◌, OnOk};
ghost use Rattle.kp_view_explain.specs.Messages.{AppendsWarning, AppendsExcerpt, AppendsFinding, AppendsMessage, AppendsShown, Grows, gap, head_text};
ghost use Rattle.kp_view_message.specs.Texts.{message_text};

use crate::passes::Finding;
use kp_base::{NoMemory, Place};
use kp_view_excerpt::Excerpt;
use kp_view_help::Help;
use kp_view_message::{Message, Warning};
use std::alloc::Global;

/// Appends what follows the head of a broken rule: the message, the excerpt and the help.
pub(crate) fn write_message(
    alloc: Global,
    out: &mut Vec<u8>,
    text: &[u8],
    place: Place,
    message: Message<'_>,
) -> Result<(), NoMemory>
    ensures line { OnOk result (AppendsMessage out.old.items out.new.items (message_text message.entry)) }
    ensures shown { OnOk result (AppendsShown text.now place out.old.items out.new.items) }
{
    let line = message.to_string(alloc)?;
    out.extend_from_slice(line.as_bytes())?;
    out.push(b'\n')?;
    write_excerpt(alloc, out, text, place, &message.helps())?;
    Ok(())
}

/// Appends a further finding, after an empty line.
pub(crate) fn write_finding(
    alloc: Global,
    out: &mut Vec<u8>,
    text: &[u8],
    file: &[u8],
    finding: &Finding<'_>,
) -> Result<(), NoMemory>
    ensures { OnOk result (AppendsFinding text.now file.now finding.now.place finding.now.message out.old.items out.new.items) }
{
    let number = finding.message.rule();
    out.push(b'\n')?;
    write_head(alloc, out, file, finding.place, "error E", number)?;
    write_message(alloc, out, text, finding.place, finding.message)?;
    Ok(())
}

// The name of the file, the place, and what is reported there, with its number.
fn write_head(
    alloc: Global,
    out: &mut Vec<u8>,
    file: &[u8],
    place: Place,
    class: &str,
    number: u8,
) -> Result<(), NoMemory>
    ensures { OnOk result (out.new.items ≡ out.old.items ++ head_text file.now place class.now number) }
{
    let Place { line, col } = place;
    let head = format!(in alloc; ":{line}:{col}: {class}{number}: ")?;
    out.extend_from_slice(file)?;
    out.extend_from_slice(head.as_bytes())?;
    Ok(())
}

/// Appends a warning, after an empty line if the report has something already.
pub(crate) fn write_warning(
    alloc: Global,
    out: &mut Vec<u8>,
    text: &[u8],
    file: &[u8],
    place: Place,
    warning: Warning<'_>,
) -> Result<(), NoMemory>
    ensures { OnOk result (AppendsWarning text.now file.now place warning.entry out.old.items out.new.items) }
{
    let line = format!(in alloc; "{warning}\n")?;
    write_gap(out)?;
    write_head(alloc, out, file, place, "warning W", warning.number())?;
    out.extend_from_slice(line.as_bytes())?;
    write_excerpt(alloc, out, text, place, &warning.helps())?;
    Ok(())
}

fn write_gap(out: &mut Vec<u8>) -> Result<(), NoMemory>
    ensures { OnOk result (out.new.items ≡ out.old.items ++ gap out.old.items) }
{
    if !out.is_empty() {
        out.push(b'\n')?;
    }
    Ok(())
}

// The excerpt at a place, and the lines of help.
#[tactic(auto, using(crate::proofs::Appending::grown))]
fn write_excerpt(
    alloc: Global,
    out: &mut Vec<u8>,
    text: &[u8],
    place: Place,
    helps: &[Option<Help<'_>>; 3],
) -> Result<(), NoMemory>
    ensures { OnOk result (AppendsExcerpt text.now place out.old.items out.new.items) }
{
    let [first, second, third] = helps;
    let excerpt = Excerpt::at(text, place);
    excerpt.write(out)?;
    write_help(alloc, out, &excerpt, first)?;
    write_help(alloc, out, &excerpt, second)?;
    write_help(alloc, out, &excerpt, third)?;
    Ok(())
}

fn write_help(
    alloc: Global,
    out: &mut Vec<u8>,
    excerpt: &Excerpt<'_>,
    help: &Option<Help<'_>>,
) -> Result<(), NoMemory>
    ensures { OnOk result (Grows out.old.items out.new.items) }
{
    let Some(help) = help else {
        return Ok(());
    };
    let line = help.to_string(alloc)?;
    excerpt.write_help(out, line.as_str())?;
    Ok(())
}
