// What is said of a violated rule after its head.
ghost use Rattle.std.specs.Prelude.{OnOk};
ghost use Rattle.kp_view_excerpt.specs.Faults.{AppendsFault};

use crate::Excerpt;
use kp_base::NoMemory;
use std::alloc::Global;
use std::fmt;

/// Appends a message, an excerpt and a line of help, if there is one.
pub fn write_fault<M: fmt::Display, H: fmt::Display>(
    alloc: Global,
    out: &mut Vec<u8>,
    excerpt: &Excerpt<'_>,
    message: &M,
    help: &Option<H>,
) -> Result<(), NoMemory>
    ensures { OnOk result (AppendsFault excerpt.now (M.output message.now) H.output help.now out.old.items out.new.items) }
{
    let sentence = message.to_string(alloc)?;
    out.extend_from_slice(sentence.as_bytes())?;
    out.push(b'\n')?;
    excerpt.write(out)?;
    match help {
        Some(help) => {
            let advice = help.to_string(alloc)?;
            excerpt.write_help(out, advice.as_str())
        }
        None => Ok(()),
    }
}
