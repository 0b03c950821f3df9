// Why a Verilog text is rejected.
ghost use Rattle.std.specs.Prelude.{◌≡◌, ◌≤◌, ◌-◌, ◌^◌, ℕ, length, OnOk};
ghost use Rattle.kp_view_excerpt.specs.{Excerpts.IsExcerpt, Lines.line_at, Notes.AppendsNoteAt};
ghost use Rattle.kp_view_verilog.specs.{Marks.Marks, Marks.from_place, Marks.token_length, Marks.unread_length};

use crate::lines::{from_place, offset_at, token_length, unread_length};
use crate::syntax::{found, index_of, no_token};
use kp_base::{NoMemory, Place, Refusal, Refused};
use kp_view_excerpt::{Excerpt, excerpt_at, write_fault};
use kp_view_verilog_faults::{ModuleMessage, ReadingFault, Source, following};
use kp_vlog::{VModule, VToken, vlex};
use kp_vread_parse::vparse;
use kp_vread_rules::module_findings;
use std::alloc::Global;

/// Appends what follows the head of one of V1 to V5 for a text that begins at an offset: the message, the excerpt at its place, and what
/// helps. The only error is out of memory; what `out` contains then isn't specified.
pub fn write_verilog(
    alloc: Global,
    out: &mut Vec<u8>,
    text: &[u8],
    from: u32,
    refusal: Refusal,
) -> Result<(), NoMemory>
    requires within { from ≤ length text.now }
    requires fits { length text.now ≤ 2 ^ 32 - 2 }
    ensures { OnOk result ((count : ℕ) × Marks text.now from refusal.place count × AppendsNoteAt text.now refusal.place count out.old.items out.new.items) }
{
    match vlex(alloc, text, from) {
        Err(Refused::NoMemory) => Err(NoMemory),
        Err(Refused::Rule(_)) => write_no_token(alloc, out, text, refusal),
        Ok(tokens) => match vparse(alloc, text, tokens.as_slice()) {
            Err(Refused::NoMemory) => Err(NoMemory),
            Err(Refused::Rule(_)) => {
                write_wrong_token(alloc, out, text, tokens.as_slice(), refusal)
            }
            Ok(module) => {
                let end = write_of_module(alloc, out, text, &module, refusal);
                drop(module);
                end
            }
        },
    }
}

// V1.
fn write_no_token(
    alloc: Global,
    out: &mut Vec<u8>,
    text: &[u8],
    refusal: Refusal,
) -> Result<(), NoMemory>
    ensures { OnOk result (AppendsNoteAt text.now refusal.place (unread_length (from_place text.now refusal.place)) out.old.items out.new.items) }
{
    let rest = from_place(text, refusal.place);
    let fault = no_token(rest);
    let excerpt = excerpt_at(text, refusal.place, unread_length(rest));
    write_fault(alloc, out, &excerpt, &fault, &fault.help())
}

// V2.
fn write_wrong_token(
    alloc: Global,
    out: &mut Vec<u8>,
    text: &[u8],
    tokens: &[VToken],
    refusal: Refusal,
) -> Result<(), NoMemory>
    ensures { OnOk result (AppendsNoteAt text.now refusal.place (token_length (from_place text.now refusal.place)) out.old.items out.new.items) }
{
    let number = index_of(tokens, offset_at(text, refusal.place));
    let found = found(text, tokens, number);
    let excerpt = excerpt_of(text, refusal.place);
    let expected = following(alloc, &tokens[..number])?;
    let fault = ReadingFault::Unexpected { found, expected };
    write_fault(alloc, out, &excerpt, &fault, &fault.help())
}

// V3 to V5: the first finding in the module.
fn write_of_module(
    alloc: Global,
    out: &mut Vec<u8>,
    text: &[u8],
    module: &VModule,
    refusal: Refusal,
) -> Result<(), NoMemory>
    requires { length text.now ≤ 2 ^ 32 - 2 }
    ensures { OnOk result (AppendsNoteAt text.now refusal.place (token_length (from_place text.now refusal.place)) out.old.items out.new.items) }
{
    let excerpt = excerpt_of(text, refusal.place);
    let findings = module_findings(alloc, text, module, 1)?;
    match findings.as_slice() {
        [finding, ..] => {
            let source = Source(text);
            let message = ModuleMessage {
                source,
                name: source.name_at(offset_at(text, finding.place)),
                fault: finding.fault,
            };
            write_fault(alloc, out, &excerpt, &message, &message.help())
        }
        // Not reached, since the module violates a rule.
        [] => {
            let fault = ReadingFault::Unknown;
            write_fault(alloc, out, &excerpt, &fault, &fault.help())
        }
    }
}

// The excerpt with a mark under the token at the place.
fn excerpt_of<'t>(text: &'t [u8], place: Place) -> Excerpt<'t>
    ensures { IsExcerpt result place.line (line_at text.now place.line) (place.col - 1) (token_length (from_place text.now place)) }
{
    excerpt_at(text, place, token_length(from_place(text, place)))
}
