// Why a netlist isn't one of a job: V6.
ghost use Rattle.std.specs.Prelude.{OnOk};
ghost use Rattle.kp_vread.specs.Matching.{not_of_job};
ghost use Rattle.kp_view_excerpt.specs.{Lines.from_place, Notes.AppendsNoteAt, Tokens.token_length};

use kp_ast::{Decl, Job, Name};
use kp_base::NoMemory;
use kp_net::{Netlist, Parts};
use kp_view_excerpt::{Excerpt, write_fault};
use kp_view_help::{Line, Term, Terms, Word};
use kp_vread::Mismatch;
use std::alloc::Global;

/// Appends what follows the head of V6: how the netlist of a text differs from those of the job before it, the excerpt at the place, and what helps. The
/// only error is out of memory; what `out` contains then isn't specified.
pub fn write_other(
    alloc: Global,
    out: &mut Vec<u8>,
    text: &[u8],
    net: &Netlist,
    job: &Job,
    mismatch: Mismatch,
) -> Result<(), NoMemory>
    ensures { OnOk result (AppendsNoteAt text.now not_of_job.place (token_length (from_place text.now not_of_job.place)) out.old.items out.new.items) }
{
    // It has one, since the difference is one of this netlist and this job.
    let fault = sentence(net.parts(), job.decls.as_slice(), mismatch).unwrap_or(Line::plain(
        "the module isn't one of the job",
    ));
    let excerpt = Excerpt::at(text, mismatch.refusal().place);
    let help = Line::plain(
        "the module has a register `r_X` for each register X of the job, a file `f_F` for each file F, and a port `s_Q` for each sample Q",
    );
    write_fault(alloc, out, &excerpt, &fault, &Some(help))
}

fn sentence<'t>(parts: &'t Parts, decls: &'t [Decl], mismatch: Mismatch) -> Option<Line<'t>> {
    match mismatch {
        Mismatch::Stages { bits, stages } => Some(Line {
            text: "`ext` of the module has {}, and the job has {} stages",
            terms: Terms::Two(Term::Bits(u64::from(bits)), Term::Number(stages)),
        }),
        Mismatch::Absent { decl } => absent(decls.get(decl)?),
        Mismatch::OtherPorts { count } => {
            let ports = parts.samples.as_slice();
            let port = ports.get(ports.len().saturating_sub(count))?;
            Some(Line::of(
                "the port `{}` of the module is of no sample of the job",
                Word(port.name.bytes()),
            ))
        }
        Mismatch::OtherRegister { register } => {
            let register = parts.regs.as_slice().get(register)?;
            Some(Line::of(
                "the register `{}` of the module is no register of the job",
                Word(register.name.bytes()),
            ))
        }
        Mismatch::OtherFile { file } => {
            let file = parts.files.as_slice().get(file)?;
            Some(Line::of(
                "the file `{}` of the module is no file of the job",
                Word(file.name.bytes()),
            ))
        }
    }
}

// What is declared, and isn't in the module.
fn absent(decl: &Decl) -> Option<Line<'_>> {
    match decl {
        Decl::Sample(named, width, _) => Some(sized(
            "the module has no port `s_{}` of {} for the sample `{}`",
            &named.name,
            width.value,
        )),
        Decl::Reg(named, width, _) => Some(sized(
            "the module has no register `r_{}` of {} for the register `{}`",
            &named.name,
            width.value,
        )),
        Decl::File(named, width, address) => {
            let name = Term::Word(Word::of(&named.name));
            Some(Line {
                text: "the module has no file `f_{}` with words of {} and addresses of {} for the file `{}`",
                terms: Terms::Four(
                    name,
                    Term::Bits(width.value),
                    Term::Bits(address.value),
                    name,
                ),
            })
        }
        _ => None,
    }
}

fn sized<'t>(text: &'static str, name: &'t Name, width: u64) -> Line<'t> {
    let name = Term::Word(Word::of(name));
    let terms = Terms::Three(name, Term::Bits(width), name);
    Line { text, terms }
}
