// The text for a job.
ghost use Rattle.std.specs.Prelude.{◌≡◌, ◌≤◌, length, Err, IfOk};
ghost use Rattle.kp_frontend.specs.Judging.{most_bytes, JudgesHeadText};
ghost use Rattle.kp_synth_registers.specs.Keys.{keys_of};
ghost use Rattle.kp_synth.specs.Known.{HasStages};
ghost use Rattle.kp_core_ports.specs.{Ports.ports_of, Ports.AllExist, Core.core_text};
ghost use Rattle.kp_wires.specs.{Comments.commented_text, Table.wires_of, Texts.named_lines, Texts.wires_text};
ghost use Rattle.kp_core.specs.Due.{DueOfHead, DueOfLines, IsCoreOf};
ghost use Rattle.kp_core.specs.{Answers.text_said, declared.request.Form.Form};

use crate::answer::{Answer, Said};
use crate::{Form, message_of};
use kp_base::{NoMemory, Refusal, Refused};
use kp_core_ports::{Port, PortsRefused, core_text, names_text, read_ports};
use kp_design::Layout;
use kp_frontend::{Accepted, Head, judge_head};
use kp_synth::{Synthesis, synth_stages};
use kp_view_explain::{Explanation, explain_head};
use kp_vlog::round_trip::a_canonical_text_denotes_its_netlist;
use kp_wires::{commented_text, named_lines, wires_of, wires_text};
use std::alloc::Global;

/// What is to be written for an input that is not too long, under the name of its file. The only error is out of memory.
pub fn of_input(alloc: Global, form: Form, file: &[u8], text: &[u8]) -> Result<Answer, NoMemory>
    requires { length text.now ≤ most_bytes }
    ensures due { IfOk result (λ a. DueOfHead form file.now text.now a.status (text_said a.said)) }
    ensures low { IfOk result (λ a. a.status ≤ 2) }
{
    match judge_head(alloc, text) {
        Ok(head) => {
            let answer = of_head(alloc, form, file, text, &head)?;
            drop(head);
            Ok(answer)
        }
        Err(Refused::Rule(refusal)) => Ok(explained(alloc, file, text, refusal)?),
        Err(Refused::NoMemory) => Err(NoMemory),
    }
}

// The same for a job that violates this rule.
fn explained(alloc: Global, file: &[u8], text: &[u8], refusal: Refusal) -> Result<Answer, NoMemory>
    requires short { length text.now ≤ most_bytes }
    requires judged { JudgesHeadText text.now (Err refusal) }
    ensures due { IfOk result (λ a. (form : Form) → DueOfHead form file.now text.now a.status (text_said a.said)) }
    ensures low { IfOk result (λ a. a.status ≤ 2) }
{
    let Explanation { status, text } = explain_head(alloc, file, text, refusal)?;
    Ok(Answer {
        status,
        said: Said::Made(text),
    })
}

// The same for a job that violates none.
fn of_head(
    alloc: Global,
    form: Form,
    file: &[u8],
    text: &[u8],
    head: &Head,
) -> Result<Answer, NoMemory>
    requires short { length text.now ≤ most_bytes }
    requires within { head.now.rest ≤ length text.now }
    ensures low { IfOk result (λ a. a.status ≤ 2) }
    ensures due { IfOk result (λ a. DueOfLines form file.now text.now head.now.job.design.job (ports_of head.now.job.design.job text.now head.now.rest) a.status (text_said a.said)) }
{
    let layout = Layout::of(alloc, &head.job.design)?;
    match read_ports(alloc, &layout, text, head.rest) {
        Ok(ports) => Ok(Answer {
            status: 0,
            said: Said::Made(job_text(alloc, form, &head.job, &layout, ports.as_slice())?),
        }),
        Err(PortsRefused::Rule(refusal)) => Ok(Answer {
            status: 2,
            said: Said::Made(message_of(alloc, file, text, refusal)?),
        }),
        Err(PortsRefused::NoMemory) => Err(NoMemory),
    }
}

// The module with these ports, or a table of it.
fn job_text(
    alloc: Global,
    form: Form,
    job: &Accepted,
    layout: &Layout<'_>,
    ports: &[Port],
) -> Result<Vec<u8>, NoMemory>
    requires layout { layout.now ≡ job.now.design.job }
    requires exist { AllExist layout.now ports.now }
    ensures { IfOk result (λ text. IsCoreOf form job.now.design.job ports.now text.items) }
{
    // The invariant of the type, for the proof only.
    let _kept = job.design.job();
    a_canonical_text_denotes_its_netlist();
    let built = synth_stages(alloc, &job.design, &job.sections.start)?;
    // The invariant of the netlist.
    let _parts = built.net.parts();
    match form {
        Form::Module => core_text(alloc, &built.net, layout, ports, b""),
        Form::Names => names_text(alloc, &built.net, layout),
        Form::Wires => listed(alloc, layout, &built),
        Form::Named => named(alloc, layout, ports, &built),
        Form::Comments => commented(alloc, layout, ports, &built),
    }
}

// The table of the wires of a netlist, as text.
fn listed(alloc: Global, layout: &Layout<'_>, built: &Synthesis<'_>) -> Result<Vec<u8>, NoMemory>
    requires stages { HasStages built.now.net layout.now built.now.outcomes.items built.now.names.items }
    ensures { IfOk result (λ text. text.items ≡ wires_text layout.now (wires_of built.now.net layout.now built.now.outcomes.items built.now.names.items)) }
{
    let wires = wires_of(alloc, layout, built)?;
    wires_text(alloc, layout.job(), wires.as_slice())
}

// The module with these ports, and with names for the registers and wires of its stages.
fn named(
    alloc: Global,
    layout: &Layout<'_>,
    ports: &[Port],
    built: &Synthesis<'_>,
) -> Result<Vec<u8>, NoMemory>
    requires stages { HasStages built.now.net layout.now built.now.outcomes.items built.now.names.items }
    requires regs { length built.now.net.parts.regs ≡ length (keys_of layout.now) }
    requires exist { AllExist layout.now ports.now }
    ensures { IfOk result (λ text. text.items
        ≡ core_text built.now.net layout.now ports.now (named_lines built.now.net layout.now (wires_of built.now.net layout.now built.now.outcomes.items built.now.names.items))) }
{
    let wires = wires_of(alloc, layout, built)?;
    let lines = named_lines(alloc, &built.net, layout, wires.as_slice())?;
    core_text(alloc, &built.net, layout, ports, lines.as_slice())
}

// The module with these ports, and with comments on its registers and on the wires of its stages.
fn commented(
    alloc: Global,
    layout: &Layout<'_>,
    ports: &[Port],
    built: &Synthesis<'_>,
) -> Result<Vec<u8>, NoMemory>
    requires stages { HasStages built.now.net layout.now built.now.outcomes.items built.now.names.items }
    requires regs { length built.now.net.parts.regs ≡ length (keys_of layout.now) }
    requires exist { AllExist layout.now ports.now }
    ensures { IfOk result (λ text. text.items
        ≡ commented_text built.now.net layout.now ports.now (wires_of built.now.net layout.now built.now.outcomes.items built.now.names.items)) }
{
    let wires = wires_of(alloc, layout, built)?;
    commented_text(alloc, &built.net, layout, ports, wires.as_slice())
}
