// What is shown of a job.
ghost use Rattle.std.specs.Prelude.{◌≡◌, ◌≤◌, ℕ, All, IfOk, List, Ok, Option, length, true};
ghost use Rattle.kp_frontend.specs.Judging.{JudgesText};
ghost use Rattle.kp_lex.specs.{Text.HasOutcome, declared.token.Lexed.Lexed};
ghost use Rattle.kp_view_words.specs.{Asked.order_seen, Asked.task_seen, Words.label_for, Words.show};
ghost use Rattle.kp_diagram_labels.specs.Labels.{IsLabel, labels_of};
ghost use Rattle.kp_view.specs.Due.{DueFor, DueOfJob, DueOfOrder, Draws, names_fit};
ghost use Rattle.kp_view.specs.Ends.{Ends};

use crate::depth::depth;
use crate::diagram::diagram;
use crate::failure::{Complaint, Failure, Stop};
use crate::labelled::labelled;
use crate::listed::listed_in;
use crate::page::page;
use crate::paths::paths;
use crate::paths_svg::paths_svg;
use crate::stalls::stalls;
use crate::svg::svg;
use crate::window::window;
use kp_base::{NoMemory, Refused, Run, Sink};
use kp_design::Layout;
use kp_diagram_labels::{Label, LabelsRefused, labels_in};
use kp_diagram_run::laws::a_figure_shows_the_run;
use kp_diagram_text::are_names;
use kp_directive::{DirectivesRefused, bytes_of, message_of};
use kp_frontend::{Accepted, judge};
use kp_lex::laws::tokens_stand_in_their_text;
use kp_lex::lex;
use kp_page::laws::listed_words_give_the_states;
use kp_paths::laws::{the_arrows_are_the_cells, the_cells_are_the_paths};
use kp_stalls_run::laws::the_lines_show_causes;
use kp_view_words::{Order, Task};
use std::alloc::Global;

/// Writes what is to be shown of the job of an input. The job is read and dropped here.
pub fn on_job<K: Sink>(
    alloc: Global,
    task: &Task<'_>,
    input: &[u8],
    out: &mut K,
) -> Result<(), Failure>
    requires { length input.now ≤ 16777216 }
    ensures { Ends K.held K.faults ⊥ (DueFor (show (task_seen task.now)) input.now) (task_seen task.now).file out.old out.new result }
{
    let job = judge(alloc, input)?;
    let end = of_job(alloc, task, input, &job, out);
    drop(job);
    end
}

// The same for a job that violates no rule, with the names of stages and the labels that its directives give.
fn of_job<K: Sink>(
    alloc: Global,
    task: &Task<'_>,
    input: &[u8],
    job: &Accepted,
    out: &mut K,
) -> Result<(), Failure>
    requires short { length input.now ≤ 16777216 }
    requires judged { JudgesText input.now (Ok job.now.design.job) }
    ensures { Ends K.held K.faults ⊥ (DueOfJob (task_seen task.now) input.now job.now.design.job) (task_seen task.now).file out.old out.new result }
{
    let end = end_of(alloc, input, job)?;
    match listed_in(alloc, input, end, job) {
        Ok(listed) => {
            let order = task
                .order
                .named(listed.names.as_slice())
                .labelled(bytes_of(input, listed.label));
            let done = of_order(alloc, &order, input, job, out);
            drop(listed);
            done
        }
        Err(DirectivesRefused::Rule(fault)) => {
            let said = message_of(alloc, input, fault)?;
            Err(Failure::Complained(Complaint::Misdirected(said)))
        }
        Err(DirectivesRefused::NoMemory) => Err(Failure::Stopped(Stop::NoMemory)),
    }
}

// The offset after the `end` of a job that violates no rule.
fn end_of(alloc: Global, input: &[u8], _job: &Accepted) -> Result<u32, NoMemory>
    requires short { length input.now ≤ 16777216 }
    requires judged { JudgesText input.now (Ok _job.now.design.job) }
    ensures end { IfOk result (λ end. (lexed : Lexed) × HasOutcome input.now (Ok lexed) × (end ≡ lexed.rest)) }
    ensures within { IfOk result (λ end. end ≤ length input.now) }
{
    tokens_stand_in_their_text();
    match lex(alloc, input) {
        Ok(lexed) => Ok(lexed.rest),
        Err(Refused::Rule(_)) => unreachable!(),
        Err(Refused::NoMemory) => Err(NoMemory),
    }
}

// The same for what is asked with these names.
fn of_order<K: Sink>(
    alloc: Global,
    order: &Order<'_>,
    input: &[u8],
    job: &Accepted,
    out: &mut K,
) -> Result<(), Failure>
    ensures { (file : Option (List ℕ)) → Ends K.held K.faults ⊥ (DueOfOrder (order_seen order.now) input.now job.now.design.job) file out.old out.new result }
{
    let stages = job.design.job().stages.value as u8;
    let names = order.names();
    if are_names(names, stages) {
        with_labels(alloc, order, input, job, out)
    } else {
        Err(Failure::Complained(Complaint::WrongNames(names.len(), stages)))
    }
}

// The same where the names are names for its stages: with the labels, if all are labels.
fn with_labels<K: Sink>(
    alloc: Global,
    order: &Order<'_>,
    input: &[u8],
    job: &Accepted,
    out: &mut K,
) -> Result<(), Failure>
    requires { names_fit (order_seen order.now) job.now.design.job ≡ true }
    ensures { (file : Option (List ℕ)) → Ends K.held K.faults ⊥ (DueOfOrder (order_seen order.now) input.now job.now.design.job) file out.old out.new result }
{
    let layout = Layout::of(alloc, &job.design)?;
    let text = order.label();
    let run = Run {
        at: 0,
        end: text.len() as u32,
    };
    match labels_in(alloc, &layout, text, run) {
        Ok(labels) => {
            let done = drawn(alloc, order, labels.as_slice(), input, job, out);
            drop(labels);
            done
        }
        Err(LabelsRefused::Word(word)) => {
            let said = copied(alloc, bytes_of(text, word))?;
            Err(Failure::Complained(Complaint::WrongLabel(said)))
        }
        Err(LabelsRefused::NoMemory) => Err(Failure::Stopped(Stop::NoMemory)),
    }
}

fn copied(alloc: Global, word: &[u8]) -> Result<Vec<u8>, NoMemory>
    ensures { IfOk result (λ said. said.items ≡ word.now) }
{
    Ok(Vec::from_slice(alloc, word)?)
}

// The same with these labels. Each word is an arm here.
fn drawn<K: Sink>(
    alloc: Global,
    order: &Order<'_>,
    labels: &[Label],
    input: &[u8],
    job: &Accepted,
    out: &mut K,
) -> Result<(), Failure>
    requires names { names_fit (order_seen order.now) job.now.design.job ≡ true }
    requires labels { labels_of job.now.design.job (label_for (order_seen order.now)) ≡ Ok labels.now }
    requires fit { All (IsLabel job.now.design.job (label_for (order_seen order.now))) labels.now }
    ensures { (file : Option (List ℕ)) → Ends K.held K.faults ⊥ (Draws (order_seen order.now) input.now job.now.design.job) file out.old out.new result }
{
    a_figure_shows_the_run(job);
    the_cells_are_the_paths();
    the_arrows_are_the_cells();
    listed_words_give_the_states();
    the_lines_show_causes(job);
    match order {
        Order::Diagram(run) => diagram(alloc, run, job, out),
        Order::Window(later) => window(alloc, later, job, out),
        Order::Labelled(shown) => labelled(alloc, shown, labels, job, out),
        Order::Svg(run) => svg(alloc, run, job, out),
        Order::Page(run) => page(alloc, run, input, job, out),
        Order::Paths(names) => paths(alloc, *names, job, out),
        Order::PathsSvg(names) => paths_svg(alloc, *names, job, out),
        Order::Stalls(cycles) => stalls(alloc, cycles, job, out),
        Order::Depth(memories) => depth(alloc, *memories, job, out),
    }
}
