// What is said of a violated rule of stages.
ghost use Rattle.std.specs.Prelude.{◌≡◌};
ghost use Rattle.kp_view_excerpt.specs.Tokens.{token_at};
ghost use Rattle.kp_view_message.specs.{Earlier.earlier_line, Earlier.first_result, Helps.stage_help};

use crate::earlier::{earlier_line, first_result};
use kp_ast::Job;
use kp_base::Finding;
use kp_stage::{Counted, StageFault};
use kp_view_excerpt::token_at;
use kp_view_help::{Help, Word, sentences};
use std::fmt::{self, Display};

/// A violation of a rule of stages, with what its sentence prints of the text.
#[derive(Clone, Copy)]
pub struct StageMessage<'t> {
    pub fault: StageFault,
    /// The token at the place of the violation: the name, where the fault is of one.
    pub name: Word<'t>,
    /// The first result of a target that has a second one.
    pub first: Word<'t>,
    /// The line of the statement or the declaration that the fault conflicts with.
    pub line: u32,
}

impl<'t> StageMessage<'t> {
    /// What is said of a finding in the job that this text describes.
    pub fn of(text: &'t [u8], job: &'t Job, finding: Finding<StageFault>) -> StageMessage<'t>
        ensures fault { result.fault ≡ finding.fault }
        ensures name { result.name.0.now ≡ token_at text.now finding.place }
        ensures first { result.first.0.now ≡ first_result job.now finding.fault }
        ensures line { result.line ≡ earlier_line job.now (token_at text.now finding.place) finding.place finding.fault }
    {
        let Finding { place, fault } = finding;
        let name = token_at(text, place);
        StageMessage {
            fault,
            name: Word(name),
            first: Word(first_result(job, fault)),
            line: earlier_line(job, name, place, fault),
        }
    }

    // What helps, if anything is known to.
    pub(crate) fn help(&self) -> Option<Help<'t>>
        ensures { result ≡ stage_help self.now }
    {
        let StageMessage {
            fault,
            name,
            first,
            line,
        } = *self;
        Some(match fault {
            StageFault::FewBlocks { blocks, .. } => Help::EmptyStage(blocks),
            StageFault::NeverPut => Help::PutIt(name),
            StageFault::PutAgain { .. } => Help::OnePut,
            StageFault::UsedEarly { put, here, .. } if put == here => Help::SameStage(put),
            StageFault::ReadLate { .. } => Help::ReadEarlier,
            StageFault::PutLate { .. } => Help::PutBefore,
            StageFault::SetLate { here: stage, write } => Help::WriteLater { line, stage, write },
            StageFault::SetAgain { .. } => Help::OneSet(name),
            StageFault::AimedAgain { .. } => Help::OneAim(name),
            StageFault::SecondResult { .. } => Help::OneResult(first),
            StageFault::EarlyWrite { .. } => Help::NotWritten,
            StageFault::EarlySample { .. } => Help::NotSampled,
            StageFault::SampleElsewhere { .. } => Help::SamplePipe,
            _ => return None,
        })
    }
}

impl<'t> Display for StageMessage<'t> {
    fn fmt<W: fmt::Write>(&self, f: &mut fmt::Formatter<W>) -> fmt::Result {
        let StageMessage {
            fault,
            name,
            first,
            line,
        } = self;
        sentences!(f, fault, {
            StageFault::StageCount { stages } => "a machine has 2 to 12 stages, not {stages}",
            StageFault::FewBlocks { stages, blocks } =>
                "{stages} stages are declared, but there are {blocks} blocks",
            StageFault::BlockNumber { found, wanted } =>
                "blocks stand in order: this is stage {wanted}, not {found}",
            StageFault::BlockBeyond { stages } =>
                "only {stages} stages are declared; this is one more",
            StageFault::NoStage { found, stages } =>
                "there is no stage {found}: the stages are 0 to {}" (stages.saturating_sub(1)),
            StageFault::NeverPut => "the pipe `{name}` is never put",
            StageFault::PutAgain { .. } =>
                "the pipe `{name}` is put a second time; the first is in line {line}",
            StageFault::UsedEarly { put, here, .. } =>
                "the pipe `{name}` is put in stage {put} (line {line}), and can be used in later stages only; this is stage {here}",
            StageFault::ReadLate { write, .. } =>
                "`{name}` is written in stage {write} (line {line}), and can't be read in a later stage",
            StageFault::PutLate { put, write } =>
                "the pipe `{name}` is put in stage {put}, which isn't before the write stage {write}",
            StageFault::SetLate { write, .. } =>
                "`{name}` is written at the end of stage {write} (line {line}), and can't be set later",
            StageFault::SetAgain { .. } =>
                "`{name}` is set a second time in this stage; the first is in line {line}",
            StageFault::AimedAgain { .. } => "the hint `{name}` is aimed already in line {line}",
            StageFault::SecondResult { .. } =>
                "`{name}` has a result already: `{first}` (line {line})",
            StageFault::GuessedFile => "`{name}` is a file, and only a register can be guessed",
            StageFault::GuessWithoutResult =>
                "`{name}` has no result: it never changes, and there is nothing to guess",
            StageFault::GuessLate { write, here } =>
                "`{name}` is written in stage {write}; a guess stands at least two stages before, and this is stage {here}",
            StageFault::EarlyWrite { top, .. } =>
                "beside a guess of a register that is written in stage {top}, a result is written in stage {} at the earliest" (top.saturating_sub(1)),
            StageFault::HintAsValue => "`{name}` is a hint, and counts in `guess` and `aim` alone",
            StageFault::TooLarge =>
                "with this statement the expressions of the machine, functions written out, have more than 100,000 parts",
            StageFault::TooMany(counted) => "a machine has at most {}" (most(*counted)),
            StageFault::SampleElsewhere { stage, .. } =>
                "the sample `{name}` is seen in stage {stage} alone (line {line})",
            StageFault::EarlySample { top, .. } =>
                "beside a guess of a register that is written in stage {top}, a sample is taken in stage {} at the earliest" (top.saturating_sub(1)),
        })
    }
}

// The most that there may be.
fn most(counted: Counted) -> &'static str {
    match counted {
        Counted::Registers => "64 registers",
        Counted::Files => "16 files",
        Counted::Pipes => "128 pipes",
        Counted::Results => "64 results",
        Counted::Hints => "16 hints",
        Counted::Functions => "64 functions",
        Counted::Reads => "256 reads",
        Counted::Guesses => "8 guesses",
        Counted::Samples => "16 samples",
    }
}
