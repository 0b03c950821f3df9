// Complete jobs.
ghost use Rattle.std.specs.Prelude.{◌≡◌, ◌≤◌, ◌+◌, ◌-◌, ◌^◌, [], ◌∷◌, Ok, length, drop, MatchResult, IfOk};
ghost use Rattle.kp_grammar.specs.{Grammar.Nonterminal, Machine.Accepts};
ghost use Rattle.kp_lex.specs.Text.{HasOutcome};
ghost use Rattle.kp_parse_grammar.specs.Reading.{JobGoes, FaultIs, Turns, Ends};
ghost use Rattle.kp_parse_grammar.specs.Language.{job as job_value, named as named_value, decls as decls_value, blocks as blocks_value, perhaps_images, perhaps_stalls, perhaps_inputs, at as state_at, JOB};
ghost use Rattle.kp_parse_grammar.specs.inner.Stretch.{TurnsAll, EndsAll};
ghost use Rattle.kp_base.specs.declared.refusal.Refused.TheVariants as refused;
ghost use Rattle.kp_ast.specs.declared.tree.Job.{Job as JobTree};
ghost use Rattle.kp_parse.specs.inner.Stretches.{title_symbols, part_symbols, section_symbols};
ghost use Rattle.kp_parse.specs.Sentence.{IsTree, AnswersTree, place_from};

use crate::declaration::{declarations, setting};
use crate::pair::name_before;
use crate::sections::{image_section, input_section, stall_section};
use crate::stage::{stage, stages};
use kp_ast::{Block, Decl, Image, Inputs, Job, Named, Stalls};
use kp_base::{List, Place, Refusal, Refused, place_of};
use kp_lex::{Keyword, Lexed, Mark, Token};
use kp_parse_grammar::{Fault, Tokens};
use std::alloc::Global;

/// A job, and the offset after its `end`.
#[derive(Drop)]
pub struct Parsed {
    pub job: Job,
    pub rest: u32,
}

fn job(alloc: Global, tokens: &Tokens<'_>) -> Result<Job, Fault>
    ensures goes { MatchResult result (λ j. JobGoes tokens.now (Accepts (state_at [] (job_value j ∷ [])))) (FaultIs tokens.now (JobGoes tokens.now)) }
    ensures few { IfOk result (λ j. (length j.decls ≤ length tokens.now) × (length j.blocks ≤ length tokens.now)) }
{
    let (job, next) = machine(alloc, tokens)?;
    match tokens.nothing_follows(next) {
        Ok(()) => Ok(job),
        Err(fault) => {
            drop(job);
            Err(fault)
        }
    }
}

// The job at the start of the text, and the number of the token after its `end`.
fn machine(alloc: Global, tokens: &Tokens<'_>) -> Result<(Job, usize), Fault>
    ensures goes { MatchResult result (λ x. Turns tokens.now (Nonterminal JOB) [] (job_value x.0 ∷ []) 0 x.1 0) (Ends tokens.now (Nonterminal JOB) [] 0) }
    ensures few { IfOk result (λ x. (length x.0.decls ≤ length tokens.now) × (length x.0.blocks ≤ length tokens.now)) }
{
    let (name, next) = title(alloc, tokens)?;
    let (stages, next) = setting(tokens, Keyword::Stages, next)?;
    let (decls, blocks, next) = parts(alloc, tokens, next)?;
    let (image, stalls, inputs, next) = sections(alloc, tokens, next)?;
    let job = Job {
        name,
        stages,
        decls: List::new(decls),
        blocks: List::new(blocks),
        image,
        stalls,
        inputs,
    };
    Ok((job, next))
}

// `machine name;`
fn title(alloc: Global, tokens: &Tokens<'_>) -> Result<(Named, usize), Fault>
    ensures { MatchResult result (λ x. TurnsAll tokens.now title_symbols (named_value x.0 ∷ []) 0 x.1 1) (EndsAll tokens.now title_symbols 0) }
{
    let (_machine, next) = tokens.keyword(Keyword::Machine, 0)?;
    name_before(alloc, tokens, Mark::Semicolon, next)
}

// The declarations and the stages. Each consumes at least one token.
fn parts(
    alloc: Global,
    tokens: &Tokens<'_>,
    at: usize,
) -> Result<(Vec<Decl>, Vec<Block>, usize), Fault>
    ensures { MatchResult result (λ x. TurnsAll tokens.now part_symbols (blocks_value x.1.items ∷ decls_value x.0.items ∷ []) at x.2 (length x.0.items + length x.1.items)) (EndsAll tokens.now part_symbols at) }
{
    let (decls, next) = declarations(alloc, tokens, at)?;
    let (first, next) = stage(alloc, tokens, next)?;
    let (blocks, next) = stages(alloc, tokens, first, next)?;
    Ok((decls, blocks, next))
}

// The sections, and `end`.
fn sections(
    alloc: Global,
    tokens: &Tokens<'_>,
    at: usize,
) -> Result<
    (
        Option<List<Image>>,
        Option<List<Stalls>>,
        Option<List<Inputs>>,
        usize,
    ),
    Fault,
>
    ensures { MatchResult result (λ x. TurnsAll tokens.now section_symbols (perhaps_inputs x.2 ∷ perhaps_stalls x.1 ∷ perhaps_images x.0 ∷ []) at x.3 1) (EndsAll tokens.now section_symbols at) }
{
    let (image, next) = image_section(alloc, tokens, at)?;
    let (stalls, next) = stall_section(alloc, tokens, next)?;
    let (inputs, next) = input_section(alloc, tokens, next)?;
    let (_end, next) = tokens.keyword(Keyword::End, next)?;
    Ok((image, stalls, inputs, next))
}

/// The tree of a job, from the tokens that `lex` returns for the text.
///
/// Errors: E4 at the token after the longest prefix with which some job starts, or at the end of the text, and E27 at
/// the first token that exceeds the nesting count of 64, whichever comes first; or out of memory.
pub fn parse(alloc: Global, lexed: &Lexed, text: &[u8]) -> Result<Parsed, Refused>
    requires lexed { HasOutcome text.now (Ok lexed.now) }
    requires fits { length text.now ≤ 2 ^ 32 - 2 }
    // The tree of the sentence, or the first violated rule.
    ensures answer { AnswersTree text.now lexed.now.tokens lexed.now.rest result }

    // Each job with these tokens is the returned one, unless an allocation fails.
    ensures only { (j : JobTree) → IsTree text.now lexed.now.tokens j → MatchResult result (λ p. p.job ≡ j) (λ e. e ≡ refused.NoMemory) }

    // A declaration and a stage each have at least one byte of the text.
    ensures few { IfOk result (λ p. (length p.job.decls ≤ length text.now) × (length p.job.blocks ≤ length text.now)) }
{
    let all = lexed.tokens.as_slice();
    match job(alloc, &Tokens::new(text, all)) {
        Ok(job) => Ok(Parsed {
            job,
            rest: lexed.rest,
        }),
        Err(Fault::NoMemory) => Err(Refused::NoMemory),
        Err(Fault::Wrong(at)) => Err(Refused::Rule(Refusal::e(4, place(text, all, at)))),
        Err(Fault::TooDeep(at)) => Err(Refused::Rule(Refusal::e(27, place(text, all, at)))),
    }
}

// The position of a token, or of the end of the text.
fn place(text: &[u8], tokens: &[Token], at: usize) -> Place
    requires { length text.now ≤ 2 ^ 32 - 2 }
    ensures { result ≡ place_from text.now (drop at tokens.now) }
{
    match tokens.get(at) {
        Some(token) => token.place,
        None => place_of(text, text.len() as u32),
    }
}
