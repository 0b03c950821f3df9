// The module of a text, from its tokens.
ghost use Rattle.std.specs.Prelude.{◌≡◌, ◌≤◌, ◌-◌, ◌^◌, length, drop, map, take, All, MatchResult, Ok, Err};
ghost use Rattle.kp_base.specs.Place.{place_after};
ghost use Rattle.kp_vlog.specs.Outcome.{StandsIn, token_of};
ghost use Rattle.kp_vlog.specs.Verdict.{offset_of};
ghost use Rattle.kp_vread_parse.specs.Answer.{AnswersModule};

use crate::fault::Fault;
use crate::module::module;
use crate::tokens::Tokens;
use kp_base::{Place, Refusal, Refused, place_of};
use kp_vlog::{VModule, VToken};
use std::alloc::Global;

/// The module of a text, from the tokens that `vlex` returns for it.
///
/// Errors: V2 at the token after the longest prefix that some module has, or at the end of the text; and out of memory.
pub fn vparse(alloc: Global, text: &[u8], tokens: &[VToken]) -> Result<VModule, Refused>
    requires stand { All (StandsIn text.now) tokens.now }
    requires fits { length text.now ≤ 2 ^ 32 - 2 }
    ensures { MatchResult result (λ m. AnswersModule text.now tokens.now (Ok m)) (λ refused. AnswersModule text.now tokens.now (Err refused)) }
{
    match module(alloc, &Tokens::new(text, tokens)) {
        Ok(module) => Ok(module),
        Err(Fault::NoMemory) => Err(Refused::NoMemory),
        Err(Fault::Wrong(at)) => Err(Refused::Rule(Refusal::v(2, place(text, tokens, at)))),
    }
}

// The position of a token, or of the end of the text.
fn place(text: &[u8], tokens: &[VToken], at: usize) -> Place
    requires stand { All (StandsIn text.now) tokens.now }
    requires fits { length text.now ≤ 2 ^ 32 - 2 }
    ensures { result ≡ place_after (take (offset_of (length text.now) (drop at (map (token_of text.now) tokens.now))) text.now) }
{
    match tokens.get(at) {
        Some(token) => place_of(text, token.start),
        None => place_of(text, text.len() as u32),
    }
}
