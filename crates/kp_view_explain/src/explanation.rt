// What is said of a text.
ghost use Rattle.std.specs.Prelude.{◌≡◌, [], ◌++◌, IfOk};
ghost use Rattle.kp_view_texts.specs.Heads.{rule_head};

use kp_base::{NoMemory, Refusal};
use kp_view_texts::write_head;
use std::alloc::Global;

/// What is said of a text: the status, and the text for standard error.
#[derive(Drop)]
pub struct Explanation {
    pub status: u8,
    pub text: Vec<u8>,
}

impl Explanation {
    /// Nothing is said.
    pub(crate) fn silent(alloc: Global) -> Explanation
        ensures status { result.status ≡ 0 }
        ensures text { result.text.items ≡ [] }
    {
        Explanation {
            status: 0,
            text: Vec::new(alloc),
        }
    }

    /// The text violates a rule. What follows the head is given.
    pub(crate) fn refused(
        alloc: Global,
        file: &[u8],
        refusal: Refusal,
        facts: &[u8],
    ) -> Result<Explanation, NoMemory>
        ensures status { IfOk result (λ e. e.status ≡ 2) }
        ensures whole { IfOk result (λ e. e.text.items ≡ rule_head file.now refusal ++ facts.now) }
    {
        let mut text = Vec::new(alloc);
        write_head(&mut text, file, refusal)?;
        text.extend_from_slice(facts)?;
        Ok(Explanation { status: 2, text })
    }
}
