// A sentence for each rule of descriptions.
ghost use Rattle.std.specs.Prelude.{◌≡◌};
ghost use Rattle.kp_view.specs.Texts.{sentence};

/// The sentences by the numbers of their rules. A number that is no rule of a job has none.
pub const SENTENCES: [&str; 38] = [
    "",
    "no token begins here, or a name has more than 64 bytes",
    "this is neither a number nor a literal, or the number is over 2^64-1",
    "the input has more than 16,777,216 bytes",
    "no description goes on with this token",
    "this name is already declared",
    "no such name is in scope",
    "a name of this kind can't be used here, or the number of arguments is wrong",
    "the width isn't 1 to 64",
    "the operands, or the branches of the choice, have different widths",
    "the value has another width than what it goes to",
    "the condition isn't one bit wide",
    "the slice or the extension doesn't fit the width of its operand",
    "the value of the literal doesn't fit its width",
    "the width of the address isn't 1 to 16, or isn't that of the file",
    "there aren't 2 to 12 stages, each with its block, or there is no such stage",
    "the pipe is never put, or put a second time",
    "the pipe is used in a stage that isn't after its put",
    "the target is read in a stage after its write stage",
    "the address or the enable isn't put in a stage before the write stage",
    "the result is set in a stage after its write stage",
    "the result is set twice in a stage, or the hint is aimed twice",
    "the target has a result already",
    "a guess needs a register with a result that is written at least two stages later",
    "the write stage is more than one stage before the last write stage of a guessed register",
    "a hint is used outside a guess and an aim",
    "the function isn't declared before this call",
    "more than 64 brackets and operators are open",
    "the machine is too large: its expanded size passes 100,000",
    "there are too many declarations of this kind",
    "the entry of the image names no register or file, or its address doesn't suit it",
    "the entry of the image has more words than fit",
    "there is no such stage, or the step is 0",
    "",
    "the sample is used in another stage than the one after its `at`",
    "the stage of the sample is more than one stage before the last write stage of a guessed register",
    "the entry of the inputs names no sample",
    "the step is 0",
];

/// The sentence of a rule.
pub fn sentence_of(number: u8) -> &'static str
    ensures { result.now ≡ sentence number }
{
    match SENTENCES.as_slice().get(usize::from(number)) {
        Some(sentence) => sentence,
        None => "",
    }
}
