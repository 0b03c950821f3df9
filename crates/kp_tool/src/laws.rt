//! Laws about the definitions of this crate. Each function does nothing: its contract is the law.
ghost use Rattle.std.specs.Prelude.{◌≡◌, ℕ, List, Some};
ghost use Rattle.kp_words.specs.{declared.commands.Command.Command, Commands.command_of};
ghost use Rattle.kp_words.specs.declared.commands.{Command.TheVariants.OnJob, JobCommand.TheVariants.Pipe};
ghost use Rattle.kp_tool.specs.{Due.Due, Due.DueFor, Promises.Promises};

use kp_vcd::round_trip::the_dump_of_a_job_is_read_back;

/// The arguments and an input have exactly one specified outcome: one status, and one text with it. For `pipe`, which may print any netlist that
/// implements the job, only the status is unique; that such a netlist exists is proved by synthesis.
pub fn one_outcome_is_due()
    ensures some { (words : List (List ℕ)) (input : List ℕ) → (command_of words ≡ Some (OnJob Pipe) → ⊥)
        → (status : ℕ) × (text : List ℕ) × Due words input status text }
    ensures one { (words : List (List ℕ)) (input : List ℕ) (s t : ℕ) (x y : List ℕ) → (command_of words ≡ Some (OnJob Pipe) → ⊥)
        → Due words input s x → Due words input t y → (s ≡ t) × (x ≡ y) }
    ensures status { (words : List (List ℕ)) (input : List ℕ) (s t : ℕ) (x y : List ℕ) → Due words input s x → Due words input t y → s ≡ t }
{}

/// What is promised of a command follows from its specified outcome: whatever has this status and this text keeps the promise.
pub fn what_is_promised_follows()
    ensures { (command : Command) (status : ℕ) (input text : List ℕ) → DueFor (Some command) input status text → Promises command status input text }
{
    the_dump_of_a_job_is_read_back();
}
