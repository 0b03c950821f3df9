//! What follows from the recorded states.
ghost use Rattle.std.specs.Prelude.{◌≡◌, ℕ};
ghost use Rattle.kp_report.specs.States.{State};
ghost use Rattle.kp_page.specs.Claims.{listed_last};

/// All states follow from what is recorded: in each cycle the value of a word is the one that was listed last, or 0 if none was.
pub fn listed_words_give_the_states()
    ensures { (visible : ℕ → State) (T t a : ℕ) → listed_last visible T t a ≡ visible T t a }
{}
