//! The laws. `s` is the start state by target and address, `hints` the start values of the hints, `ins` the inputs of the
//! cycles: a stall word and sample values for each.
#![tactic(auto, using(crate::proofs::Proved::waiting))]

ghost use Rattle.std.specs.Prelude.{◌≡◌, ℕ, List};
ghost use Rattle.kp_pipeline.specs.Accepted.{Accepted};
ghost use Rattle.kp_pipeline.specs.Machine.{Machine};
ghost use Rattle.kp_pipeline.specs.Pipeline.{Inputs};
ghost use Rattle.kp_pipeline.specs.Rows.{pipe, taken};
ghost use Rattle.kp_pipeline.specs.Timeline.{no_samples, start_hold};
ghost use Rattle.kp_pipeline.specs.SpeculativeTimeline.{IsWithoutGuess, timeline_rows, timeline_rows_taking};
ghost use Rattle.kp_pipeline.specs.RightPath.{NoWrongGuess, WaitsOnlyWhereItMust, first_moment};

/// As long as no wrong guess is made, the rows are those of the timeline, in which a guessed read never waits:
/// correct guesses cost nothing.
pub fn rows_without_wrong_guesses_are_the_timeline()
    ensures { (m : Machine) (s : ℕ → ℕ → ℕ) (hints : ℕ → ℕ) (ins : List Inputs) → Accepted m
        → NoWrongGuess m s (taken m ins (pipe m s hints ins).rows) hints start_hold ins
        → (pipe m s hints ins).rows ≡ timeline_rows m s (taken m ins (pipe m s hints ins).rows) start_hold ins }
{}

/// Without guesses, the rows are those of the timeline that records the sample values as instructions take them, and
/// uses the present values for an instruction in the sample's stage.
pub fn rows_with_samples_are_the_timeline()
    ensures { (m : Machine) (s : ℕ → ℕ → ℕ) (hints : ℕ → ℕ) (ins : List Inputs) → Accepted m → IsWithoutGuess m
        → (pipe m s hints ins).rows ≡ timeline_rows_taking m s no_samples start_hold ins }
{}

/// For every accepted machine, in each cycle of each run: instructions on the right path wait only where they must,
/// and a wrong guess is found in the first cycle in which it can be.
pub fn the_pipeline_waits_only_where_it_must()
    ensures { (m : Machine) (s : ℕ → ℕ → ℕ) (hints : ℕ → ℕ) (ins : List Inputs) → Accepted m
        → WaitsOnlyWhereItMust m s (taken m ins (pipe m s hints ins).rows) (first_moment s hints) ins (pipe m s hints ins).rows }
{}
