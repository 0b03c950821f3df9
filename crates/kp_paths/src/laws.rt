//! The laws. Each function does nothing: its contract is the law.

ghost use Rattle.std.specs.Prelude.{◌≡◌, ℕ, List, true, false, Option, Some, None};
ghost use Rattle.kp_ast.specs.declared.tree.Job.{Job};
ghost use Rattle.kp_pipeline.specs.Machine.{Machine};
ghost use Rattle.kp_pipeline.specs.Pipeline.{Inputs, PipelineState, candidate_hits, forwarded, intent_known, is_candidate, stall};
ghost use Rattle.kp_paths.specs.{Claims.ArePaths, Claims.HasNoValue, Claims.HasValue, Claims.state_at, ArrowClaims.ShowsCells};

/// What a stage forwards, for every machine, in each state of each run from any start. A stage that has a value for a target forwards one once it
/// isn't stalled (`value`); one that has none forwards nothing (`none`); and as long as its intent isn't known, a full stage hits at every
/// address (`unknown`).
pub fn a_stage_forwards_what_has_been_set()
    ensures value { (m : Machine) (s : ℕ → ℕ → ℕ) (hints : ℕ → ℕ) (ins : List Inputs) (T : ℕ) (inputs : Inputs) (t j : ℕ)
        → HasValue m t j → ((state_at m s hints ins T).stage j).full ≡ true → stall m (state_at m s hints ins T) inputs j ≡ false
        → (v : ℕ) × (forwarded m (state_at m s hints ins T) inputs j t ≡ Some v) }
    ensures none { (m : Machine) (s : ℕ → ℕ → ℕ) (hints : ℕ → ℕ) (ins : List Inputs) (T : ℕ) (inputs : Inputs) (t j : ℕ)
        → HasNoValue m t j → forwarded m (state_at m s hints ins T) inputs j t ≡ None }
    ensures unknown { (m : Machine) (st : PipelineState) (t j a : ℕ) → is_candidate m j t ≡ true → intent_known m j t ≡ false
        → (st.stage j).full ≡ true → candidate_hits m st j t a ≡ true }
{}

/// The cells of a job say where its reads take their values from.
pub fn the_cells_are_the_paths()
    ensures { (job : Job) → ArePaths job }
{}

/// The arrows in the row of a read are those cells of the table that say what a stage has for it.
pub fn the_arrows_are_the_cells()
    ensures { (job : Job) → ShowsCells job }
{}
