//! The laws, for every accepted machine. `s` is the start state by target and address, `hints` the start values of the hints, `ins` the inputs
//! of the cycles: a stall word and sample values for each.

ghost use Rattle.std.specs.Prelude.{◌≡◌, ◌<◌, ◌+◌, ◌++◌, ℕ, suc, Bool, List, length, get_or, None};
ghost use Rattle.kp_pipeline.specs.{Accepted.Accepted, Machine.Machine, Pipeline.Inputs, Pipeline.PipelineState, Pipeline.pipeline_start};
ghost use Rattle.kp_pipeline.specs.Rows.{Row, passed, pipe};
ghost use Rattle.kp_diagram.specs.Diagram.{Fetch, Mark, account, diagram, retired_numbers, spent};
ghost use Rattle.kp_diagram.specs.Claims.{Counts, HasReasons, Holds, IsReason, IsSpentFor, Shows, cycles_of, numbers_from, stalls_of};
ghost use Rattle.kp_diagram.specs.Windows.{minus, window};

/// A line of instruction i has a cell in cycle T and stage k exactly where stage k is full in that cycle and holds instruction i.
pub fn cells_are_what_the_stages_hold()
    ensures shown { (m : Machine) (s : ℕ → ℕ → ℕ) (hints : ℕ → ℕ) (ins : List Inputs) → Accepted m → (i T k : ℕ)
        → Shows (diagram m.stages (stalls_of ins) (pipe m s hints ins).rows) i T k → Holds m.stages (pipe m s hints ins).rows i T k }
    ensures all { (m : Machine) (s : ℕ → ℕ → ℕ) (hints : ℕ → ℕ) (ins : List Inputs) → Accepted m → (i T k : ℕ)
        → Holds m.stages (pipe m s hints ins).rows i T k → Shows (diagram m.stages (stalls_of ins) (pipe m s hints ins).rows) i T k }
{}

/// Each mark has its reason in the machine: a cell is marked as squashed only where its stage is rolled back, as moving only where its stage
/// updates, and as waiting by the first part of the stall that holds: from outside, the next stage, a data hazard. No two marks have a
/// reason at once.
pub fn marks_have_their_reasons()
    ensures reasons { (m : Machine) (s : ℕ → ℕ → ℕ) (hints : ℕ → ℕ) (ins : List Inputs) → Accepted m
        → HasReasons m (pipeline_start s hints) ins (diagram m.stages (stalls_of ins) (pipe m s hints ins).rows) }
    ensures one { (m : Machine) (st : PipelineState) (i : Inputs) (k : ℕ) (a b : Mark)
        → IsReason m st i k a → IsReason m st i k b → a ≡ b }
{}

/// The instructions that retire have the numbers 0, 1, 2 and so on in the order of the lines, as many as leave the last stage.
pub fn retired_lines_are_in_order()
    ensures { (m : Machine) (s : ℕ → ℕ → ℕ) (hints : ℕ → ℕ) (ins : List Inputs) (last : ℕ) → Accepted m → suc last ≡ m.stages
        → retired_numbers m.stages (diagram m.stages (stalls_of ins) (pipe m s hints ins).rows)
        ≡ numbers_from 0 (passed (pipe m s hints ins).rows last (length (pipe m s hints ins).rows)) }
{}

/// The account adds up: the retired instructions and the cycles lost are the cycles of the run, and the retired ones are those that leave the
/// last stage. For any rows.
pub fn the_account_adds_up()
    ensures total { (last : ℕ) (ext : ℕ → ℕ → Bool) (rows : List Row) → cycles_of (account last ext rows) ≡ length rows }
    ensures retired { (last : ℕ) (ext : ℕ → ℕ → Bool) (rows : List Row)
        → (account last ext rows).retired ≡ passed rows last (length rows) }
{}

/// Each cycle is counted under its cause, in the machine's own terms: the last stage updates, or its bubble or its wait has the cause that
/// the cycle is counted for.
pub fn lost_cycles_have_their_causes()
    ensures causes { (m : Machine) (s : ℕ → ℕ → ℕ) (hints : ℕ → ℕ) (ins : List Inputs) (last T : ℕ) → Accepted m → suc last ≡ m.stages
        → T < length ins
        → IsSpentFor m (pipeline_start s hints) ins T last (get_or (spent last (stalls_of ins) (pipe m s hints ins).rows) T None) }
    ensures counted { (last : ℕ) (ext : ℕ → ℕ → Bool) (rows : List Row) → Counts (account last ext rows) (spent last ext rows) }
{}

/// A window shows the cells of the complete diagram from cycle A on, in columns that are counted from there, and no others. Its account, the
/// difference of two, adds up to its cycles. For any rows.
pub fn a_window_is_a_part()
    ensures cells { (A : ℕ) (fetches : List Fetch) (i T k : ℕ) → Shows (window A fetches) i T k → Shows fetches i (A + T) k }
    ensures all { (A : ℕ) (fetches : List Fetch) (i T k : ℕ) → Shows fetches i (A + T) k → Shows (window A fetches) i T k }
    ensures total { (last : ℕ) (ext : ℕ → ℕ → Bool) (before rows : List Row)
        → cycles_of (minus (account last ext (before ++ rows)) (account last ext before)) ≡ length rows }
{}
