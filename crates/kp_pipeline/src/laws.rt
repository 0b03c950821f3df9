//! The laws. `s` is the start state by target and address, `hints` the start values of the hints, `ins` the inputs of the
//! cycles: a stall word and sample values for each. `W` is the last write stage of a guessed register.
#![tactic(auto, using(crate::proofs::Proved::laws, crate::proofs::Proved::nearest))]

ghost use Rattle.std.specs.Prelude.{◌≡◌, ℕ, suc, ◌+◌, ◌-◌, ◌*◌, ◌<◌, ◌≤◌, List, [], ◌∷◌, ◌++◌, length, true, false, Option, Some, ◌⊎◌};
ghost use Rattle.std.specs.List.{AllByRecursion};
ghost use Rattle.kp_pipeline.specs.Accepted.{Accepted};
ghost use Rattle.kp_pipeline.specs.Claims.{Legal, Moves, HighestStays, StandsBefore, stall_free_cycles};
ghost use Rattle.kp_pipeline.specs.Machine.{Machine};
ghost use Rattle.kp_pipeline.specs.Nearest.{HasNoHit, IsNearestHit, IsGreatestMismatch, select, candidates};
ghost use Rattle.kp_pipeline.specs.Pipeline.{Inputs, PipelineState, above, forwarded, mismatches, back, pipeline_start};
ghost use Rattle.kp_pipeline.specs.Rows.{Row, Trace, bit, counts, count_after, one_if, passed, pipe, state_after, taken};
ghost use Rattle.kp_pipeline.specs.Timeline.{HasNoGuessOrSample, start_hold, timeline_rows};

/// The pipeline is legal: after any number of cycles each target has the value that it has in the sequential machine
/// after n instructions, where n is the number of update enables of its write stage so far. So a squashed instruction
/// leaves no trace in visible state. This holds with guesses, whatever the hints are, with files, with results that
/// are set late, and with samples, of which each instruction takes those of the cycle in which it leaves the sample's
/// stage.
pub fn pipeline_is_legal()
    ensures { (m : Machine) (s : ℕ → ℕ → ℕ) (hints : ℕ → ℕ) (ins : List Inputs) → Accepted m
        → Legal m s ins (pipe m s hints ins) }
{}

/// The pipeline is live: in each stall-free cycle the highest full stage updates, and any n stall-free cycles,
/// consecutive or not, retire an instruction, where n is the number of stages. There is a row for each cycle.
pub fn pipeline_moves()
    ensures { (m : Machine) (s : ℕ → ℕ → ℕ) (hints : ℕ → ℕ) (ins : List Inputs) → Accepted m
        → Moves m ins (pipe m s hints ins) }
{}

/// No needless stall: without guesses and samples, the rows are those of the timeline, which is computed from
/// instruction numbers and values of the sequential machine alone.
pub fn rows_are_the_timeline()
    ensures { (m : Machine) (s : ℕ → ℕ → ℕ) (hints : ℕ → ℕ) (ins : List Inputs) → Accepted m
        → HasNoGuessOrSample m → (pipe m s hints ins).rows ≡ timeline_rows m s start_hold ins }
{}

/// Any n * k stall-free cycles, consecutive or not, retire k instructions, where n is the number of stages: if between the cycles T and U there are that many,
/// at least k instructions leave the last stage between them. This holds of each trace that moves.
#[tactic(auto, using(crate::proofs::Many::retire_many))]
pub fn stall_free_cycles_retire_as_many()
    ensures { (m : Machine) (ins : List Inputs) (trace : Trace) (T U k : ℕ) → 1 ≤ m.stages → Moves m ins trace → T ≤ U
        → U ≤ length trace.rows
        → m.stages * k ≤ stall_free_cycles m.stages ins U - stall_free_cycles m.stages ins T
        → k ≤ passed trace.rows (m.stages - 1) U - passed trace.rows (m.stages - 1) T }
{}

/// The highest full stage is never squashed: `back` is at most its number in every row.
pub fn highest_full_stage_is_never_squashed()
    ensures { (m : Machine) (s : ℕ → ℕ → ℕ) (hints : ℕ → ℕ) (ins : List Inputs) → Accepted m
        → HighestStays m.stages (pipe m s hints ins).rows }
{}

/// The scheduling function. The count of a stage is that of the next one, plus one if the next one is full. In each
/// stage from W - 1 on (in each stage, if no register is guessed) it is the number of update enables: an instruction
/// that has updated there is never squashed later.
pub fn counts_and_passed_agree()
    ensures neighbours { (m : Machine) (s : ℕ → ℕ → ℕ) (hints : ℕ → ℕ) (ins : List Inputs) → Accepted m
        → (k T : ℕ) → suc k < m.stages
        → counts m.stages (pipe m s hints ins).rows T k
        ≡ counts m.stages (pipe m s hints ins).rows T (suc k)
        + one_if ((state_after m (pipeline_start s hints) ins T).stage (suc k)).full }
    ensures passed { (m : Machine) (s : ℕ → ℕ → ℕ) (hints : ℕ → ℕ) (ins : List Inputs) → Accepted m
        → (k T : ℕ) → k < m.stages → m.last_guessed ≤ k + 1
        → counts m.stages (pipe m s hints ins).rows T k ≡ passed (pipe m s hints ins).rows k T }
{}

/// A pending guess is in a stage before the write stage of its register, which is W at most. So a stage compares
/// exactly the guesses that were made in an earlier stage and aren't at the write stage yet.
pub fn pending_guesses_stand_before_the_write_stage()
    ensures { (m : Machine) (s : ℕ → ℕ → ℕ) (hints : ℕ → ℕ) (ins : List Inputs) → Accepted m
        → (T k : ℕ) → k < m.stages
        → AllByRecursion (StandsBefore m k) ((state_after m (pipeline_start s hints) ins T).stage k).pending }
{}

/// How one more row changes the counts and the numbers of passed instructions of any list of rows of n stages, as a
/// monitor of rows keeps them. Both are at most the number of rows.
pub fn one_row_more_counts()
    ensures counts { (n : ℕ) (rows : List Row) (r : Row)
        → counts n (rows ++ r ∷ []) (suc (length rows)) ≡ count_after n r (counts n rows (length rows)) }
    ensures passed { (rows : List Row) (r : Row) (k : ℕ)
        → passed (rows ++ r ∷ []) k (suc (length rows)) ≡ passed rows k (length rows) + one_if (bit r.ue k) }
    ensures counts_bound { (n : ℕ) (rows : List Row) (T k : ℕ) → counts n rows T k ≤ T }
    ensures passed_bound { (rows : List Row) (k T : ℕ) → passed rows k T ≤ T }
{}

/// The values of a sample of stage k that instructions take, in any run. The instruction that leaves stage k in a
/// cycle takes the sample's value of that cycle, and one that doesn't leave it takes 0. A longer run agrees with a
/// shorter one on all values that the shorter one fixes: those of the instructions below `passed`.
pub fn taken_of_a_longer_run_agrees()
    ensures here { (m : Machine) (ins more : List Inputs) (rows rest : List Row) (j : Inputs) (r : Row) (x : ℕ)
        → length ins ≡ length rows → bit r.ue (m.sample_stage x) ≡ true
        → taken m (ins ++ j ∷ more) (rows ++ r ∷ rest) (passed rows (m.sample_stage x) (length rows)) x ≡ j.samples x }
    ensures never { (m : Machine) (ins : List Inputs) (rows : List Row) (i x : ℕ)
        → length ins ≡ length rows → passed rows (m.sample_stage x) (length rows) ≤ i
        → taken m ins rows i x ≡ 0 }
    ensures longer { (m : Machine) (ins more : List Inputs) (rows rest : List Row) (i x : ℕ)
        → length ins ≡ length rows → i < passed rows (m.sample_stage x) (length rows)
        → taken m (ins ++ more) (rows ++ rest) i x ≡ taken m ins rows i x }
    ensures pipeline { (m : Machine) (s : ℕ → ℕ → ℕ) (hints : ℕ → ℕ) (ins more : List Inputs) (i x : ℕ)
        → i < passed (pipe m s hints ins).rows (m.sample_stage x) (length ins)
        → taken m (ins ++ more) (pipe m s hints (ins ++ more)).rows i x
        ≡ taken m ins (pipe m s hints ins).rows i x }
{}

/// A trace with the pipeline's rows and visible values, such as a netlist's run, is legal and moves.
pub fn same_trace_is_legal_and_moves()
    ensures { (m : Machine) (s : ℕ → ℕ → ℕ) (hints : ℕ → ℕ) (ins : List Inputs) (trace : Trace) → Accepted m
        → trace.rows ≡ (pipe m s hints ins).rows
        → ((T t a : ℕ) → T ≤ length ins → trace.visible T t a ≡ (pipe m s hints ins).visible T t a)
        → Legal m s ins trace × Moves m ins trace }
{}

/// Forwarding takes the nearest hit. In each state, not only in those of a run, the truth of a read is the value
/// forwarded by the lowest stage above that hits, or the target's own value if no stage hits; and one of the two is
/// the case. For a target with a result the truth is selected from the list of its candidates, the nearest first.
pub fn forwarding_takes_the_nearest_hit()
    ensures nearest { (m : Machine) (st : PipelineState) (i : Inputs) (k t a j : ℕ)
        → IsNearestHit m st k t a j → (above m st i k).truth t a ≡ forwarded m st i j t }
    ensures own { (m : Machine) (st : PipelineState) (i : Inputs) (k t a : ℕ)
        → k < m.stages → HasNoHit m st k t a → (above m st i k).truth t a ≡ Some (st.visible t a) }
    ensures either { (m : Machine) (st : PipelineState) (k t a : ℕ)
        → k < m.stages → ((j : ℕ) × IsNearestHit m st k t a j) ⊎ HasNoHit m st k t a }
    ensures selected { (m : Machine) (st : PipelineState) (i : Inputs) (t a d k : ℕ) → Accepted m
        → m.has_result t ≡ true → k + d ≡ m.write_stage t
        → (above m st i k).truth t a ≡ select (candidates m st i t a d k) (Some (st.visible t a)) }
{}

/// Rollback goes to the greatest mismatching stage: `back` is one more than it, and 0 exactly where no stage mismatches.
pub fn back_is_the_greatest_mismatch()
    ensures found { (m : Machine) (st : PipelineState) (i : Inputs) (r : ℕ)
        → back m st i ≡ suc r → IsGreatestMismatch m st i r }
    ensures greatest { (m : Machine) (st : PipelineState) (i : Inputs) (r : ℕ)
        → IsGreatestMismatch m st i r → back m st i ≡ suc r }
    ensures none { (m : Machine) (st : PipelineState) (i : Inputs)
        → back m st i ≡ 0 → (k : ℕ) → k < m.stages → mismatches m st i k ≡ false }
{}
