//! Worked rows, by computation. The rows, their counts and their lines are defined in `specs/Examples.antt`, and were
//! computed by an independent program.

ghost use Rattle.std.specs.Prelude.{◌≡◌, [], ◌∷◌};
ghost use Rattle.kp_pipeline.specs.Rows.{passed};
ghost use Rattle.kp_sched.specs.Rows.{rows_seen};
ghost use Rattle.kp_sched.specs.Lines.{row_lines};
ghost use Rattle.kp_sched.specs.Examples.{counts3, smp3_rows, smp3_stalled_rows, irq3_rows, irq3_lines};

/// If nothing waits, an instruction enters and one moves on in each cycle. A stall holds back the lower stages.
pub fn smp3_counts()
    ensures counts { counts3 smp3_rows 4 ≡ 4 ∷ 3 ∷ 2 ∷ [] }
    ensures passed { passed (rows_seen 3 smp3_rows) 2 4 ≡ 2 }
    ensures stalled { counts3 smp3_stalled_rows 4 ≡ 3 ∷ 2 ∷ 1 ∷ [] }
    ensures stalled_passed { passed (rows_seen 3 smp3_stalled_rows) 2 4 ≡ 1 }
{}

/// Stage 1 rolls back in cycle 3: it and the stage below return to the number of its instruction, which restarts.
pub fn irq3_counts()
    ensures before { counts3 irq3_rows 3 ≡ 3 ∷ 2 ∷ 1 ∷ [] }
    ensures rolled_back { counts3 irq3_rows 4 ≡ 2 ∷ 2 ∷ 2 ∷ [] }
    ensures counts { counts3 irq3_rows 5 ≡ 3 ∷ 2 ∷ 2 ∷ [] }
    ensures passed { passed (rows_seen 3 irq3_rows) 2 5 ≡ 2 }
    ensures lines { row_lines 0 (rows_seen 3 irq3_rows) ≡ irq3_lines }
{}
