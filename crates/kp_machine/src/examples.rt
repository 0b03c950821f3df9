//! Small jobs and their runs, by computation. The values and rows were computed by an independent program.
#![tactic(auto, using(crate::proofs::WorkedRuns::runs))]

ghost use Rattle.std.specs.Prelude.{◌≡◌};
ghost use Rattle.kp_pipeline.specs.Timeline.{no_samples};
ghost use Rattle.kp_machine.specs.Examples.{late3, late3_rows, hint3, hint3_rows, near, near_rows, odd};
ghost use Rattle.kp_machine.specs.Machine.{sequential, pipe_of, inputs_from};

/// A read waits for a result that is set late. After two instructions X is 3.
pub fn late3_counts()
    ensures two { sequential late3 no_samples 2 0 0 ≡ 3 }
    ensures rows { (pipe_of late3 (inputs_from late3 0 5)).rows ≡ late3_rows }
    ensures value { (pipe_of late3 (inputs_from late3 0 5)).visible 5 0 0 ≡ 3 }
{}

/// A wrong guess is rolled back in the third cycle. After one instruction X is 2, which is visible after three cycles.
pub fn hint3_rolls_back()
    ensures one { sequential hint3 no_samples 1 0 0 ≡ 2 }
    ensures rows { (pipe_of hint3 (inputs_from hint3 0 3)).rows ≡ hint3_rows }
    ensures value { (pipe_of hint3 (inputs_from hint3 0 3)).visible 3 0 0 ≡ 2 }
{}

/// A word of a file is incremented, and another one is unchanged.
pub fn near_counts()
    ensures four { sequential near no_samples 4 0 1 ≡ 14 }
    ensures other { sequential near no_samples 4 0 2 ≡ 0 }
    ensures rows { (pipe_of near (inputs_from near 0 4)).rows ≡ near_rows }
{}

/// A read with a condition, a result with an enable pipe, a call, and a result that is set in two stages: the first set takes effect.
pub fn odd_adds()
    ensures x { sequential odd no_samples 4 0 0 ≡ 9 }
    ensures y { sequential odd no_samples 4 1 0 ≡ 12 }
{}
