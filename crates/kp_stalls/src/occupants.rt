// The stages in a cycle, with their instructions.
ghost use Rattle.std.specs.Prelude.{◌≡◌, ◌+◌, ◌<◌, length};
ghost use Rattle.kp_stalls.specs.Occupants.{at};

use crate::fate::Fate;
use crate::flight::Flight;
use std::marker::Model;

/// What a stage shows in a cycle: whether it is full, whether it updates, whether it is squashed, whether it is held from outside, what becomes of
/// its instruction, whether its samples have the values that the instruction takes, and the number of the instruction.
#[derive(Clone, Copy)]
pub struct Stage {
    pub full: bool,
    pub moves: bool,
    pub squashed: bool,
    pub held: bool,
    pub fate: Fate,
    pub settled: bool,
    pub number: u64,
}

/// The stages, and what was reported of the last sixteen instructions.
#[derive(Drop)]
pub(crate) struct Occupants<'a> {
    pub stages: &'a [Stage],
    pub ring: &'a [Flight],
}

impl<'a> Model for Occupants<'a> {
    ghost use Rattle.std.specs.Prelude.{◌≡◌, List, length};
    ghost use Rattle.kp_stalls.specs.Occupants.{Seen, occupants_of, stored};

    ghost Value = { List Seen };

    ghost view = { λ c. occupants_of (stored c.ring.now) c.stages.now };

    ghost invariant = { λ c. length c.ring.now ≡ 16 };
}

impl Occupants<'_> {
    /// The number of stages.
    #[tactic(auto, using(crate::proofs::OccupantFacts::count_at))]
    pub fn count(&self) -> usize
        ensures { result ≡ length self.now }
    {
        self.stages.len()
    }

    /// What a stage shows. A stage past the last one shows nothing.
    #[tactic(auto, using(crate::proofs::OccupantFacts::stage_there, crate::proofs::OccupantFacts::stage_past))]
    pub fn stage(&self, j: usize) -> Stage
        ensures { result ≡ (at self.now j).stage }
    {
        if j < self.stages.len() {
            self.stages[j]
        } else {
            NO_STAGE
        }
    }

    /// What the stage above stage k shows.
    #[tactic(auto, using(crate::proofs::OccupantFacts::stage_past))]
    pub fn next_stage(&self, k: usize) -> Stage
        ensures { result ≡ (at self.now (k + 1)).stage }
    {
        if k < self.stages.len() {
            self.stage(k + 1)
        } else {
            NO_STAGE
        }
    }

    /// What was reported of the instruction in a stage.
    #[tactic(auto, using(crate::proofs::OccupantFacts::report_by))]
    pub fn flight(&self, j: usize) -> &Flight
        requires { j < length self.now }
        ensures { result.now ≡ (at self.now j).report }
    {
        let number = self.stage(j).number;
        &self.ring[(number % 16) as usize]
    }
}

const NO_STAGE: Stage = Stage {
    full: false,
    moves: false,
    squashed: false,
    held: false,
    fate: Fate::Open,
    settled: false,
    number: 0,
};
