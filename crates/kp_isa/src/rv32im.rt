// RiscV
ghost use Rattle.std.specs.Prelude.{◌≡◌, ℕ, None};
ghost use Rattle.kp_isa_rv.specs.Isa.{IsState, Cpu, word_at, cpu_of};
ghost use Rattle.kp_isa_rvm.specs.{Rv32im.rv32im, Isa.Executes};
ghost use Rattle.kp_isa.specs.RiscV.{rv32im_head, IsRiscV, FollowsWithM};

/// A text that begins as examples/riscv/rv32im.kp is that of a processor that executes RV32IM (`head`). The table gives at most one state after an
/// instruction (`one`).
#[tactic(auto, using(crate::proofs::RiscV::laws_im))]
pub fn a_legal_run_of_rv32im_is_one_of_risc_v()
    ensures head { IsRiscV FollowsWithM rv32im_head (rv32im None) }
    ensures one { (s : ℕ → ℕ → ℕ) (c d : Cpu) → IsState s → Executes (cpu_of s) (s 1 (word_at (s 0 0))) c → Executes (cpu_of s) (s 1 (word_at (s 0 0))) d → c ≡ d }
{}
