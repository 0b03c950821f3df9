//! The RISC-V processor of examples/riscv/rv32im.kp executes RV32IM.
//!
//! `specs/Isa.antt` has the instruction set as a table: the 40 rows of RV32I, and eight for multiplication and division. `specs/Rv32im.antt` is the
//! tree of the description. Each function is a law, and has nothing to run.
#![tactic(auto)]

ghost use Rattle.std.specs.Prelude.{◌≡◌, ℕ, ◌-◌, ◌*◌, ◌^◌, List, Option};
ghost use Rattle.kp_ast.specs.declared.tree.Image.{Image};
ghost use Rattle.kp_pipeline.specs.Sequential.{exec, seq};
ghost use Rattle.kp_machine.specs.Machine.{machine_of};
ghost use Rattle.kp_isa_rv.specs.Isa.{IsState, Cpu, word_at, cpu_of};
ghost use Rattle.kp_isa_rvm.specs.Rv32im.{rv32im};
ghost use Rattle.kp_isa_rvm.specs.Isa.{Executes, Runs, wide, upper, quotient, remainder, signed_quotient, signed_remainder};

/// One instruction of the sequential machine is what the table says of the word at the program counter. The state after it is again one in which
/// the table describes an instruction.
pub fn an_instruction_is_by_the_table()
    ensures step { (image : Option (List Image)) (q : ℕ → ℕ) (s : ℕ → ℕ → ℕ) (c : Cpu)
        → IsState s → Executes (cpu_of s) (s 1 (word_at (s 0 0))) c → cpu_of (exec (machine_of (rv32im image)) s q) ≡ c }
    ensures next { (image : Option (List Image)) (q : ℕ → ℕ) (s : ℕ → ℕ → ℕ) (c : Cpu)
        → IsState s → Executes (cpu_of s) (s 1 (word_at (s 0 0))) c → IsState (exec (machine_of (rv32im image)) s q) }
{}

/// After n instructions the sequential machine has the program counter, the registers and the memory of a run of n instructions by the table.
pub fn a_run_is_by_the_table()
    ensures { (image : Option (List Image)) (given : ℕ → ℕ → ℕ) (s : ℕ → ℕ → ℕ) (n : ℕ) (c : Cpu)
        → IsState s → Runs (cpu_of s) n c → cpu_of (seq (machine_of (rv32im image)) s given n) ≡ c }
{}

/// Products and quotients of corner cases are those that the manual gives: -1 by -1, the least number by -1 and by 0, and -7 by 2.
#[tactic(auto, using(crate::proofs::Corners::corners))]
pub fn corner_cases_are_those_of_the_manual()
    ensures mulh { upper (wide (2 ^ 32 - 1) * wide (2 ^ 32 - 1)) ≡ 0 }
    ensures mulhsu { upper (wide (2 ^ 32 - 1) * (2 ^ 32 - 1)) ≡ 2 ^ 32 - 1 }
    ensures mulhu { upper ((2 ^ 32 - 1) * (2 ^ 32 - 1)) ≡ 2 ^ 32 - 2 }
    ensures div_overflow { signed_quotient (2 ^ 31) (2 ^ 32 - 1) ≡ 2 ^ 31 }
    ensures rem_overflow { signed_remainder (2 ^ 31) (2 ^ 32 - 1) ≡ 0 }
    ensures div_by_zero { signed_quotient (2 ^ 31) 0 ≡ 2 ^ 32 - 1 }
    ensures rem_by_zero { signed_remainder (2 ^ 31) 0 ≡ 2 ^ 31 }
    ensures divu_by_zero { quotient (2 ^ 31) 0 ≡ 2 ^ 32 - 1 }
    ensures remu_by_zero { remainder (2 ^ 31) 0 ≡ 2 ^ 31 }
    ensures div { signed_quotient (2 ^ 32 - 7) 2 ≡ 2 ^ 32 - 3 }
    ensures rem { signed_remainder (2 ^ 32 - 7) 2 ≡ 2 ^ 32 - 1 }
{}
