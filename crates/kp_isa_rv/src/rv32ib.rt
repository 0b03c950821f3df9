//! examples/riscv/rv32ib.kp: rv32i with a branch target buffer.
ghost use Rattle.std.specs.Prelude.{◌≡◌, ℕ, List, Option};
ghost use Rattle.kp_ast.specs.declared.tree.Image.{Image};
ghost use Rattle.kp_pipeline.specs.Sequential.{exec, seq};
ghost use Rattle.kp_machine.specs.Machine.{machine_of};
ghost use Rattle.kp_isa_rv.specs.{Rv32i.rv32i, Rv32ib.rv32ib};
ghost use Rattle.kp_isa_rv.specs.Isa.{Executes, Runs, IsState, Cpu, word_at, cpu_of};

/// From each state, each word of the program has the effect that it has in rv32i: guesses and hints change no value.
pub fn an_instruction_is_that_of_rv32i()
    ensures { (image : Option (List Image)) (s : ℕ → ℕ → ℕ) (q : ℕ → ℕ) → exec (machine_of (rv32ib image)) s q ≡ exec (machine_of (rv32i image)) s q }
{}

/// One instruction of the sequential machine is what the table says of the word at the program counter. The state after it is again one in which
/// the table describes an instruction.
#[tactic(auto, using(crate::proofs::Running::laws_ib))]
pub fn an_instruction_is_by_the_table()
    ensures step { (image : Option (List Image)) (q : ℕ → ℕ) (s : ℕ → ℕ → ℕ) (c : Cpu)
        → IsState s → Executes (cpu_of s) (s 1 (word_at (s 0 0))) c → cpu_of (exec (machine_of (rv32ib image)) s q) ≡ c }
    ensures next { (image : Option (List Image)) (q : ℕ → ℕ) (s : ℕ → ℕ → ℕ) (c : Cpu)
        → IsState s → Executes (cpu_of s) (s 1 (word_at (s 0 0))) c → IsState (exec (machine_of (rv32ib image)) s q) }
{}

/// After n instructions the sequential machine has the program counter, the registers and the memory of a run of n instructions by the table.
#[tactic(auto, using(crate::proofs::Running::laws_ib))]
pub fn a_run_is_by_the_table()
    ensures { (image : Option (List Image)) (given : ℕ → ℕ → ℕ) (s : ℕ → ℕ → ℕ) (n : ℕ) (c : Cpu)
        → IsState s → Runs (cpu_of s) n c → cpu_of (seq (machine_of (rv32ib image)) s given n) ≡ c }
{}
