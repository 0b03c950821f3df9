//! The accumulator machine of examples/cookbook/six.kp executes its six instructions.
//!
//! `specs/Isa.antt` has the instruction set as a table, `specs/Six.antt` the tree of the description, `specs/Text.antt` its text, and
//! `specs/Executing.antt` what its runs are. Each function is a law, and has nothing to run. docs/COOKBOOK.md goes through all of them, from the table
//! to the Verilog.
#![tactic(auto, using(crate::proofs::Rows::step, crate::proofs::Rows::runs, crate::proofs::Executing::processor))]

ghost use Rattle.std.specs.Prelude.{◌≡◌, ℕ, Option, List, None};
ghost use Rattle.kp_ast.specs.declared.tree.Image.{Image};
ghost use Rattle.kp_pipeline.specs.Sequential.{exec, seq};
ghost use Rattle.kp_machine.specs.Machine.{machine_of};
ghost use Rattle.kp_isa.specs.Runs.{IsProcessor};
ghost use Rattle.kp_tool.specs.Executing.{ExecutesAs};
ghost use Rattle.kp_isa_six.specs.{Six.six, Isa.Executes, Isa.Runs, Isa.Cpu, Isa.fields, Isa.cpu_of, Text.six_head, Executing.IsReady, Executing.Follows, Executing.IsSixFrom, Executing.IsSix, Executing.ShowsSix};

/// One instruction of the sequential machine is what the table says of the word at the program counter.
pub fn an_instruction_is_by_the_table()
    ensures { (image : Option (List Image)) (q : ℕ → ℕ) (s : ℕ → ℕ → ℕ) (c : Cpu)
        → Executes (cpu_of s) (fields (s 2 (s 0 0))) c → cpu_of (exec (machine_of (six image)) s q) ≡ c }
{}

/// After n instructions the sequential machine has the program counter, the accumulator and the memory of a run of n instructions by the table.
pub fn a_run_is_by_the_table()
    ensures { (image : Option (List Image)) (given : ℕ → ℕ → ℕ) (s : ℕ → ℕ → ℕ) (n : ℕ) (c : Cpu)
        → Runs (cpu_of s) n c → cpu_of (seq (machine_of (six image)) s given n) ≡ c }
{}

/// Each text that begins as the example, up to its image section, is that of this machine, and each legal run of it follows the table.
pub fn six_is_a_processor()
    ensures { IsProcessor six_head (six None) IsReady Follows }
{}

/// What is written and shown of such a text executes the table: by `pipe`, `sim`, `vcd`, `debug` and `watch`.
pub fn six_executes_its_table()
    ensures { ExecutesAs IsSixFrom IsSix ShowsSix six_head }
{}
