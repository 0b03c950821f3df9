//! The modules that are written for the processors of examples/ execute their instruction sets. Each function does nothing: its contract is the law.
//!
//! The laws are about each text that begins as the example, up to its first section, followed by lines that ask for ports, and about each run of the module's
//! netlist (`IsCoreWith`). Registers and files are those that `show` and `peek` show, and `commit` counts the instructions
//! that have left the last stage (`laws.rt`).
ghost use Rattle.std.specs.Prelude.{ℕ, List, Option};
ghost use Rattle.kp_described.specs.Sections.{IsWith};
ghost use Rattle.kp_isa_dlx.specs.Text.{dlxs_head};
ghost use Rattle.kp_isa_dlx5.specs.Text.{dlx5_head};
ghost use Rattle.kp_isa.specs.{RiscV.IsHeadOfRiscV, RiscV.IsRv32iFrom, RiscV.rv32im_head, RiscV.IsRv32imFrom, Dlx.IsDlxFrom, Dlx5.IsDlx5From};
ghost use Rattle.kp_core.specs.{Cores.IsCoreWith, Due.DueFor, Words.write};
ghost use Rattle.kp_core.specs.declared.request.Form.TheVariants.{Module};

/// The modules of examples/riscv/rv32i.kp, rv32ib.kp and rv32ip.kp execute RV32I.
pub fn cores_of_rv32i_execute_risc_v()
    ensures { (head : List ℕ) → IsHeadOfRiscV head → (file : Option (List ℕ)) (input text : List ℕ) → IsWith head input → DueFor (write Module file) input 0 text → IsCoreWith IsRv32iFrom input text }
{}

/// The module of examples/riscv/rv32im.kp executes RV32IM.
pub fn cores_of_rv32im_execute_risc_v()
    ensures { (file : Option (List ℕ)) (input text : List ℕ) → IsWith rv32im_head input → DueFor (write Module file) input 0 text → IsCoreWith IsRv32imFrom input text }
{}

/// The module of examples/dlxs.kp executes the instruction set of the sample processor without delay slots.
pub fn cores_of_dlxs_execute_its_instruction_set()
    ensures { (file : Option (List ℕ)) (input text : List ℕ) → IsWith dlxs_head input → DueFor (write Module file) input 0 text → IsCoreWith IsDlxFrom input text }
{}

/// The module of examples/dlx5.kp executes the instruction set of the sample processor with a delay slot.
pub fn cores_of_dlx5_execute_its_instruction_set()
    ensures { (file : Option (List ℕ)) (input text : List ℕ) → IsWith dlx5_head input → DueFor (write Module file) input 0 text → IsCoreWith IsDlx5From input text }
{}
