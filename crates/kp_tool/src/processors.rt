//! The processors of examples/ execute their instruction sets. Each function does nothing: its contract is the law.
//!
//! The laws are about each text that begins as the example, up to its first section: with whatever image section and stalls section, if the rules accept it.
//! What a run shows is that of a run by the instruction set, instruction by instruction, until one without a row in the table: in whatever pattern the
//! stages are stalled. `pipe`: from the start on, with the program of the image section, and from each reset on, with whatever program, data and
//! registers there are then.
ghost use Rattle.std.specs.Prelude.{ℕ, List};
ghost use Rattle.kp_isa_dlx.specs.Text.{dlxs_head};
ghost use Rattle.kp_isa_dlx5.specs.Text.{dlx5_head};
ghost use Rattle.kp_isa.specs.RiscV.{IsHeadOfRiscV, IsRv32iFrom, IsRv32i, ShowsRv32i, rv32im_head, IsRv32imFrom, IsRv32im, ShowsRv32im};
ghost use Rattle.kp_isa.specs.{Dlx.IsDlxFrom, Dlx.IsDlx, Dlx.ShowsDlx, Dlx5.IsDlx5From, Dlx5.IsDlx5, Dlx5.ShowsDlx5};
ghost use Rattle.kp_tool.specs.Executing.{ExecutesAs};

/// What is written and shown of examples/riscv/rv32i.kp, rv32ib.kp and rv32ip.kp executes RV32I.
pub fn rv32i_executes_risc_v()
    ensures { (head : List ℕ) → IsHeadOfRiscV head → ExecutesAs IsRv32iFrom IsRv32i ShowsRv32i head }
{}

/// What is written and shown of examples/riscv/rv32im.kp executes RV32IM.
pub fn rv32im_executes_risc_v()
    ensures { ExecutesAs IsRv32imFrom IsRv32im ShowsRv32im rv32im_head }
{}

/// What is written and shown of examples/dlxs.kp executes the instruction set of the sample processor without delay slots.
pub fn dlxs_executes_its_instruction_set()
    ensures { ExecutesAs IsDlxFrom IsDlx ShowsDlx dlxs_head }
{}

/// What is written and shown of examples/dlx5.kp executes the instruction set of the sample processor with a delay slot.
pub fn dlx5_executes_its_instruction_set()
    ensures { ExecutesAs IsDlx5From IsDlx5 ShowsDlx5 dlx5_head }
{}
