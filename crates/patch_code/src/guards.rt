// Tests of the region that a register holds.
ghost use Rattle.std.specs.Prelude.{◌≡◌, ℕ, ◌+◌, ◌*◌, ◌<◌, ◌++◌, length, OnOk, pos};
ghost use Rattle.patch_code.specs.Parts.{minus_imm, guarded};
ghost use Rattle.rv32im.specs.declared.instructions.ImmKind.TheVariants.{Addi};

use rv32im::{BranchKind, Instr, addi};
use std::alloc::AllocError;

/// `addi rd, rs1, -n`.
pub(crate) fn subtract(rd: u8, rs1: u8, n: u32) -> Instr
    requires { n < 2048 }
    ensures { result ≡ Instr.OpImm Addi rd rs1 (minus_imm n) }
{
    addi(rd, rs1, -(n as i32))
}

/// A branch by the comparison of a register with x0.
pub(crate) fn branch_on(kind: BranchKind, rs1: u8, off: i32) -> Instr
    ensures { result ≡ Instr.Branch kind rs1 0 off }
{
    Instr::Branch {
        kind,
        rs1,
        rs2: 0,
        off,
    }
}

// A jump behind instructions that stand behind it.
fn jump_over(body: &[Instr]) -> Instr
    requires { 4 + 4 * length body.now < 1048576 }
    ensures { result ≡ Instr.Jal 0 (pos (4 + 4 * length body.now)) }
{
    Instr::Jal {
        rd: 0,
        off: 4 + 4 * (body.len() as i32),
    }
}

/// Instructions that run where a register holds a region (BEQ), or where it holds another (BNE).
pub(crate) fn push_guarded(
    code: &mut Vec<Instr>,
    kind: BranchKind,
    tested: u8,
    region: u32,
    body: &[Instr],
) -> Result<(), AllocError>
    requires region { region < 2048 }
    requires short { 4 + 4 * length body.now < 1048576 }
    ensures { OnOk result (code.new.items ≡ code.old.items ++ guarded kind tested region body.now) }
{
    code.extend_from_slice(&[
        subtract(7, tested, region),
        branch_on(kind, 7, 8),
        jump_over(body),
    ])?;
    code.extend_from_slice(body)
}
