// The instructions of the start stub.
ghost use Rattle.std.specs.Prelude.{◌≡◌, ℕ, ◌+◌, ◌*◌, ◌<◌, ◌++◌, length, All, OnOk, IfOk, pos};
ghost use Rattle.patch_code.specs.{Jobs.{fences, IsJob}, Start.{clears, before_jump, start_stub, jump_at, start_bytes, CanStart}, StubPlans.{start_of}};
ghost use Rattle.rv32im.specs.declared.instructions.ImmKind.TheVariants.{Addi};

use crate::job_code::{push_fence, push_jobs};
use crate::stub_plan::StubPlan;
use rv32im::{Instr, addi, jump};
use std::alloc::{AllocError, Global};

// The fence, where one is asked for, and the registers that the jobs used, cleared.
fn push_ends(code: &mut Vec<Instr>, fence_i: bool) -> Result<(), AllocError>
    ensures { OnOk result (code.new.items ≡ code.old.items ++ fences fence_i ++ clears) }
{
    push_fence(code, fence_i)?;
    code.extend_from_slice(&[addi(5, 0, 0), addi(7, 0, 0), addi(28, 0, 0), addi(31, 0, 0)])
}

// All instructions before the jump.
fn before_jump(alloc: Global, plan: &StubPlan) -> Result<Vec<Instr>, AllocError>
    requires { All IsJob plan.now.start.items }
    ensures { IfOk result (λ code. code.items ≡ before_jump (start_of plan.now)) }
{
    let mut code = Vec::new(alloc);
    push_jobs(&mut code, &plan.start)?;
    push_ends(&mut code, plan.fence_i)?;
    Ok(code)
}

/// The instructions of the start stub.
pub fn start_stub(alloc: Global, plan: &StubPlan) -> Result<Vec<Instr>, AllocError>
    requires { CanStart (start_of plan.now) }
    ensures { IfOk result (λ code. code.items ≡ start_stub (start_of plan.now)) }
{
    let mut code = before_jump(alloc, plan)?;
    let at = plan.base + 64 + 4 * (code.len() as u32);
    code.push(jump(at, plan.entry))?;
    Ok(code)
}
