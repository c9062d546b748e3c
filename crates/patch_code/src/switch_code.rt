// The switch routine.
ghost use Rattle.std.specs.Prelude.{◌≡◌, ℕ, ◌+◌, ◌*◌, ◌<◌, ◌++◌, length, OnOk, IfOk, IfSome, option_map};
ghost use Rattle.std.specs.List.{flat_map};
ghost use Rattle.patch_code.specs.{Jobs.{fences}, Parts.{twin_in, first_parts, part_code, kept_code}, Switching.{routine, begins, ends}, SwitchPlans.{plan_of, side_part, CanBuild}};

use crate::checking::{load_control, store_control};
use crate::guards::push_guarded;
use crate::job_code::push_fence;
use crate::switch_plan::{RoutinePlan, Side};
use rv32im::{BranchKind, Instr, lui};
use std::alloc::{AllocError, Global};

// The region that is the twin of a region, if it has one.
fn twin_in(plan: &RoutinePlan, region: u32) -> Option<u32>
    requires can { CanBuild plan.now }
    requires region { region < 2048 }
    ensures twin { result ≡ twin_in (plan_of plan.now) region }
    ensures small { IfSome result (λ twin. twin < 2048) }
{
    if !plan.twins {
        return None;
    }
    if region % 2 == 0 {
        return Some(region.saturating_sub(1));
    }
    if region < plan.regions.len() as u32 {
        Some(region + 1)
    } else {
        None
    }
}

// Jobs, and behind them those that are left out where the register `other` holds the twin.
fn part_body(
    alloc: Global,
    jobs: &[Instr],
    kept: &[Instr],
    other: u8,
    twin: Option<u32>,
) -> Result<Vec<Instr>, AllocError>
    requires small { IfSome twin (λ twin. twin < 2048) }
    requires short { 4 + 4 * length kept.now < 1048576 }
    ensures code { IfOk result (λ body. body.items ≡ jobs.now ++ kept_code (λ is. is) (option_map (λ twin. record { tested = other; twin = twin; jobs = kept.now }) twin)) }
    ensures count { IfOk result (λ body. length body.items < length jobs.now + length kept.now + 4) }
{
    let mut body = Vec::new(alloc);
    body.extend_from_slice(jobs)?;
    if let Some(twin) = twin {
        push_guarded(&mut body, BranchKind::Bne, other, twin, kept)?;
    }
    Ok(body)
}

// The part of a side for the region of a number.
fn push_part(
    alloc: Global,
    code: &mut Vec<Instr>,
    plan: &RoutinePlan,
    side: Side,
    i: usize,
) -> Result<(), AllocError>
    requires can { CanBuild plan.now }
    requires here { i < length plan.now.regions.items }
    ensures { OnOk result (code.new.items ≡ code.old.items ++ part_code (λ is. is) (side_part side (plan_of plan.now) i)) }
{
    let region = &plan.regions[i];
    let number = i as u32 + 1;
    let twin = twin_in(plan, number);
    match side {
        Side::Leave => {
            let body = part_body(alloc, &region.leave, &region.kept_leave, 30, twin)?;
            push_guarded(code, BranchKind::Beq, 6, number, &body)
        }
        Side::Enter => {
            let body = part_body(alloc, &region.enter, &region.kept_enter, 6, twin)?;
            push_guarded(code, BranchKind::Beq, 30, number, &body)
        }
    }
}

// The parts of a side for all regions.
fn push_parts(
    alloc: Global,
    code: &mut Vec<Instr>,
    plan: &RoutinePlan,
    side: Side,
) -> Result<(), AllocError>
    requires { CanBuild plan.now }
    ensures { OnOk result (code.new.items ≡ code.old.items ++ flat_map (part_code (λ is. is)) (first_parts (side_part side (plan_of plan.now)) (length plan.now.regions.items))) }
{
    for i in 0..plan.regions.len() {
        push_part(alloc, code, plan, side, i)?;
    }
    Ok(())
}

// The control word becomes x30, and control goes back by x29; before that a fence, where one is asked for.
fn push_ends(code: &mut Vec<Instr>, base: u32, fence_i: bool) -> Result<(), AllocError>
    ensures { OnOk result (code.new.items ≡ code.old.items ++ (fences fence_i ++ ends base)) }
{
    push_fence(code, fence_i)?;
    let back = Instr::Jalr {
        rd: 0,
        rs1: 29,
        imm: 0,
    };
    code.extend_from_slice(&[lui(5, base), store_control(30, 5, base), back])
}

/// The instructions of the switch routine: it reads the control word, runs the jobs that leave that region and those that
/// enter the one in x30, writes x30 to the control word, and goes back by x29.
pub fn routine_code(alloc: Global, plan: &RoutinePlan) -> Result<Vec<Instr>, AllocError>
    requires { CanBuild plan.now }
    ensures { IfOk result (λ code. code.items ≡ routine (λ is. is) (plan_of plan.now)) }
{
    let mut code = Vec::new(alloc);
    code.extend_from_slice(&[lui(5, plan.base), load_control(6, 5, plan.base)])?;
    push_parts(alloc, &mut code, plan, Side::Leave)?;
    push_parts(alloc, &mut code, plan, Side::Enter)?;
    push_ends(&mut code, plan.base, plan.fence_i)?;
    Ok(code)
}
