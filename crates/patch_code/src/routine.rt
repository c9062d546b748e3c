// The switch routine of a plan.
ghost use Rattle.std.specs.Prelude.{◌≡◌, ◌<◌, All, length, IfOk};
ghost use Rattle.rv32im.specs.Sequences.{MeanAll};
ghost use Rattle.patch_code.specs.{Jobs.{IsJob}, Overlay.{CanHold, switch_code}, StubPlans.{HasLists, jobs_at, overlay_plan}, Regions.{IsRegionOf, AreRegionsOf, IsRoutineOf}};
ghost use Rattle.patch_code.specs.Switching;

use crate::job::CopyJob;
use crate::job_code::push_jobs;
use crate::stub_plan::StubPlan;
use crate::switch_code::routine_code;
use crate::switch_plan::{RegionCode, RoutinePlan};
use rv32im::{Instr, encode_all};
use std::alloc::{AllocError, Global};

/// The jobs of a region's number.
pub(crate) fn jobs_at<'a>(lists: &'a [Vec<CopyJob>], i: usize) -> &'a [CopyJob]
    requires { i < length lists.now }
    ensures { result.now ≡ jobs_at lists.now i }
{
    &lists[i]
}

// The instructions of jobs.
fn jobs_code(alloc: Global, jobs: &[CopyJob]) -> Result<Vec<Instr>, AllocError>
    requires { All IsJob jobs.now }
    ensures { IfOk result (λ code. code.items ≡ Switching.jobs_code jobs.now) }
{
    let mut code = Vec::new(alloc);
    push_jobs(&mut code, jobs)?;
    Ok(code)
}

// The instructions of the jobs of a region's number.
fn region_code(alloc: Global, plan: &StubPlan, i: usize) -> Result<RegionCode, AllocError>
    requires lists { HasLists plan.now }
    requires below { i < plan.now.regions }
    requires can { CanHold (overlay_plan plan.now) }
    ensures { IfOk result (IsRegionOf (overlay_plan plan.now) i) }
{
    Ok(RegionCode {
        leave: jobs_code(alloc, jobs_at(&plan.leave, i))?,
        enter: jobs_code(alloc, jobs_at(&plan.enter, i))?,
        kept_leave: jobs_code(alloc, jobs_at(&plan.kept_leave, i))?,
        kept_enter: jobs_code(alloc, jobs_at(&plan.kept_enter, i))?,
    })
}

// Those of all regions.
fn all_regions(alloc: Global, plan: &StubPlan) -> Result<Vec<RegionCode>, AllocError>
    requires lists { HasLists plan.now }
    requires can { CanHold (overlay_plan plan.now) }
    ensures { IfOk result (λ regions. AreRegionsOf (overlay_plan plan.now) plan.now.regions regions.items) }
{
    let mut regions = Vec::new(alloc);
    for i in 0..plan.regions as usize {
        regions.push(region_code(alloc, plan, i)?)?;
    }
    Ok(regions)
}

// What the routine is made of.
fn routine_plan(alloc: Global, plan: &StubPlan) -> Result<RoutinePlan, AllocError>
    requires lists { HasLists plan.now }
    requires can { CanHold (overlay_plan plan.now) }
    ensures { IfOk result (IsRoutineOf (overlay_plan plan.now)) }
{
    Ok(RoutinePlan {
        base: plan.base,
        fence_i: plan.fence_i,
        twins: plan.twins,
        regions: all_regions(alloc, plan)?,
    })
}

/// The words of the switch routine. Without a region there are none.
pub(crate) fn routine_words(alloc: Global, plan: &StubPlan) -> Result<Vec<u32>, AllocError>
    requires lists { HasLists plan.now }
    requires can { CanHold (overlay_plan plan.now) }
    ensures { IfOk result (λ words. MeanAll words.items (switch_code (overlay_plan plan.now))) }
{
    if plan.regions == 0 {
        return Ok(Vec::new(alloc));
    }
    let routine = routine_plan(alloc, plan)?;
    let code = routine_code(alloc, &routine)?;
    encode_all(alloc, &code)
}
