//! Plans whose code switches between regions, and that code among the words of a file.
ghost use Rattle.std.specs.Prelude.{◌≡◌, [], ◌∷◌, map, length, IfOk};
ghost use Rattle.patch_code.specs.{Overlay.{CanHold}, StubPlans.{HasLists, overlay_plan, jobs_of}};

use crate::listing::Listing;
use crate::stub_plans::{job, stub, tell_places};
use anyhow::{Result, bail};
use patch_code::{CopyJob, StubPlan, sizes, stubs};
use std::alloc::{AllocError, Global};

/// The jobs of two regions.
fn of_two(
    alloc: Global,
    first: Vec<CopyJob>,
    second: Vec<CopyJob>,
) -> Result<Vec<Vec<CopyJob>>, AllocError>
    ensures jobs { IfOk result (λ lists. map jobs_of lists.items ≡ first.items ∷ second.items ∷ []) }
    ensures two { IfOk result (λ lists. length lists.items ≡ 2) }
{
    let lists = vec![in alloc; first, second]?;
    Ok(lists)
}

/// The jobs of three regions.
fn of_three(
    alloc: Global,
    first: Vec<CopyJob>,
    second: Vec<CopyJob>,
    third: Vec<CopyJob>,
) -> Result<Vec<Vec<CopyJob>>, AllocError>
    ensures jobs { IfOk result (λ lists. map jobs_of lists.items ≡ first.items ∷ second.items ∷ third.items ∷ []) }
    ensures three { IfOk result (λ lists. length lists.items ≡ 3) }
{
    let lists = vec![in alloc; first, second, third]?;
    Ok(lists)
}

/// The job of an object that regions 1 and 2 of three keep.
fn of_twins(alloc: Global, kept: CopyJob) -> Result<Vec<Vec<CopyJob>>, AllocError>
    ensures jobs { IfOk result (λ lists. map jobs_of lists.items ≡ (kept ∷ []) ∷ (kept ∷ []) ∷ [] ∷ []) }
    ensures three { IfOk result (λ lists. length lists.items ≡ 3) }
{
    let first = vec![in alloc; kept]?;
    let second = vec![in alloc; kept]?;
    of_three(alloc, first, second, Vec::new(alloc))
}

/// What leaves region 1: a table goes home.
fn table_home(alloc: Global) -> Result<Vec<CopyJob>, AllocError>
    ensures { IfOk result (λ jobs. jobs.items ≡ record { from = 16777216; to = 66048; bytes = 8 } ∷ []) }
{
    let jobs = vec![in alloc; job(0x0100_0000, 0x0001_0200, 8)]?;
    Ok(jobs)
}

/// What enters region 1: the table, by words, and five bytes.
fn table_in(alloc: Global) -> Result<Vec<CopyJob>, AllocError>
    ensures { IfOk result (λ jobs. jobs.items
        ≡ record { from = 66048; to = 16777216; bytes = 8 } ∷ record { from = 66057; to = 16777233; bytes = 5 } ∷ []) }
{
    let table = job(0x0001_0200, 0x0100_0000, 8);
    let jobs = vec![in alloc; table, job(0x0001_0209, 0x0100_0011, 5)]?;
    Ok(jobs)
}

/// What enters region 2: the code of its entry.
fn code_in(alloc: Global) -> Result<Vec<CopyJob>, AllocError>
    ensures { IfOk result (λ jobs. jobs.items ≡ record { from = 66064; to = 16777216; bytes = 8 } ∷ []) }
{
    let jobs = vec![in alloc; job(0x0001_0210, 0x0100_0000, 8)]?;
    Ok(jobs)
}

/// Two regions with four jobs.
fn plan_of_pair(alloc: Global) -> Result<StubPlan, AllocError>
    ensures can { IfOk result (λ plan. CanHold (overlay_plan plan)) }
    ensures lists { IfOk result HasLists }
{
    let first = stub(0x0001_0008, 5, 1, 0x0001_00dc);
    let second = stub(0x0001_000c, 18, 2, 0x0100_0000);
    let stubs = vec![in alloc; first, second]?;
    let leave = of_two(alloc, table_home(alloc)?, Vec::new(alloc))?;
    let enter = of_two(alloc, table_in(alloc)?, code_in(alloc)?)?;
    let kept_leave = of_two(alloc, Vec::new(alloc), Vec::new(alloc))?;
    let kept_enter = of_two(alloc, Vec::new(alloc), Vec::new(alloc))?;
    Ok(StubPlan {
        base: 0x0009_0000,
        entry: 0x0001_0000,
        fence_i: true,
        twins: false,
        start: Vec::new(alloc),
        stubs,
        regions: 2,
        leave,
        enter,
        kept_leave,
        kept_enter,
        images: Vec::new(alloc),
    })
}

/// The same with an object that both regions keep as twins, and with a third region, whose object takes its place.
fn plan_of_twins(alloc: Global) -> Result<StubPlan, AllocError>
    ensures can { IfOk result (λ plan. CanHold (overlay_plan plan)) }
    ensures lists { IfOk result HasLists }
{
    let first = stub(0x0001_0008, 5, 1, 0x0001_00dc);
    let second = stub(0x0001_000c, 18, 2, 0x0100_0000);
    let third = stub(0x0001_0010, 18, 3, 0x0001_00cc);
    let stubs = vec![in alloc; first, second, third]?;
    let third_home = vec![in alloc; job(0x0100_0020, 0x0001_0228, 6)]?;
    let third_in = vec![in alloc; job(0x0001_0228, 0x0100_0020, 6)]?;
    let leave = of_three(alloc, table_home(alloc)?, Vec::new(alloc), third_home)?;
    let enter = of_three(alloc, table_in(alloc)?, code_in(alloc)?, third_in)?;
    let kept_leave = of_twins(alloc, job(0x0100_0020, 0x0001_0218, 12))?;
    let kept_enter = of_twins(alloc, job(0x0001_0218, 0x0100_0020, 12))?;
    Ok(StubPlan {
        base: 0x0009_0000,
        entry: 0x0001_0000,
        fence_i: true,
        twins: true,
        start: Vec::new(alloc),
        stubs,
        regions: 3,
        leave,
        enter,
        kept_leave,
        kept_enter,
        images: Vec::new(alloc),
    })
}

/// The plan of a name.
fn plan_named(alloc: Global, name: &str) -> Result<StubPlan>
    ensures can { IfOk result (λ plan. CanHold (overlay_plan plan)) }
    ensures lists { IfOk result HasLists }
{
    match name {
        "pair" => Ok(plan_of_pair(alloc)?),
        "twins" => Ok(plan_of_twins(alloc)?),
        _ => bail!("no plan"),
    }
}

/// The words of the patch range for the plan `pair` or `twins`. Tells where their parts stand.
pub(crate) fn code_words(listing: &mut Listing, name: &str) -> Result<Vec<u32>> {
    let plan = plan_named(listing.alloc(), name)?;
    let code = stubs(listing.alloc(), &plan)?;
    tell_places(listing, name, &code, sizes(&plan));
    Ok(code.words)
}
