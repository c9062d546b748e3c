//! The plan of the patch range.
ghost use Rattle.std.specs.Prelude.{◌≡◌, ◌+◌, ◌*◌, ◌<◌, ◌≤◌, List, length, map, IfOk};
ghost use Rattle.patch_code.specs.{Start.{start_bytes}, Overlay.{rest_bytes, overlay_images_at}, StubPlans.{HasLists, overlay_plan}};
ghost use Rattle.relocator.specs.declared.slots.Slot.{Slot};
ghost use Rattle.relink_core.specs.{Naming.{CanPlan}, Planning.{HasJobs, IsChosen, IsPlanMade, plan_bytes}};

use crate::items::{Phase, PlannedItems};
use crate::jobs::entering;
use crate::regions::{all_entering, all_leaving, image_places, images};
use board_config::Board;
use patch_code::{Stub, StubPlan, sizes};
use std::alloc::{AllocError, Global};

/// The plan if the images stand at these places.
fn plan_at(
    alloc: Global,
    entry: u32,
    board: &Board,
    items: &PlannedItems,
    stubs: Vec<Stub>,
    places: &[u32],
) -> Result<StubPlan, AllocError>
    requires can { CanPlan items.now }
    requires places { length places.now ≡ length items.now.copies.now }
    ensures { IfOk result (HasJobs entry board.now items.now stubs.items places.now) }
{
    Ok(StubPlan {
        base: board.patch.base,
        entry,
        fence_i: board.fence_i,
        twins: board.twins,
        start: entering(alloc, items, places, Phase::Start)?,
        stubs,
        regions: items.regions,
        leave: all_leaving(alloc, items, false)?,
        enter: all_entering(alloc, items, places, false)?,
        kept_leave: all_leaving(alloc, items, true)?,
        kept_enter: all_entering(alloc, items, places, true)?,
        images: images(alloc, items.copies)?,
    })
}

/// Where the images of a plan begin.
fn images_at(plan: &StubPlan) -> u32
    requires lists { HasLists plan.now }
    requires small { plan.now.base + 64 + start_bytes (overlay_plan plan.now).start + rest_bytes (overlay_plan plan.now) < 4294967296 }
    ensures { result ≡ overlay_images_at (overlay_plan plan.now) }
{
    let bytes = sizes(plan);
    plan.base + 64 + bytes.start + bytes.stubs + bytes.routine
}

/// What the patch range is to hold for a choice: the start stub's jobs, which copy what stands in the scratchpad throughout;
/// stubs; for each region the jobs that enter and leave it, and those of what is kept for its pair; and the images of the
/// copies, one behind the other. Jobs stand in the order of the names. It fails only where no memory was left.
pub fn patch_plan(
    alloc: Global,
    entry: u32,
    board: &Board,
    items: &PlannedItems,
    stubs: Vec<Stub>,
) -> Result<StubPlan, AllocError>
    requires can { CanPlan items.now }
    requires chosen { (slots : List Slot) × IsChosen board.now items.now slots }
    requires room { board.now.patch.base + plan_bytes board.now items.now stubs.items < 4294967296 }
    ensures { IfOk result (λ plan. (slots : List Slot) → IsChosen board.now items.now slots → IsPlanMade entry board.now items.now slots stubs.items plan) }
{
    let anywhere = vec![in alloc; 0; items.copies.len()]?;
    let mut plan = plan_at(alloc, entry, board, items, stubs, &anywhere)?;
    let places = image_places(alloc, items.copies, images_at(&plan))?;
    plan.start = entering(alloc, items, &places, Phase::Start)?;
    plan.enter = all_entering(alloc, items, &places, false)?;
    plan.kept_enter = all_entering(alloc, items, &places, true)?;
    Ok(plan)
}
