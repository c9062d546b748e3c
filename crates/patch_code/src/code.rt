//! The code of a plan.
ghost use Rattle.std.specs.Prelude.{◌≡◌, ℕ, ◌+◌, ◌*◌, ◌<◌, ◌++◌, length, IfOk, replicate};
ghost use Rattle.patch_code.specs.{Start.{CanStart, AreStartWords}, Homes.{AreOrdered}, Serving.{ServingStub, serving_home}, Layout.{CanStand}, Overlay.{CanHold, AreOverlayWords, serving_at, switch_at}, StubPlans.{start_of, serving_stubs, code_plan, overlay_plan, HasLists, IsPlainPlan, IsStubCode, IsOverlayCode}};

use crate::images::{image_places, push_images};
use crate::instructions::start_stub;
use crate::part_sizes::sizes;
use crate::routine::routine_words;
use crate::serving::{all_stub_words, by_home, stub_places};
use crate::stub_plan::{Stub, StubCode, StubPlan};
use rv32im::encode_all;
use std::alloc::{AllocError, Global};

// These words behind sixteen words that are 0.
fn behind_control_words(alloc: Global, code: &[u32]) -> Result<Vec<u32>, AllocError>
    ensures { IfOk result (λ words. words.items ≡ replicate 16 0 ++ code.now) }
{
    let mut words = vec![in alloc; 0; 16]?;
    words.extend_from_slice(code)?;
    Ok(words)
}

// The control words and the start stub.
fn start_words(alloc: Global, plan: &StubPlan) -> Result<Vec<u32>, AllocError>
    requires { CanStart (start_of plan.now) }
    ensures { IfOk result (λ words. AreStartWords (start_of plan.now) words.items) }
{
    let code = start_stub(alloc, plan)?;
    let code = encode_all(alloc, &code)?;
    match behind_control_words(alloc, &code) {
        Ok(words) => Ok(words),
        Err(error) => Err(error),
    }
}

// All words of a plan, whose stubs are given by home address, and begin at `first`; the routine stands at `switch`.
fn code_words(
    alloc: Global,
    plan: &StubPlan,
    ordered: &[&Stub],
    first: u32,
    switch: u32,
) -> Result<Vec<u32>, AllocError>
    requires lists { HasLists plan.now }
    requires can { CanHold (overlay_plan plan.now) }
    requires by_home { AreOrdered ServingStub serving_home (overlay_plan plan.now).stubs (serving_stubs ordered.now) }
    requires first { first ≡ serving_at (overlay_plan plan.now) }
    requires switch { switch ≡ switch_at (overlay_plan plan.now) }
    ensures { IfOk result (λ words. AreOverlayWords (overlay_plan plan.now) words.items) }
{
    let mut words = start_words(alloc, plan)?;
    let served = all_stub_words(alloc, ordered, plan.base, first, switch)?;
    let routine = routine_words(alloc, plan)?;
    words.extend_from_slice(&served)?;
    words.extend_from_slice(&routine)?;
    push_images(&mut words, &plan.images)?;
    Ok(words)
}

/// The code of the patch range: sixteen control words, which are 0; the start stub, whose jobs
/// copy their bytes in order before the program begins; stubs by home address; the switch routine,
/// where the plan has regions; and the words of the images, in the plan's order.
///
/// A stub of region 0 is its body alone. Any other passes to its body where its region is current,
/// as the first control word tells, and else calls the routine. It fails only where no memory was
/// left.
pub fn stubs(alloc: Global, plan: &StubPlan) -> Result<StubCode, AllocError>
    requires lists { HasLists plan.now }
    requires can { CanHold (overlay_plan plan.now) }
    ensures { IfOk result (IsOverlayCode (overlay_plan plan.now)) }
{
    let ordered = by_home(alloc, &plan.stubs)?;
    let bytes = sizes(plan);
    let start = plan.base + 64;
    let first = start + bytes.start;
    let switch = first + bytes.stubs;
    let words = code_words(alloc, plan, &ordered, first, switch)?;
    Ok(StubCode {
        words,
        start,
        stub_at: stub_places(alloc, &plan.stubs, &ordered, first)?,
        image_at: image_places(alloc, &plan.images, switch + bytes.routine)?,
    })
}

/// The code of a plan without regions, all of whose stubs are plain: no checks, and no routine. It
/// fails only where no memory was left.
pub fn plain_code(alloc: Global, plan: &StubPlan) -> Result<StubCode, AllocError>
    requires plain { IsPlainPlan plan.now }
    requires can { CanStand (code_plan plan.now) }
    ensures { IfOk result (IsStubCode (code_plan plan.now)) }
{
    match stubs(alloc, plan) {
        Ok(code) => Ok(code),
        Err(error) => Err(error),
    }
}
