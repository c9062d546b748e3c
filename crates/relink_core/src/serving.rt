ghost use Rattle.std.specs.Prelude.{◌≡◌, ℕ, ◌+◌, ◌*◌, ◌%◌, ◌<◌, true, false, length, map, slice_index_or, IfOk, MatchOption};
ghost use Rattle.std.specs.List.{All};
ghost use Rattle.code_blocks.specs.Numbers.{start_at};
ghost use Rattle.dataflow.specs.Overlaid.{is_border};
ghost use Rattle.patch_code.specs.{Serving.{ServingStub, body_bytes, serving_size}, StubPlans.{body_of, serving_stub}};
ghost use Rattle.result_laws.specs.{ChosenPlacement.{ChosenPlacement}, PlacedView.{HasBody, Serves}};
ghost use Rattle.relink_core.specs.{Copies.{IsSource, IsPlacedCopy}, StubBlocks.{is_copied, stub_blocks, body_size, stub_size, ReachesFrom, IsEnteredAt, HasRoomFor, IsServingPlan, NeedsStub, HasCopy, RunsDisplaced}, Serving.{IsPlacedWith, served_blocks, AreStubsFrom}};

use crate::code_regions::CodeRegions;
use crate::copy_numbers::copy_numbers;
use crate::copy_source::CopySource;
use crate::entering::{copied_start, temporary};
use crate::placed_copy::PlacedCopy;
use crate::served::served_blocks;
use crate::serving_plan::ServingPlan;
use block_splitter::displaced;
use patch_code::{Body, Stub};
use std::alloc::{AllocError, Global};

/// The stubs of copies and regions, the first at `first`: one for each block by which control enters a region, or comes to a
/// copy from outside. They go to the copy of the block; where it has none, they run its first unit, displaced. It fails
/// only where no memory was left.
pub fn serving_stubs(
    alloc: Global,
    source: &CopySource,
    regions: &CodeRegions,
    copies: &[PlacedCopy],
    first: u32,
) -> Result<Vec<Stub>, AllocError>
    requires source { IsSource source.now }
    requires copies { All (IsPlacedCopy source.now) copies.now }
    requires borders { (b : ℕ) → b < length source.now.code.now.blocks.items → is_border regions.now.border.now b ≡ true → IsEnteredAt source.now regions.now b }
    requires aligned { first % 4 ≡ 0 }
    requires room { (limit : ℕ) × (limit < 4294967296) × HasRoomFor source.now regions.now copies.now first limit (stub_blocks source.now.code.now regions.now copies.now) }
    ensures { IfOk result (λ stubs. (pl : ChosenPlacement) → IsPlacedWith source.now regions.now copies.now pl → AreStubsFrom source.now.code.now source.now.graph.now pl first (served_blocks source.now.code.now pl) (map serving_stub stubs.items)) }
{
    let blocks = served_blocks(alloc, source, regions, copies)?;
    let plan = ServingPlan {
        source,
        regions,
        copies,
        numbers: copy_numbers(alloc, copies, source.code.blocks.len())?,
    };
    match stubs_from(alloc, &plan, &blocks, first) {
        Ok(stubs) => Ok(stubs),
        Err(error) => Err(error),
    }
}

/// The stubs of some blocks, the first at `first`.
fn stubs_from(
    alloc: Global,
    plan: &ServingPlan,
    blocks: &[u32],
    first: u32,
) -> Result<Vec<Stub>, AllocError>
    requires plan { IsServingPlan plan.now }
    requires blocks { All (NeedsStub plan.now) blocks.now }
    requires aligned { first % 4 ≡ 0 }
    requires room { (limit : ℕ) × (limit < 4294967296) × HasRoomFor plan.now.source.now plan.now.regions.now plan.now.copies.now first limit blocks.now }
    ensures { IfOk result (λ stubs. (pl : ChosenPlacement) → IsPlacedWith plan.now.source.now plan.now.regions.now plan.now.copies.now pl → AreStubsFrom plan.now.source.now.code.now plan.now.source.now.graph.now pl first blocks.now (map serving_stub stubs.items)) }
{
    let mut stubs = Vec::new(alloc);
    let mut at = first;
    for block in blocks {
        let body_at = at + plan.regions.test_size(*block as usize);
        let stub = stub_of(alloc, plan, *block, body_at)?;
        at += size_of(&stub);
        stubs.push(stub)?;
    }
    Ok(stubs)
}

/// The stub of a block, whose body stands at `at`.
fn stub_of(alloc: Global, plan: &ServingPlan, block: u32, at: u32) -> Result<Stub, AllocError>
    requires plan { IsServingPlan plan.now }
    requires block { NeedsStub plan.now block }
    requires aligned { at % 4 ≡ 0 }
    requires reach { is_copied plan.now.copies.now block ≡ false → ReachesFrom plan.now.source.now block at }
    ensures size { IfOk result (λ stub. serving_size (serving_stub stub) ≡ stub_size plan.now.source.now plan.now.regions.now plan.now.copies.now block) }
    ensures serves { IfOk result (λ stub. (pl : ChosenPlacement) (place : ℕ) → IsPlacedWith plan.now.source.now plan.now.regions.now plan.now.copies.now pl → (is_border plan.now.regions.now.border.now block ≡ true → place ≡ at) → Serves plan.now.source.now.code.now plan.now.source.now.graph.now pl place block (serving_stub stub)) }
{
    let home = plan.source.code.blocks[block as usize].start;
    match body_of(alloc, plan, block, at) {
        Ok(body) => Ok(Stub {
            home,
            temp: temporary(plan.source.live, home),
            region: plan.regions.region_tested(block as usize),
            body,
        }),
        Err(error) => Err(error),
    }
}

/// The body of a block's stub, which stands at `at`.
fn body_of(alloc: Global, plan: &ServingPlan, block: u32, at: u32) -> Result<Body, AllocError>
    requires plan { IsServingPlan plan.now }
    requires block { NeedsStub plan.now block }
    requires aligned { at % 4 ≡ 0 }
    requires reach { is_copied plan.now.copies.now block ≡ false → ReachesFrom plan.now.source.now block at }
    ensures size { IfOk result (λ body. body_bytes (body_of body) ≡ body_size plan.now.source.now plan.now.copies.now block) }
    ensures is { IfOk result (λ body. (pl : ChosenPlacement) (place : ℕ) (stub : ServingStub) → IsPlacedWith plan.now.source.now plan.now.regions.now plan.now.copies.now pl → (is_border plan.now.regions.now.border.now block ≡ true → place ≡ at) → stub.body ≡ body_of body → HasBody plan.now.source.now.code.now plan.now.source.now.graph.now pl place block stub) }
{
    match copy_with(plan, block) {
        Some(copy) => Ok(Body::Jump {
            to: copied_start(plan.source, copy, block),
        }),
        None => match displaced_body(alloc, plan.source, block, at) {
            Ok(body) => Ok(body),
            Err(error) => Err(error),
        },
    }
}

/// The copy that has a block, if one does.
fn copy_with<'a>(plan: &'a ServingPlan, block: u32) -> Option<&'a PlacedCopy>
    requires plan { IsServingPlan plan.now }
    requires block { block < length plan.now.source.now.code.now.blocks.items }
    ensures { MatchOption result (is_copied plan.now.copies.now block ≡ false) (λ copy. HasCopy plan.now.copies.now block copy.now) }
{
    match plan.copies.get(plan.numbers[block as usize]) {
        Some(copy) => Some(copy),
        None => None,
    }
}

/// The first unit of a block, displaced to `at`.
fn displaced_body(
    alloc: Global,
    source: &CopySource,
    block: u32,
    at: u32,
) -> Result<Body, AllocError>
    requires source { IsSource source.now }
    requires block { block < length source.now.code.now.blocks.items }
    requires aligned { at % 4 ≡ 0 }
    requires reach { ReachesFrom source.now block at }
    ensures { IfOk result (λ body. RunsDisplaced source.now at block (body_of body)) }
{
    match displaced(alloc, block, source.code, source.graph, at, source.sites) {
        Ok(words) => Ok(Body::Words(words)),
        Err(error) => Err(error),
    }
}

/// The bytes of a stub.
fn size_of(stub: &Stub) -> u32
    requires { serving_size (serving_stub stub.now) < 4294967296 }
    ensures { result ≡ serving_size (serving_stub stub.now) }
{
    let test = if stub.region == 0 { 0 } else { 88 };
    test + size_of_body(&stub.body)
}

/// The bytes of a stub's body.
fn size_of_body(body: &Body) -> u32
    requires { body_bytes (body_of body.now) < 4294967296 }
    ensures { result ≡ body_bytes (body_of body.now) }
{
    match body {
        Body::Jump { .. } => 8,
        Body::Words(words) => 4 * (words.len() as u32),
    }
}
