ghost use Rattle.std.specs.Prelude.{◌≡◌, ℕ, ◌+◌, ◌*◌, ◌/◌, ◌<◌, ◌^◌, ◌==◌, Bool, true, false, if◌then◌else◌, length, replicate, IfOk};
ghost use Rattle.std.specs.List.{All};
ghost use Rattle.relocator.specs.{Slots.{pair_lane, lane_of, lane_count, pair_of, bytes_in, moved_on, first_slots, slots_of, is_code, code_slots}, Laying.{AreRoomy, AreInLanes, next_in, AgreeBelow}};

use crate::items::Item;
use placement_programme::VarName;
use std::alloc::{AllocError, Global};

/// Where a taken variable stands in the scratchpad.
#[derive(Clone, Copy, PartialEq, Eq)]
pub struct Slot {
    /// What it stands for.
    pub name: VarName,
    /// The first address of its slot.
    pub at: u32,
    /// How many bytes the slot has.
    pub span: u32,
}

/// The slots of items, in order: those that stand in the scratchpad throughout from `base` on, behind them those that
/// are kept for each pair, and behind these those of each region, `regions` being the last. It fails only where no
/// memory was left.
pub(crate) fn slots(
    alloc: Global,
    items: &[Item],
    base: u32,
    regions: u32,
) -> Result<Vec<Slot>, AllocError>
    requires room { AreRoomy base regions items.now }
    requires lanes { AreInLanes (lane_count regions) items.now }
    ensures { IfOk result (λ slots. slots.items ≡ slots_of base items.now) }
{
    let mut next = first_slots(alloc, items, base, regions)?;
    let mut slots = Vec::new(alloc);
    for item in items {
        slots.push(next_slot(&mut next, item))?;
    }
    Ok(slots)
}

/// Where the first slot of each lane begins. It fails only where no memory was left.
fn first_slots(
    alloc: Global,
    items: &[Item],
    base: u32,
    regions: u32,
) -> Result<Vec<u32>, AllocError>
    requires { AreRoomy base regions items.now }
    ensures long { IfOk result (λ next. length next.items ≡ lane_count regions) }
    ensures first { IfOk result (λ next. AgreeBelow (lane_count regions) (next_in next.items) (first_slots base items.now)) }
{
    let mut next = Vec::new(alloc);
    for lane in 0..2 * regions as usize + 2 {
        next.push(first_slot(items, base, lane))?;
    }
    Ok(next)
}

/// Where the first slot of a lane begins: that of what stands throughout at `base`, that of a pair behind all of these,
/// and that of a region behind what is kept for its pair.
#[tactic(auto, unfolding(crate::specs::Slots::first_slots))]
fn first_slot(items: &[Item], base: u32, lane: usize) -> u32
    requires { first_slots base items.now lane < 4294967296 }
    ensures { result ≡ first_slots base items.now lane }
{
    if lane == 0 {
        return base;
    }
    let behind = base + bytes_in(items, 0);
    if lane % 2 == 0 {
        behind + bytes_in(items, pair_lane(lane / 2))
    } else {
        behind
    }
}

/// The lane of what is kept for the pair of a region.
fn pair_lane(region: usize) -> usize
    requires { region < 2 ^ 63 }
    ensures { result ≡ pair_lane (pair_of region) }
{
    2 * region.div_ceil(2) + 1
}

/// How many bytes the items of a lane take.
fn bytes_in(items: &[Item], lane: usize) -> u32
    requires { bytes_in lane items.now < 4294967296 }
    ensures { result ≡ bytes_in lane items.now }
{
    let mut total = 0;
    for item in items {
        total += span_in(item, lane);
    }
    total
}

/// What an item adds to them.
fn span_in(item: &Item, lane: usize) -> u32
    ensures { result ≡ (if lane_of item.now.name == lane then item.now.span else 0) }
{
    if lane_of(item.name) == lane {
        item.span
    } else {
        0
    }
}

/// The lane in which a variable has its slot.
fn lane_of(name: VarName) -> usize
    ensures { result ≡ lane_of name }
{
    match name {
        VarName::StaticData { object: _ } => 0,
        VarName::StaticCode { first: _, last: _ } => 0,
        VarName::OverlayData { region, object: _ } => 2 * region as usize,
        VarName::OverlayCode {
            region,
            first: _,
            last: _,
        } => 2 * region as usize,
        VarName::KeptData { pair, object: _ } => 2 * pair as usize + 1,
    }
}

/// One number so many times. It fails only where no memory was left.
pub(crate) fn filled(alloc: Global, number: u32, count: usize) -> Result<Vec<u32>, AllocError>
    ensures { IfOk result (λ row. row.items ≡ replicate count number) }
{
    vec![in alloc; number; count]
}

/// The next slot of an item's lane, which moves on behind it.
fn next_slot(next: &mut Vec<u32>, item: &Item) -> Slot
    requires lane { lane_of item.now.name < length next.old.items }
    requires room { next_in next.old.items (lane_of item.now.name) + item.now.span < 4294967296 }
    ensures name { result.name ≡ item.now.name }
    ensures at { result.at ≡ next_in next.old.items (lane_of item.now.name) }
    ensures span { result.span ≡ item.now.span }
    ensures long { length next.new.items ≡ length next.old.items }
    ensures moved { next_in next.new.items ≡ moved_on (next_in next.old.items) item.now }
{
    let lane = lane_of(item.name);
    let at = next[lane];
    next[lane] = at + item.span;
    Slot {
        name: item.name,
        at,
        span: item.span,
    }
}

/// Whether a variable stands for code.
fn is_code(name: VarName) -> bool
    ensures { result ≡ is_code name }
{
    match name {
        VarName::StaticCode { first: _, last: _ } => true,
        VarName::OverlayCode {
            region: _,
            first: _,
            last: _,
        } => true,
        VarName::StaticData { object: _ } => false,
        VarName::OverlayData {
            region: _,
            object: _,
        } => false,
        VarName::KeptData { pair: _, object: _ } => false,
    }
}

/// The first addresses of the slots of code, in order. It fails only where no memory was left.
pub(crate) fn code_slots(alloc: Global, slots: &[Slot]) -> Result<Vec<u32>, AllocError>
    ensures { IfOk result (λ code. code.items ≡ code_slots slots.now) }
{
    let mut code = Vec::new(alloc);
    for slot in slots {
        if is_code(slot.name) {
            code.push(slot.at)?;
        }
    }
    Ok(code)
}
