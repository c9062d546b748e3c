ghost use Rattle.std.specs.Prelude.{◌≡◌, ℕ, ◌+◌, ◌<◌, ◌≤◌, ◌==◌, ◌&&◌, ◌||◌, not, if◌then◌else◌, length, IfOk};
ghost use Rattle.std.specs.List.{list_any};
ghost use Rattle.code_blocks.specs.{Early.{has}, Numbers.{start_at, end_at}, Leads.{leads_to}};
ghost use Rattle.list_checks.specs.Tests.{any_below};
ghost use Rattle.region_former.specs.{Flow.{block_count, IsOrderly}, Borders.{region_in, comes_from_outside, is_border, first_unit, is_branch_unit, is_jal_unit, is_direct_unit, target_of, behind_branch, misses, misses_target, misses_next, is_barred, bars, becomes_none}, Rows.{truth_at}};

use crate::flow::successors_of;
use code_blocks::{Code, End, Unit, has_address};
use rv32im::Instr;
use std::alloc::{AllocError, Global};

/// The blocks by which control may enter their region.
pub(crate) fn borders(alloc: Global, code: &Code, regions: &[u32]) -> Result<Vec<bool>, AllocError>
    requires orderly { IsOrderly code.now }
    requires one_each { length regions.now ≡ block_count code.now }
    ensures one_each { IfOk result (λ border. length border.items ≡ block_count code.now) }
    ensures border { IfOk result (λ border. (b : ℕ) → b < block_count code.now → truth_at border.items b ≡ is_border code.now regions.now b) }
{
    let entered = entered_blocks(alloc, code, regions)?;
    let mut border = Vec::with_capacity(alloc, entered.len())?;
    for b in 0..entered.len() {
        border.push(is_border(code, regions, b, entered[b]))?;
    }
    Ok(border)
}

/// The block `b` is a border entry, if it has a region; `entered` tells whether a direct edge leads to it from
/// another region or none.
fn is_border(code: &Code, regions: &[u32], b: usize, entered: bool) -> bool
    requires orderly { IsOrderly code.now }
    requires below { b < block_count code.now }
    requires one_each { length regions.now ≡ block_count code.now }
    requires entered { entered ≡ any_below (comes_from_outside code.now regions.now b) (block_count code.now) }
    ensures { result ≡ is_border code.now regions.now b }
{
    regions[b] != 0 && (is_indirect(code, b) || entered)
}

/// A jump to an address in a register may reach block `b`.
fn is_indirect(code: &Code, b: usize) -> bool
    requires orderly { IsOrderly code.now }
    requires below { b < block_count code.now }
    ensures { result ≡ has code.now.indirect.items (start_at code.now b) }
{
    has_address(&code.indirect, code.blocks[b].start)
}

/// The blocks to which a direct edge leads from a block of another region or none.
fn entered_blocks(alloc: Global, code: &Code, regions: &[u32]) -> Result<Vec<bool>, AllocError>
    requires orderly { IsOrderly code.now }
    requires one_each { length regions.now ≡ block_count code.now }
    ensures one_each { IfOk result (λ entered. length entered.items ≡ block_count code.now) }
    ensures entered { IfOk result (λ entered. (b : ℕ) → b < block_count code.now → truth_at entered.items b ≡ any_below (comes_from_outside code.now regions.now b) (block_count code.now)) }
{
    let mut entered = vec![in alloc; false; code.blocks.len()]?;
    for a in 0..code.blocks.len() {
        enter_behind(&mut entered, code, regions, a);
    }
    Ok(entered)
}

/// Marks the blocks of other regions to which a direct edge leads from block `a`.
fn enter_behind(entered: &mut [bool], code: &Code, regions: &[u32], a: usize)
    requires orderly { IsOrderly code.now }
    requires below { a < block_count code.now }
    requires one_each { length regions.now ≡ block_count code.now }
    requires len { length entered.old ≡ block_count code.now }
    ensures len { length entered.new ≡ length entered.old }
    ensures entered { (b : ℕ) → b < block_count code.now → truth_at entered.new b ≡ (truth_at entered.old b || comes_from_outside code.now regions.now b a) }
{
    let addresses = successors_of(code, a);
    enter_all(entered, code, regions, a, addresses.as_slice());
}

/// Marks the blocks at addresses that have another region than block `a`.
fn enter_all(entered: &mut [bool], code: &Code, regions: &[u32], a: usize, addresses: &[u32])
    requires orderly { IsOrderly code.now }
    requires below { a < block_count code.now }
    requires one_each { length regions.now ≡ block_count code.now }
    requires len { length entered.old ≡ block_count code.now }
    ensures len { length entered.new ≡ length entered.old }
    ensures entered { (b : ℕ) → b < block_count code.now → truth_at entered.new b ≡ (truth_at entered.old b || (list_any (λ x. x == start_at code.now b) addresses.now && not (region_in regions.now a == region_in regions.now b))) }
{
    for address in addresses {
        enter_at(entered, code, regions, a, *address);
    }
}

/// Marks the block at an address, if one begins there and has another region than block `a`.
fn enter_at(entered: &mut [bool], code: &Code, regions: &[u32], a: usize, address: u32)
    requires orderly { IsOrderly code.now }
    requires below { a < block_count code.now }
    requires one_each { length regions.now ≡ block_count code.now }
    requires len { length entered.old ≡ block_count code.now }
    ensures len { length entered.new ≡ length entered.old }
    ensures entered { (b : ℕ) → b < block_count code.now → truth_at entered.new b ≡ (truth_at entered.old b || ((address == start_at code.now b) && not (region_in regions.now a == region_in regions.now b))) }
{
    if let Some(block) = code.block_at(address) {
        if regions[block as usize] != regions[a] {
            entered[block as usize] = true;
        }
    }
}

/// The regions of blocks where each region with a border entry that cannot be entered has become none.
pub(crate) fn without_barred(
    alloc: Global,
    code: &Code,
    has_dead: &[bool],
    count: u32,
    regions: &[u32],
) -> Result<Vec<u32>, AllocError>
    requires orderly { IsOrderly code.now }
    requires one_each { length regions.now ≡ block_count code.now }
    requires dead { length has_dead.now ≡ block_count code.now }
    requires few { count ≤ 8 }
    requires within { (b : ℕ) → b < block_count code.now → region_in regions.now b ≤ count }
    ensures one_each { IfOk result (λ left. length left.items ≡ block_count code.now) }
    ensures left { IfOk result (λ left. (b : ℕ) → b < block_count code.now → region_in left.items b ≡ (if becomes_none code.now has_dead.now regions.now (region_in regions.now b) then 0 else region_in regions.now b)) }
{
    let barred = barred_regions(alloc, code, regions, count, has_dead)?;
    let mut left = Vec::with_capacity(alloc, regions.len())?;
    for b in 0..regions.len() {
        left.push(if barred[regions[b] as usize] {
            0
        } else {
            regions[b]
        })?;
    }
    Ok(left)
}

/// Which regions have a border entry that cannot be entered.
fn barred_regions(
    alloc: Global,
    code: &Code,
    regions: &[u32],
    count: u32,
    has_dead: &[bool],
) -> Result<Vec<bool>, AllocError>
    requires few { count ≤ 8 }
    requires orderly { IsOrderly code.now }
    requires within { (b : ℕ) → b < block_count code.now → region_in regions.now b ≤ count }
    requires one_each { length regions.now ≡ block_count code.now }
    requires dead { length has_dead.now ≡ block_count code.now }
    ensures one_each { IfOk result (λ barred. length barred.items ≡ count + 1) }
    ensures barred { IfOk result (λ barred. (r : ℕ) → r ≤ count → truth_at barred.items r ≡ becomes_none code.now has_dead.now regions.now r) }
{
    let border = borders(alloc, code, regions)?;
    let mut barred = vec![in alloc; false; count as usize + 1]?;
    mark_barred(&mut barred, code, has_dead, &border, regions);
    Ok(barred)
}

/// Marks the regions that have a border entry that cannot be entered.
fn mark_barred(
    barred: &mut [bool],
    code: &Code,
    has_dead: &[bool],
    border: &[bool],
    regions: &[u32],
)
    requires orderly { IsOrderly code.now }
    requires one_each { length regions.now ≡ block_count code.now }
    requires dead { length has_dead.now ≡ block_count code.now }
    requires borders { length border.now ≡ block_count code.now }
    requires border { (b : ℕ) → b < block_count code.now → truth_at border.now b ≡ is_border code.now regions.now b }
    requires within { (b : ℕ) → b < block_count code.now → region_in regions.now b < length barred.old }
    ensures len { length barred.new ≡ length barred.old }
    ensures barred { (r : ℕ) → truth_at barred.new r ≡ (truth_at barred.old r || becomes_none code.now has_dead.now regions.now r) }
{
    for b in 0..border.len() {
        let bars = bars(code, has_dead, b, border[b]);
        bar(barred, regions[b] as usize, bars);
    }
}

/// Block `b` is a border entry that cannot be entered.
fn bars(code: &Code, has_dead: &[bool], b: usize, border: bool) -> bool
    requires orderly { IsOrderly code.now }
    requires below { b < block_count code.now }
    requires dead { length has_dead.now ≡ block_count code.now }
    ensures { result ≡ (border && is_barred code.now has_dead.now b) }
{
    border && is_barred(code, has_dead, b)
}

/// Marks a region, if an entry bars it.
fn bar(barred: &mut [bool], region: usize, bars: bool)
    requires { region < length barred.old }
    ensures len { length barred.new ≡ length barred.old }
    ensures barred { (r : ℕ) → truth_at barred.new r ≡ (truth_at barred.old r || ((region == r) && bars)) }
{
    if bars {
        barred[region] = true;
    }
}

/// Block `b` cannot be entered through a stub: it has no dead register, or its first unit cannot be moved.
fn is_barred(code: &Code, has_dead: &[bool], b: usize) -> bool
    requires orderly { IsOrderly code.now }
    requires below { b < block_count code.now }
    requires dead { length has_dead.now ≡ block_count code.now }
    ensures { result ≡ is_barred code.now has_dead.now b }
{
    let unit = first_unit(code, b);
    !has_dead[b]
        || unit.links_base()
        || misses_target(code, b, &unit)
        || misses_next(code, b, &unit)
}

/// The first unit of block `b`.
fn first_unit(code: &Code, b: usize) -> Unit
    requires { b < block_count code.now }
    ensures { result ≡ first_unit code.now b }
{
    match code.blocks[b].units.first() {
        Some(unit) => *unit,
        None => Unit {
            at: 0,
            words: 0,
            instr: None,
            raw: 0,
        },
    }
}

/// The first unit of block `b` goes to a known address at which no block begins.
fn misses_target(code: &Code, b: usize, unit: &Unit) -> bool
    requires orderly { IsOrderly code.now }
    requires below { b < block_count code.now }
    requires first { unit.now ≡ first_unit code.now b }
    ensures { result ≡ misses_target code.now b }
{
    is_direct_unit(unit) && misses(code, target_of(&code.blocks[b].end))
}

/// The first unit of block `b` is a branch behind which no block begins.
fn misses_next(code: &Code, b: usize, unit: &Unit) -> bool
    requires orderly { IsOrderly code.now }
    requires below { b < block_count code.now }
    requires first { unit.now ≡ first_unit code.now b }
    ensures { result ≡ misses_next code.now b }
{
    is_branch_unit(&unit.instr) && misses(code, behind_branch(&code.blocks[b].end))
}

/// A branch, a JAL, or a call of two words.
fn is_direct_unit(unit: &Unit) -> bool
    ensures { result ≡ is_direct_unit unit.now }
{
    is_branch_unit(&unit.instr) || is_jal_unit(&unit.instr) || unit.words == 2
}

fn is_branch_unit(instr: &Option<Instr>) -> bool
    ensures { result ≡ is_branch_unit instr.now }
{
    matches!(*instr, Some(Instr::Branch { .. }))
}

fn is_jal_unit(instr: &Option<Instr>) -> bool
    ensures { result ≡ is_jal_unit instr.now }
{
    matches!(*instr, Some(Instr::Jal { .. }))
}

/// Where a unit that ends a block goes, if its address is known.
fn target_of(end: &End) -> Option<u32>
    ensures { result ≡ target_of end.now }
{
    match *end {
        End::Branch { target, .. } => Some(target),
        End::Jump { target } => Some(target),
        End::Call { target, .. } => Some(target),
        End::Tail { target } => Some(target),
        End::Fall { .. } | End::Indirect { .. } | End::Stop => None,
    }
}

/// What is behind a branch that ends a block.
fn behind_branch(end: &End) -> Option<u32>
    ensures { result ≡ behind_branch end.now }
{
    match *end {
        End::Branch { next, .. } => Some(next),
        _ => None,
    }
}

/// An address is known at which no block begins.
fn misses(code: &Code, address: Option<u32>) -> bool
    requires { IsOrderly code.now }
    ensures { result ≡ misses code.now address }
{
    match address {
        Some(address) => code.block_at(address).is_none(),
        None => false,
    }
}
