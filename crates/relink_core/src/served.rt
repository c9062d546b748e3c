ghost use Rattle.std.specs.Prelude.{◌≡◌, ℕ, ◌<◌, ◌≤◌, ◌==◌, ◌||◌, ◌++◌, ◌∷◌, [], if◌then◌else◌, false, length, slice_index_or, IfOk, OnOk};
ghost use Rattle.std.specs.List.{All, list_any};
ghost use Rattle.code_blocks.specs.Numbers.{Ascends};
ghost use Rattle.dataflow.specs.Overlaid.{is_border};
ghost use Rattle.relink_core.specs.{Copies.{IsSource, IsPlacedCopy}, StubBlocks.{enters_copy, stub_blocks}};

use crate::code_regions::CodeRegions;
use crate::copy_source::CopySource;
use crate::copying::piece_of;
use crate::placed_copy::PlacedCopy;
use code_blocks::Code;
use std::alloc::{AllocError, Global};

/// The blocks that stubs serve: those by which control enters a region, and those of copies to which it may come from
/// outside their copy. It fails only where no memory was left.
pub(crate) fn served_blocks(
    alloc: Global,
    source: &CopySource,
    regions: &CodeRegions,
    copies: &[PlacedCopy],
) -> Result<Vec<u32>, AllocError>
    requires source { IsSource source.now }
    requires copies { All (IsPlacedCopy source.now) copies.now }
    ensures { IfOk result (λ blocks. blocks.items ≡ stub_blocks source.now.code.now regions.now copies.now) }
{
    let entered = entered_blocks(alloc, source, copies)?;
    let mut served = Vec::new(alloc);
    for b in 0..source.code.blocks.len() {
        push_served(&mut served, source.code, regions, &entered, b)?;
    }
    Ok(served)
}

/// Adds block `b`, if it is served.
fn push_served(
    served: &mut Vec<u32>,
    code: &Code,
    regions: &CodeRegions,
    entered: &[bool],
    b: usize,
) -> Result<(), AllocError>
    requires ascending { Ascends code.now }
    requires below { b < length code.now.blocks.items }
    ensures { OnOk result (served.new.items ≡ served.old.items ++ (if is_border regions.now.border.now b || slice_index_or entered.now b false then b ∷ [] else [])) }
{
    if is_served(regions, entered, b) {
        served.push(number_of(code, b))?;
    }
    Ok(())
}

/// Whether block `b` is served.
fn is_served(regions: &CodeRegions, entered: &[bool], b: usize) -> bool
    ensures { result ≡ (is_border regions.now.border.now b || slice_index_or entered.now b false) }
{
    regions.is_border(b) || (b < entered.len() && entered[b])
}

/// The number of a block in 32 bits: blocks begin at addresses, so there are no more.
fn number_of(code: &Code, block: usize) -> u32
    requires ascending { Ascends code.now }
    requires below { block < length code.now.blocks.items }
    ensures { result ≡ block }
{
    number_below(block, code.blocks[block].start)
}

/// A number that is at most an address, in 32 bits.
fn number_below(number: usize, address: u32) -> u32
    requires { number ≤ address }
    ensures { result ≡ number }
{
    number as u32
}

/// Whether control may come to each block from outside a copy that has it.
fn entered_blocks(
    alloc: Global,
    source: &CopySource,
    copies: &[PlacedCopy],
) -> Result<Vec<bool>, AllocError>
    requires source { IsSource source.now }
    requires copies { All (IsPlacedCopy source.now) copies.now }
    ensures { IfOk result (λ entered. (b : ℕ) → slice_index_or entered.items b false ≡ list_any (enters_copy source.now.code.now b) copies.now) }
{
    let mut entered = vec![in alloc; false; source.code.blocks.len()]?;
    for k in 0..copies.len() {
        enter_copy(&mut entered, source, &copies[k]);
    }
    Ok(entered)
}

/// Marks the entries of a copy.
fn enter_copy(entered: &mut [bool], source: &CopySource, copy: &PlacedCopy)
    requires source { IsSource source.now }
    requires copy { IsPlacedCopy source.now copy.now }
    requires len { length entered.old ≡ length source.now.code.now.blocks.items }
    ensures len { length entered.new ≡ length entered.old }
    ensures marked { (b : ℕ) → slice_index_or entered.new b false ≡ (slice_index_or entered.old b false || enters_copy source.now.code.now b copy.now) }
{
    let piece = piece_of(source.pieces, &copy.range);
    mark_blocks(entered, &piece.entries);
}

/// Marks some blocks.
fn mark_blocks(marks: &mut [bool], blocks: &[u32])
    requires { All (λ b. b < length marks.old) blocks.now }
    ensures len { length marks.new ≡ length marks.old }
    ensures marked { (b : ℕ) → slice_index_or marks.new b false ≡ (slice_index_or marks.old b false || list_any (λ e. e == b) blocks.now) }
{
    for block in blocks {
        mark_block(marks, *block as usize);
    }
}

/// Marks a block.
fn mark_block(marks: &mut [bool], block: usize)
    requires { block < length marks.old }
    ensures len { length marks.new ≡ length marks.old }
    ensures marked { (b : ℕ) → slice_index_or marks.new b false ≡ (slice_index_or marks.old b false || (block == b)) }
{
    marks[block] = true;
}
