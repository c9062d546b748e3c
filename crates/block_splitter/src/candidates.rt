ghost use Rattle.std.specs.Prelude.{◌≡◌, ◌↔◌, ℕ, suc, ◌<◌, ◌≤◌, Bool, true, ◌++◌, IfOk, OnOk, Some};
ghost use Rattle.std.specs.List.{list_any, AllPairs};
ghost use Rattle.code_blocks.specs.{Blocks.{IsSomeCode}, Numbers.{Ascends}, Leads.{owner_at}};
ghost use Rattle.block_splitter.specs.{declared.block_range.BlockRange.{BlockRange}, Pieces.{ComesBefore}, Facts.{block_count, target_of, range_to, IsOnly, StartsSingle, StartsLoop, StartsFunction, IsRunFirst, AddsEnding, AreCandidates}};

use crate::block_range::BlockRange;
use crate::sources::number_of;
use code_blocks::{Code, End};
use std::alloc::{AllocError, Global};

/// The ranges of blocks that have the shape of a piece: functions, loops and single blocks.
pub(crate) fn candidates(alloc: Global, code: &Code) -> Result<Vec<BlockRange>, AllocError>
    requires code { IsSomeCode code.now }
    ensures { IfOk result (λ ranges. AreCandidates code.now ranges.items) }
{
    let mut ranges = Vec::new(alloc);
    let mut first = 0;
    for last in 0..code.blocks.len() {
        first = run_first(code, first, last);
        add_ending(&mut ranges, code, first, last)?;
    }
    arrange(&mut ranges);
    Ok(ranges)
}

/// Sorts ranges, and keeps each once.
fn arrange(ranges: &mut Vec<BlockRange>)
    ensures ordered { AllPairs ComesBefore ranges.new.items }
    ensures same { (test : BlockRange → Bool) → list_any test ranges.new.items ≡ list_any test ranges.old.items }
{
    ranges.sort_unstable();
    ranges.dedup();
}

/// The first block of the function of block `b`, by that of the block before.
fn run_first(code: &Code, before: usize, b: usize) -> usize
    requires code { IsSomeCode code.now }
    requires below { b < block_count code.now }
    requires before { (k : ℕ) → b ≡ suc k → IsRunFirst code.now k before }
    ensures { IsRunFirst code.now b result }
{
    if b > 0 && is_same_function(code, b - 1, b) {
        before
    } else {
        b
    }
}

/// Two blocks are of the same function, or of none.
fn is_same_function(code: &Code, a: usize, b: usize) -> bool
    requires first { a < block_count code.now }
    requires second { b < block_count code.now }
    ensures { (result ≡ true) ↔ (owner_at code.now a ≡ owner_at code.now b) }
{
    match (code.blocks[a].function, code.blocks[b].function) {
        (Some(one), Some(other)) => one == other,
        (None, None) => true,
        _ => false,
    }
}

/// Adds the ranges whose last block is `last`, of whose function `first` is the first block.
fn add_ending(
    ranges: &mut Vec<BlockRange>,
    code: &Code,
    first: usize,
    last: usize,
) -> Result<(), AllocError>
    requires code { IsSomeCode code.now }
    requires below { last < block_count code.now }
    requires first { IsRunFirst code.now last first }
    ensures { OnOk result (AddsEnding code.now last ranges.old.items ranges.new.items) }
{
    let number = number_of(code, last);
    add_range(ranges, single_first(code, last), number)?;
    add_range(ranges, loop_first(code, last), number)?;
    add_range(ranges, function_first(code, first, last), number)?;
    Ok(())
}

/// Adds a range, if it has a first block.
fn add_range(ranges: &mut Vec<BlockRange>, first: Option<u32>, last: u32) -> Result<(), AllocError>
    ensures { OnOk result (ranges.new.items ≡ ranges.old.items ++ range_to last first) }
{
    if let Some(first) = first {
        ranges.push(BlockRange { first, last })?;
    }
    Ok(())
}

/// The block itself, if it is of a function.
fn single_first(code: &Code, b: usize) -> Option<u32>
    requires ascending { Ascends code.now }
    requires below { b < block_count code.now }
    ensures { IsOnly (StartsSingle code.now b) result }
{
    match code.blocks[b].function {
        Some(_) => Some(number_of(code, b)),
        None => None,
    }
}

/// The first block of the loop that block `b` closes, if it does.
fn loop_first(code: &Code, b: usize) -> Option<u32>
    requires code { IsSomeCode code.now }
    requires below { b < block_count code.now }
    ensures { IsOnly (StartsLoop code.now b) result }
{
    let Some(target) = jump_target(&code.blocks[b].end) else {
        return None;
    };
    let Some(first) = code.block_at(target) else {
        return None;
    };
    if is_loop(code, first as usize, b) {
        Some(first)
    } else {
        None
    }
}

/// Where a block branches or jumps.
fn jump_target(end: &End) -> Option<u32>
    ensures { result ≡ target_of end.now }
{
    match *end {
        End::Branch { target, .. } => Some(target),
        End::Jump { target } => Some(target),
        _ => None,
    }
}

/// Block `first` stands at block `last` or before it, in the same function.
fn is_loop(code: &Code, first: usize, last: usize) -> bool
    requires first { first < block_count code.now }
    requires last { last < block_count code.now }
    ensures { (result ≡ true) ↔ (first ≤ last × (f : ℕ) × (owner_at code.now first ≡ Some f) × (owner_at code.now last ≡ Some f)) }
{
    first <= last && code.blocks[last].function.is_some() && is_same_function(code, first, last)
}

/// The first block of a function whose last block is `last`.
fn function_first(code: &Code, first: usize, last: usize) -> Option<u32>
    requires code { IsSomeCode code.now }
    requires below { last < block_count code.now }
    requires first { IsRunFirst code.now last first }
    ensures { IsOnly (StartsFunction code.now last) result }
{
    if ends_function(code, last) {
        Some(number_of(code, first))
    } else {
        None
    }
}

/// Block `b` is of a function, and the block behind it is not of that one.
fn ends_function(code: &Code, b: usize) -> bool
    requires { b < block_count code.now }
    ensures { (result ≡ true) ↔ ((f : ℕ) × (owner_at code.now b ≡ Some f) × (suc b < block_count code.now → owner_at code.now (suc b) ≡ Some f → ⊥)) }
{
    if code.blocks[b].function.is_none() {
        return false;
    }
    b + 1 == code.blocks.len() || !is_same_function(code, b, b + 1)
}
