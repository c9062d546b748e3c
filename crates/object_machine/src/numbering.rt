ghost use Rattle.std.specs.Prelude.{◌≡◌, ◌<◌, true, false, length, slice_index, IfOk};
ghost use Rattle.std.specs.List.Sorted.{IsStrictlyIncreasing};
ghost use Rattle.code_blocks.specs.{Early.{has}, Numbers.{starts_of, start_at, IsNumberAt}};
ghost use Rattle.object_machine.specs.Numbering.{AreNumbers};

use crate::units::Prepared;
use code_blocks::Code;
use std::alloc::{AllocError, Global};

/// For each unit the number of the block that begins with it, if one does.
pub(crate) fn block_numbers(
    alloc: Global,
    code: &Code,
    units: &[Prepared],
) -> Result<Vec<Option<u32>>, AllocError>
    requires { IsStrictlyIncreasing (starts_of code.now) }
    ensures { IfOk result (λ numbers. AreNumbers (starts_of code.now) units.now (length units.now) numbers.items) }
{
    let mut numbers = Vec::new(alloc);
    let mut next = 0;
    for k in 0..units.len() {
        let number = number_at(code, next, units[k].at);
        next = behind(next, number);
        numbers.push(number)?;
    }
    Ok(numbers)
}

/// The number of the next block, where the last of those that began has this one, or none of them.
fn behind(next: u32, number: Option<u32>) -> u32 {
    match number {
        Some(number) => number.saturating_add(1),
        None => next,
    }
}

/// The number of the block that begins at an address, if one does. That takes less time at the start of block `next`, and
/// between it and the start before.
fn number_at(code: &Code, next: u32, address: u32) -> Option<u32>
    requires { IsStrictlyIncreasing (starts_of code.now) }
    ensures { IsNumberAt code.now address result }
{
    if begins_at(code, next, address) {
        return Some(next);
    }
    if is_between(code, next, address) {
        return None;
    }
    code.block_at(address)
}

/// Whether block `k`, if there is one, begins at an address.
fn begins_at(code: &Code, k: u32, address: u32) -> bool
    ensures { result ≡ true → (k < length code.now.blocks.items) × (start_at code.now k ≡ address) }
{
    (k as usize) < code.blocks.len() && code.blocks[k as usize].start == address
}

/// Whether an address is before the start of block `next`, if there is one, and behind that of the block before.
fn is_between(code: &Code, next: u32, address: u32) -> bool
    requires { IsStrictlyIncreasing (starts_of code.now) }
    ensures { result ≡ true → has (starts_of code.now) address ≡ false }
{
    if next == 0 {
        return false;
    }
    let near = next as usize - 1;
    if begins_before(code, near, address) {
        begins_behind(code, near + 1, address)
    } else {
        false
    }
}

/// Whether block `k`, if there is one, begins before an address.
fn begins_before(code: &Code, k: usize, address: u32) -> bool
    ensures { result ≡ true → (k < length code.now.blocks.items) × (slice_index (starts_of code.now) k < address) }
{
    k < code.blocks.len() && code.blocks[k].start < address
}

/// Whether block `k`, if there is one, begins behind an address.
fn begins_behind(code: &Code, k: usize, address: u32) -> bool
    ensures { result ≡ true → k < length code.now.blocks.items → address < slice_index (starts_of code.now) k }
{
    if k < code.blocks.len() {
        address < code.blocks[k].start
    } else {
        true
    }
}
