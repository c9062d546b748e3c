ghost use Rattle.std.specs.Prelude.{◌≡◌, ℕ, ◌<◌, ◌≤◌, nat_le, ◌&&◌, if◌then◌else◌, length, slice_index_or, IfOk};
ghost use Rattle.std.specs.List.{All};
ghost use Rattle.block_splitter.specs.Forms.{holds_block};
ghost use Rattle.relink_core.specs.StubBlocks.{HasCopyNumbers};

use crate::placed_copy::PlacedCopy;
use block_splitter::BlockRange;
use std::alloc::{AllocError, Global};

/// Which copy has each block, by number: a later one before an earlier one, and the number of all copies where none has
/// it. It fails only where no memory was left.
pub(crate) fn copy_numbers(
    alloc: Global,
    copies: &[PlacedCopy],
    blocks: usize,
) -> Result<Vec<usize>, AllocError>
    requires { All (λ x. (x.range.first ≤ x.range.last) × (x.range.last < blocks)) copies.now }
    ensures { IfOk result (λ numbers. HasCopyNumbers copies.now (length copies.now) blocks numbers.items) }
{
    let mut numbers = vec![in alloc; copies.len(); blocks]?;
    for k in 0..copies.len() {
        number_blocks(&mut numbers, &copies[k].range, k);
    }
    Ok(numbers)
}

/// Puts a number at each block of a range.
fn number_blocks(numbers: &mut [usize], range: &BlockRange, number: usize)
    requires ordered { range.now.first ≤ range.now.last }
    requires within { range.now.last < length numbers.old }
    ensures len { length numbers.new ≡ length numbers.old }
    ensures put { (b : ℕ) → slice_index_or numbers.new b 0 ≡ (if holds_block b range.now then number else slice_index_or numbers.old b 0) }
{
    for b in range.first as usize..range.last as usize + 1 {
        numbers[b] = number;
    }
}
