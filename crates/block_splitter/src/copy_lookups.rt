//! What is looked up for a copy: blocks that it has, and registers by which control leaves it.

ghost use Rattle.std.specs.Prelude.{◌≡◌, ◌<◌, false, MatchOption};
ghost use Rattle.block_splitter.specs.{Forms.{holds_block}, Pieces.{IsTemporary, HasTemporary}, Copies.{is_inside}, Copying.{copy_in, IsPlan, AreStarts, IsBlockAt, IsStartOf}};

use crate::block_range::BlockRange;
use crate::copy_plan::CopyPlan;
use crate::registers::only;

/// The number of the copied block that begins at an address, if one does.
fn block_inside(plan: &CopyPlan, address: u32) -> Option<usize>
    requires { IsPlan plan.now }
    ensures { MatchOption result (is_inside (copy_in plan.now) address ≡ false) (IsBlockAt (copy_in plan.now) address) }
{
    match plan.code.block_at(address) {
        Some(block) => {
            if holds_block(&plan.range, block) {
                Some(block as usize)
            } else {
                None
            }
        }
        None => None,
    }
}

/// Whether a block is one of a range.
fn holds_block(range: &BlockRange, block: u32) -> bool
    ensures { result ≡ holds_block block range.now }
{
    range.first <= block && block <= range.last
}

/// Whether the copy has the block that begins at an address.
pub(crate) fn is_inside(plan: &CopyPlan, address: u32) -> bool
    requires { IsPlan plan.now }
    ensures { result ≡ is_inside (copy_in plan.now) address }
{
    block_inside(plan, address).is_some()
}

/// Where the copy has the block that begins at an address, in bytes from its beginning, if it has it.
pub(crate) fn start_inside(plan: &CopyPlan, starts: &[u32], address: u32) -> Option<u32>
    requires plan { IsPlan plan.now }
    requires starts { AreStarts (copy_in plan.now) starts.now }
    ensures { MatchOption result (is_inside (copy_in plan.now) address ≡ false) (IsStartOf (copy_in plan.now) address) }
{
    match block_inside(plan, address) {
        Some(block) => Some(starts[block - plan.range.first as usize]),
        None => None,
    }
}

/// A register other than `link` that a jump to the block at an address may write.
pub(crate) fn temporary(plan: &CopyPlan, address: u32, link: u8) -> u8
    requires plan { IsPlan plan.now }
    requires link { link < 32 }
    requires some { HasTemporary plan.now.code.now address link }
    ensures { IsTemporary plan.now.code.now address link result }
{
    match plan.live.dead_at(address, only(link)) {
        Some(register) => register,
        None => unreachable!(),
    }
}
