ghost use Rattle.std.specs.Prelude.{◌≡◌, true};
ghost use Rattle.code_blocks.specs.declared.parts.Code.{Code};
ghost use Rattle.dataflow.specs.Tables.{IsTableOf};
ghost use Rattle.block_splitter.specs.{Forms.{holds_block}, Pieces.{IsTemporary, HasTemporary}, Copies.{address_of, words_before}};
ghost use Rattle.relink_core.specs.Copies.{IsSource, copied_in, IsPlacedCopy};

use crate::copy_source::CopySource;
use crate::placed_copy::PlacedCopy;
use dataflow::LiveTable;
use rv32im::RegSet;

/// A register that a jump to the block at an address may write.
pub(crate) fn temporary(live: &LiveTable, address: u32) -> u8
    requires { (c : Code) × IsTableOf c live.now × HasTemporary c address 0 }
    ensures { (c : Code) → IsTableOf c live.now → IsTemporary c address 0 result }
{
    match live.dead_at(address, RegSet { bits: 1 }) {
        Some(register) => register,
        None => unreachable!(),
    }
}

/// Where the copy of a block begins.
pub(crate) fn copied_start(source: &CopySource, copy: &PlacedCopy, block: u32) -> u32
    requires source { IsSource source.now }
    requires copy { IsPlacedCopy source.now copy.now }
    requires inside { holds_block block copy.now.range ≡ true }
    ensures { result ≡ address_of (copied_in source.now copy.now) (words_before (copied_in source.now copy.now) block) }
{
    copy.at + copy.code.starts[(block - copy.range.first) as usize]
}
