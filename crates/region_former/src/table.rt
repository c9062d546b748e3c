ghost use Rattle.std.specs.Prelude.{◌≡◌, ◌≤◌, length};
ghost use Rattle.std.specs.List.{All};

use code_blocks::Code;
use std::alloc::{AllocError, Global};

/// Which region each block of a program has. Region 0 is none.
#[derive(Drop)]
pub struct RegionTable {
    /// How many regions there are, at most 8: they have the numbers from 1 on.
    pub count: u32,
    /// The region of each block.
    pub of_block: Vec<u32>,
    /// Whether each block is one by which control may enter its region.
    pub border: Vec<bool>,
    ghost few: { count ≤ 8 },
    ghost within: { All (λ r. r ≤ count) of_block.items },
    ghost same: { length border.items ≡ length of_block.items },
}

impl RegionTable {
    ghost use Rattle.std.specs.Prelude.{IfOk, length, false, replicate};

    /// The table of a program whose blocks have no region.
    ///
    /// It fails only where no memory was left.
    pub fn none(alloc: Global, code: &Code) -> Result<RegionTable, AllocError>
        ensures count { IfOk result (λ t. t.count ≡ 0) }
        ensures regions { IfOk result (λ t. t.of_block.items ≡ replicate (length code.now.blocks.items) 0) }
        ensures borders { IfOk result (λ t. t.border.items ≡ replicate (length code.now.blocks.items) false) }
    {
        let blocks = code.blocks.len();
        Ok(RegionTable {
            count: 0,
            of_block: vec![in alloc; 0; blocks]?,
            border: vec![in alloc; false; blocks]?,
        })
    }
}
