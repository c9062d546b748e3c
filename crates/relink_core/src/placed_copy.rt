use block_splitter::{BlockRange, CopyCode};

/// A piece that is taken: its blocks, the address of its copy, and the copy.
#[derive(Drop)]
pub struct PlacedCopy {
    pub range: BlockRange,
    pub at: u32,
    pub code: CopyCode,
}
