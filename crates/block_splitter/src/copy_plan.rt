use crate::block_range::BlockRange;
use code_blocks::Code;
use dataflow::LiveTable;
use object_graph::Graph;

/// What is copied, to which address, and what is known of it.
#[derive(Drop)]
pub(crate) struct CopyPlan<'a> {
    pub(crate) code: &'a Code,
    pub(crate) live: &'a LiveTable,
    pub(crate) graph: &'a Graph,
    pub(crate) range: BlockRange,
    /// Where the copy stands. Its words are the same wherever that is.
    pub(crate) at: u32,
    /// The addresses of sites, ascending, and their new words.
    pub(crate) sites: &'a [(u32, u32)],
}
