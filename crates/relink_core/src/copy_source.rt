use block_splitter::Piece;
use code_blocks::Code;
use dataflow::LiveTable;
use object_graph::Graph;

/// What is known of the code whose pieces are copied.
#[derive(Drop)]
pub struct CopySource<'a> {
    /// Its blocks.
    pub code: &'a Code,
    /// The registers that are live where they begin.
    pub live: &'a LiveTable,
    /// Its sites.
    pub graph: &'a Graph,
    /// Its pieces, by first block and then by last.
    pub pieces: &'a [Piece],
    /// The addresses of sites, ascending, and their new words.
    pub sites: &'a [(u32, u32)],
}
