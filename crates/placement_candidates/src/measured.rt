use block_splitter::Piece;
use board_config::Board;
use code_blocks::Code;
use object_graph::Graph;
use profile_runner::Profile;
use region_former::RegionTable;

/// A program whose run was measured: its parts, the pieces that may be taken, the board, and the profile.
#[derive(Drop)]
pub struct Measured<'a> {
    pub profile: &'a Profile,
    pub graph: &'a Graph,
    pub code: &'a Code,
    pub regions: &'a RegionTable,
    /// Pieces of the code, each once and in order.
    pub pieces: &'a [Piece],
    pub board: &'a Board,
}
