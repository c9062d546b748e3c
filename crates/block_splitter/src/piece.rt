/// Blocks that may be copied into the scratchpad together.
#[derive(Drop)]
pub struct Piece {
    /// The numbers of the first and of the last block.
    pub first: u32,
    pub last: u32,
    /// The numbers of the blocks by which control may enter it from elsewhere, ascending.
    pub entries: Vec<u32>,
    /// How many bytes its copy takes.
    pub bytes: u32,
}
