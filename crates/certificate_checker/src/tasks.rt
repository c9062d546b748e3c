use crate::row_wise::RowWise;
use placement_programme::Side;

/// What a tree in a text is read for: its side, with its weights by rows, and a choice's gain, in a text of `total` bytes, with
/// at most `levels` levels. A tree that isn't judged is only read.
#[derive(Drop)]
pub(crate) struct Task<'a> {
    pub side: &'a Side,
    pub by_row: &'a RowWise,
    pub judged: bool,
    pub best: u128,
    pub total: usize,
    pub levels: u32,
}
