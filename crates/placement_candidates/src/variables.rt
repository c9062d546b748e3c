use crate::row_ranges::RowRange;
use placement_programme::VarName;

/// What an item weighs, in ranges of rows, so that a piece of many blocks takes no more memory than one of few.
#[derive(Clone, Copy)]
pub struct Weights {
    /// The rows of the scratchpad's space, throughout or by region.
    pub space: RowRange,
    /// The row of the patch range.
    pub patch: RowRange,
    /// The rows of a piece's blocks, or of an object by region.
    pub own: RowRange,
}

/// A candidate with its gain, which may be 0 or below.
#[derive(Drop)]
pub struct FullVar {
    pub name: VarName,
    /// The energy that it saves, in the units of the board's prices.
    pub gain: i128,
    pub weights: Weights,
}
