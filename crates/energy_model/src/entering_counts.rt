/// What is counted of the blocks of a piece by which control enters a region.
#[derive(Clone, Copy)]
pub struct EnteringCounts {
    /// How often they began, each time with a check.
    pub checks: u128,
    /// The words of their first units that run displaced.
    pub displaced: u128,
    /// The words of their first units that run at home.
    pub first: u128,
    /// How often control came to them from outside the piece.
    pub came: u128,
}

/// What is counted of some of these blocks.
#[derive(Clone, Copy)]
pub(crate) struct EnteringSums {
    /// How often they began, and the words of their first units, displaced and at home.
    pub checks: u128,
    pub displaced: u128,
    pub first: u128,
    /// Whether the run stopped with an edge to one of them.
    pub pending: u128,
    /// How often control went to one of them from a block of the piece that they may follow in the copy.
    pub stayed: u128,
}
