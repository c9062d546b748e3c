/// What the blocks of a program ran, counted once for all pieces.
#[derive(Drop)]
pub struct BlockCounts {
    /// The words of each block at home, as often as they ran.
    pub home: Vec<u128>,
    /// The words of each block, as often as they ran, in a copy where all that the block leads to is of that copy.
    pub copied: Vec<u128>,
    /// For each block whether the run stopped with an edge to it: 1, and else 0.
    pub pending: Vec<u128>,
    /// Where the edges from each block begin in the profile; behind these, how many there are.
    pub edges: Vec<usize>,
    /// What each sixteen blocks ran, from the first block on, as far as there are so many.
    pub stretches: Vec<Stretch>,
}

/// What sixteen blocks that follow one another ran, which hold for each piece of which they are and that no edge from
/// them leaves.
#[derive(Clone, Copy)]
pub struct Stretch {
    pub sums: PieceSums,
    pub reach: Reach,
}

/// Where the edges lead from some blocks, where they may stay in a copy.
#[derive(Clone, Copy)]
pub struct Reach {
    /// The numbers of the first and of the last block to which one leads.
    pub first: u32,
    pub last: u32,
    /// Whether each leads where the end of its block says.
    pub plain: bool,
}

/// What a piece ran.
#[derive(Clone, Copy)]
pub struct PieceCounts {
    /// Its words at home.
    pub home: u128,
    /// Its words in a copy.
    pub copied: u128,
    /// How often control came to it from outside.
    pub came: u128,
}

/// What some blocks of a piece ran.
#[derive(Clone, Copy)]
pub struct PieceSums {
    /// The words at home, and in a copy.
    pub home: u128,
    pub copied: u128,
    /// How often they began, how often control went from them to a block of the piece that may follow in the copy, and
    /// whether the run stopped with an edge to one of them.
    pub arrived: u128,
    pub stayed: u128,
    pub pending: u128,
}

/// What the blocks of a piece ran from some block to the one before `end`.
#[derive(Clone, Copy)]
pub(crate) struct PiecePart {
    pub sums: PieceSums,
    pub end: usize,
}
