//! How far a long computation is.

/// Who is told how far a long computation is. What it does with that changes no result.
pub trait Progress {
    /// A measured run has taken so many steps, of at most so many.
    fn steps(&self, done: u64, most: u64);

    /// A search for a choice may visit so many nodes more; the best choice so far saves so much, and none saves more than
    /// the bound, where there is one, in price units.
    fn nodes(&self, left: u64, saved: u128, bound: Option<u128>);
}

/// One who says nothing of it.
#[derive(Clone, Copy)]
pub struct NoProgress;

impl Progress for NoProgress {
    fn steps(&self, _done: u64, _most: u64) {}

    fn nodes(&self, _left: u64, _saved: u128, _bound: Option<u128>) {}
}
