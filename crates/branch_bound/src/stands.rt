ghost use Rattle.std.specs.Prelude.{◌≡◌};
ghost use Rattle.branch_bound.specs.Stands.{is_ended};

/// A node that is visited next.
#[derive(Clone, Copy, Drop)]
pub(crate) struct Next {
    /// No variable before this place of the order is free.
    pub place: usize,
    /// The variable that was fixed to one last; None where what the assignment takes was tried before.
    pub raised: Option<u32>,
}

/// Where a search stands.
#[derive(Drop)]
pub(crate) enum Stand {
    /// Before a node.
    Before(Next),
    /// Behind a node that is closed.
    Behind,
    /// At its end: all is closed, or the budget ended before.
    Ended { whole: bool },
}

pub(crate) fn has_ended(stand: &Stand) -> bool
    ensures { result ≡ is_ended stand.now }
{
    match stand {
        Stand::Before(_) => false,
        Stand::Behind => false,
        Stand::Ended { .. } => true,
    }
}
