ghost use Rattle.std.specs.Prelude.{◌≡◌};
ghost use Rattle.branch_bound.specs.SideStands.{is_side_ended};

/// Where a search that a guide leads stands.
#[derive(Drop)]
pub(crate) enum Stand {
    /// Before a node.
    Before,
    /// Behind a node that is closed.
    Behind,
    /// At its end: all is closed, or it came to no end.
    Ended { whole: bool },
}

pub(crate) fn has_ended(stand: &Stand) -> bool
    ensures { result ≡ is_side_ended stand.now }
{
    match stand {
        Stand::Before => false,
        Stand::Behind => false,
        Stand::Ended { .. } => true,
    }
}
