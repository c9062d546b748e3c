use crate::side_incumbents::Incumbent;
use certificate_checker::{Certificate, Tree, TreeNode};

/// What the visit of a node finds.
#[derive(Drop)]
pub(crate) enum Visit {
    /// Nothing below gains more, as this node shows.
    Closed(TreeNode),
    /// The search branches on this variable.
    Open(u32),
    /// No rule closes the node, and no variable is free.
    Stuck,
}

/// What the search of the side with overlay finds.
#[derive(Drop)]
pub(crate) enum OnSide {
    /// The programme has none.
    Absent,
    Shown(Tree),
    /// The nodes that are left don't suffice.
    Unfinished,
}

/// What a round of searches of both sides finds.
#[derive(Drop)]
pub enum Round {
    /// A certificate that shows its choice to be best.
    Certified(Certificate),
    /// The nodes that are left don't suffice; the best choice so far.
    Unfinished(Incumbent),
}
