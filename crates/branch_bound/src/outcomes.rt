use crate::incumbents::Incumbent;
use certificate_checker::{Certificate, Tree};
use placement_programme::Choice;

/// What the search of a side ends with.
#[derive(Drop)]
pub(crate) struct Outcome {
    pub best: Incumbent,
    /// How many nodes may still be visited.
    pub left: u64,
    /// The tree that closes the side; None where the budget ended before.
    pub tree: Option<Tree>,
}

/// The trees of a programme's sides.
#[derive(Drop)]
pub(crate) struct Trees {
    pub off: Tree,
    pub on: Option<Tree>,
}

/// Whether a choice was shown to be best.
#[derive(Clone, Copy, PartialEq, Eq, Debug)]
pub enum Status {
    /// The certificate's trees show that no feasible choice gains more.
    Optimal,
    /// The budget of so many nodes ended before.
    BestFound { nodes: u64 },
}

/// The choice that was found, and its certificate.
#[derive(Drop)]
pub struct Found {
    pub choice: Choice,
    pub status: Status,
    /// Its choice is the same one. It has no tree where the choice is only the best that was found.
    pub certificate: Certificate,
}
