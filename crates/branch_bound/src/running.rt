use crate::incumbents::Incumbent;
use shelf_io::Progress;

/// After how many nodes those who wait are told how far a search is.
const TOLD_NODES: u64 = 256;

/// What a search of a side carries along.
#[derive(Drop)]
pub(crate) struct Running {
    pub best: Incumbent,
    /// How many nodes may still be visited.
    pub left: u64,
}

/// Tells how far a search is, behind every so many nodes.
pub(crate) fn tell_nodes(progress: &dyn Progress, run: &Running) {
    if run.left % TOLD_NODES == 0 {
        progress.nodes(run.left, run.best.gain, None);
    }
}
