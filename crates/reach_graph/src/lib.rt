//! Which marks come to which nodes of a directed graph: the least table that holds those at the start and lets them
//! pass along the edges; and the queue of nodes that wait to pass theirs on.
#![tactic(auto)]

mod edges;
mod marks;
mod propagation;
mod queue;

pub use edges::Edge;
pub use marks::{has_mark, joined, one_mark};
pub use propagation::{grow, propagate};
pub use queue::Queue;
