//! How often blocks, edges and accesses happen in a run of the machine without addresses.
#![tactic(auto)]

mod changes;
mod counts;
mod edge_counts;
mod edge_row;
mod edges;
mod fault;
mod filling;
mod finding;
mod joining;
mod laws;
mod rows;
mod running;
mod tally;

pub use counts::{Edge, Profile};
pub use fault::ProfileFault;
pub use laws::{transitions_are_determined, transitions_are_few, transitions_are_steps};
pub use running::{Parts, profile};
