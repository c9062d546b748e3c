//! The regions of a program, in which objects and code may share the scratchpad in turn.
#![tactic(auto)]

mod borders;
mod fault;
mod flow;
mod forming;
mod listing;
mod names;
mod naming;
mod propagation;
mod reaching;
mod table;

pub use fault::RegionFault;
pub use forming::regions;
pub use table::RegionTable;
