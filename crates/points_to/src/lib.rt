//! Which registers may hold addresses of an object where the blocks of a program begin, and which objects' addresses may
//! stand in memory.
#![tactic(auto)]

mod blocks;
mod edges;
mod flows;
mod marks;
mod nodes;
mod pointing;
mod reached;
mod sources;
mod starting;
mod table;

pub use pointing::points;
pub use reached::Reached;
pub use table::PointsTable;
