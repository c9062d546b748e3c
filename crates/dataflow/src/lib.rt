//! What holds where the basic blocks of a program begin, by facts that spread along the edges of its code:
//!
//! - liveness: which registers some path of units from there uses before it defines them;
//! - points-to: by which rules an address comes to a register or to memory;
//! - exposure: which objects' addresses may stand in memory, or in a register that is asked for where its block begins. It is
//!   followed against the flow of control, by one set of registers for each block, so that the time doesn't grow with the
//!   number of objects times that of blocks.
#![tactic(auto)]

mod backward;
mod edges;
mod exposing;
mod flow;
mod holders;
mod laws;
mod living;
mod marking;
mod registers;
mod spreading;
mod summaries;
mod table;
mod transfers;
mod units;

pub use backward::back_edges;
pub use exposing::exposed_objects;
pub use laws::words_escape;
pub use living::live;
pub use table::LiveTable;
pub use units::{first_source, loads, made, second_source, stored, written};
