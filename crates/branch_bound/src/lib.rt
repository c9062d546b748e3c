//! Best choices of placement programmes within a budget of nodes, each with a certificate where it is shown to be best: a
//! search that a Lagrangian bound guides, and behind it branch and bound in the order of the stated list.
#![tactic(auto)]

mod certifying;
mod closing;
mod exceeding;
mod fathoming;
mod finishing;
mod greedy;
mod improving;
mod incumbents;
mod laws;
mod ones;
mod open_branches;
mod outcomes;
mod ranking;
mod running;
mod searching;
mod side_certifying;
mod side_incumbents;
mod side_searching;
mod side_stands;
mod side_visiting;
mod solving;
mod stands;
mod starting;
mod trails;
mod visiting;

pub use greedy::fill;
pub use laws::stated_lists_exist;
pub use outcomes::{Found, Status};
pub use side_certifying::certify;
pub use side_incumbents::Incumbent;
pub use side_visiting::Round;
pub use solving::solve;
