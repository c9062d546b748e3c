//! Bounds by Lagrangian duals: what no choice below a node of a search gains more than, with multipliers in place of the
//! capacities of rows, and the choices that are met on the way to it.
//!
//! A search asks through a guide. Nothing is proved of what it answers: whoever asks tests each answer.
#![tactic(auto)]

mod bounding;
mod columns;
mod completing;
mod guiding;
mod lagrangian;
mod layout;
mod live;
mod named_rows;
mod node;
mod numbers;
mod relaxation;

pub use bounding::DualBound;
pub use guiding::{DualSolution, Guide, NodeBound};
