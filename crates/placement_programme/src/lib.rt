//! The 0-1 programme of a placement: which items stand in the scratchpad, what that gains, and what has room.
//!
//! A programme has a side without overlay (off) and may have one with it (on). Each row of a side is a resource with a
//! capacity; a variable is an item that may be taken, with a gain and a weight in some rows.
#![tactic(auto)]

mod choices;
mod fitting;
mod gains;
mod laws;
mod limits;
mod rows;
mod sides;
mod variables;

pub use choices::Choice;
pub use fitting::{feasible, fits, weight_of};
pub use gains::{energy, gain_of, gain_of_side};
pub use laws::{
    example_rows, example_weights, fewer_fit, more_load, nothing_fits, nothing_is_feasible,
    region_rows, region_weights, twin_rows, twin_weights, weights_are_in_rows,
};
pub use rows::{rows_ascend, value_in};
pub use sides::{Programme, Side};
pub use variables::{Var, VarName};
