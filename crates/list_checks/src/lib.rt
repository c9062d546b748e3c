//! Checks in a fixed order and the first that fails, tests over the places of a table, and searches in sorted lists.
#![tactic(auto)]

mod first_faults;
mod lists;
mod place_tests;
mod search;

pub use first_faults::first_is_found;
pub use lists::{arrange, arrange_once};
pub use place_tests::{none_passes, place_is_found};
pub use search::{count_under, has, has_inside, place_of, repeats};
