//! The machine whose objects have no addresses and the flat machine do the same, within a region of the program and from one to
//! the next: definitions and laws alone. No code here runs.
#![tactic(auto)]

mod laws;
mod region_laws;

pub use laws::{made_at_start, made_stays, runs_at_home, units_at_home};
pub use region_laws::{
    homes_stayed, places_decide, regions_change, unwritten_are_home, unwritten_stay,
};
