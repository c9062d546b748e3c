//! A machine on which the objects that may move have no addresses.
#![tactic(auto)]

mod events;
mod extending;
mod footprints;
mod landings;
mod laws;
mod machine;
mod naming;
mod numbering;
mod op;
mod preparing;
mod register_file;
mod spots;
mod starting;
mod tables;
mod tabling;
mod units;
mod widest;
mod widths;

pub use events::{Access, Event, Outcome};
pub use footprints::{AccessKind, Footprint};
pub use laws::{ended_stays, is_determined, output_grows, steps_compose};
pub use machine::Source;
