//! The flat machine: runs an RV32IM program on the memory of a board, with calls to read, write
//! and exit.
#![tactic(auto)]

mod accesses;
mod events;
mod known;
mod known_table;
mod laws;
mod loading;
mod machine;
mod mapping;
mod naming;
mod op;
mod reach;

pub use events::{FlatAccess, FlatEvent, FlatOutcome};
pub use known::Known;
pub use laws::{
    ended_stays, events_compose, events_count, is_determined, lines_run, output_grows,
    performs_meaning, steps_compose, words_stay,
};
pub use machine::Flat;
pub use op::Op;
