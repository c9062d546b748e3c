//! The energy of a run: what its fetches, loads and stores cost, at home and with items in the scratchpad, throughout or by
//! overlay. What items save is counted from the tables of the run's profile.
#![tactic(auto)]

mod base;
mod block_counts;
mod blocks;
mod checks;
mod copy_prices;
mod edges;
mod entering;
mod entering_counts;
mod first_units;
mod laws;
mod object_counts;
mod objects;
mod overlaying;
mod piece_gains;
mod pieces;
mod stretches;
mod switches;
mod units;
mod words;

pub use base::base_of;
pub use block_counts::{BlockCounts, PieceCounts, PieceSums, Reach, Stretch};
pub use blocks::count_blocks;
pub use checks::count_checks;
pub use copy_prices::{back_price, into_price, object_rounds};
pub use entering::{RunTables, count_entering};
pub use entering_counts::EnteringCounts;
pub use laws::{
    kept_is_counted, object_is_counted, overlay_is_counted, piece_is_counted, saves_as_alone,
};
pub use object_counts::ObjectCounts;
pub use objects::{kept_counts, object_gain, overlaid_counts};
pub use overlaying::overlay_cost;
pub use piece_gains::piece_gain;
pub use pieces::{block_may_stay, count_piece, edge_start, holds};
