//! What may be taken into the scratchpad, throughout or by overlay, and what it gains: the programme that a run states, and the
//! one that several runs state together, each with a weight.
#![tactic(auto)]

mod adding;
mod border_registers;
mod counting;
mod finding;
mod full_sides;
mod measured;
mod mix_laws;
mod mixing;
mod objects;
mod one_more;
mod overlaid_vars;
mod overlay_gains;
mod overlay_laws;
mod overlay_parts;
mod overlay_rows;
mod part;
mod piece_regions;
mod pieces;
mod ranking;
mod region_sites;
mod row_ranges;
mod selecting;
mod sums;
mod tallies;
mod variables;
mod weight_rows;
mod whole_side;

pub use adding::energy_adds_up;
pub use counting::{full, side_of, stub_price};
pub use finding::overlaid_objects;
pub use full_sides::{Full, FullSide};
pub use measured::Measured;
pub use mix_laws::{mix_is_of_the_runs, mixed_energy_is_of_the_runs, one_run_is_alone};
pub use mixing::mix;
pub use objects::{data_gain, data_span, object_at};
pub use one_more::mix_more;
pub use overlay_laws::{off_side_stays, overlay_adds_up, whole_energy_is_of_the_run};
pub use part::Part;
pub use pieces::code_span;
pub use row_ranges::RowRange;
pub use selecting::{rows_of, select};
pub use variables::{FullVar, Weights};
pub use weight_rows::{JOB_BYTES, STUB_BYTES, push_rows};
pub use whole_side::whole_full;
