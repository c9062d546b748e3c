//! Why a relinked file does what its program does: definitions and laws alone. No code here runs. From the lowest on:
//!
//! - `CopyLaws`: the copy of a unit, and a displaced unit, do on the flat machine what the unit does at home.
//! - `JobLaws`, `SwitchLaws`, `PatchLaws`: the jobs of a choice with overlay, and what they leave in memory.
//! - `ArrivalLaws`: how stubs and the switch routine bring the flat machine from one region to the next.
//! - `HomeLaws`, `ResultLaws`: where things stand in a file that is loaded as it is, and which registers matter at its units.
//! - `SetupLaws`: where objects and code stand in each region for a choice with overlay.
//! - `Held`: where addresses of objects may be while a program runs, and what this says where control enters a region.
//! - `PlacementLaws`: where things stand in a result, what its memory holds, and what is asked of a choice.
//! - `PlacedLaws`: a result in which things stand so keeps the program's meaning.
#![tactic(auto)]

mod arrival_laws;
mod border_laws;
mod copy_laws;
mod held_laws;
mod home_laws;
mod job_laws;
mod live_laws;
mod placed_laws;
mod placement_laws;
mod setup_laws;

pub use arrival_laws::{choices_serve, switches_change};
pub use border_laws::{
    borders_are_free, enters_at_borders, regions_tell_borders, starts_at_border,
};
pub use copy_laws::{
    copied_blocks_fall, copied_units_run, copies_leave_registers, displaced_units_run,
    first_units_are_kinds, others_keep_words, runs_count, temporaries_are_dead, units_are_kinds,
    units_follow, units_mean,
};
pub use held_laws::{held_at_start, held_in_runs, held_stays, one_unit};
pub use home_laws::{
    absolute_runs_are_paired, file_keeps, home_is_sound, one_graph, one_run, start_is_alike,
    units_are_home,
};
pub use job_laws::{
    code_numbers, copies_hold, images_lie, jobs_fit, jobs_spare, routine_switches, start_moves,
    switches_move,
};
pub use live_laws::{code_units_stand, liveness_keeps, steps_lead_on};
pub use placed_laws::{
    arrivals_are_determined, placed_result_keeps, placed_states_match, placed_walks,
    walks_are_counted,
};
pub use placement_laws::choice_lays_out;
pub use setup_laws::{
    choice_can_switch, choice_is_sound, homes_of_choice, jobs_of_choice_serve, plan_of_choice,
    setup_of_choice,
};
