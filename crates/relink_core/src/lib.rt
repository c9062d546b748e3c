//! The analyses of a program, and its result for a choice of what stands in the scratchpad: the copies of pieces, the stubs of
//! their entries and of regions, the pads that lead there, the plan of the patch range, and the file with all of these.
#![tactic(auto)]

mod analysis;
mod choosing;
mod chosen_results;
mod code_regions;
mod copy_numbers;
mod copy_source;
mod copying;
mod entering;
mod fault;
mod form_sources;
mod items;
mod jobs;
mod laws;
mod moved_ranges;
mod padding;
mod patching;
mod placed_copy;
mod plan;
mod plan_laws;
mod realising;
mod regions;
mod segments;
mod served;
mod serving;
mod serving_plan;
mod site_regions;
mod standing;
mod symbol_moves;
mod unit_forms;
mod unit_maps;

pub use analysis::{Analysis, analyse};
pub use code_regions::CodeRegions;
pub use copy_source::CopySource;
pub use copying::copies;
pub use fault::AnalyseFault;
pub use items::PlannedItems;
pub use laws::{absolute_keeps_runs, results_are_read, unmoved_file_keeps};
pub use padding::padded_words;
pub use placed_copy::PlacedCopy;
pub use plan::patch_plan;
pub use plan_laws::{plans_fit, stubs_have_room};
pub use realising::{MovedParts, Realised, realise};
pub use serving::serving_stubs;
pub use unit_forms::UnitAt;
pub use unit_maps::{RealisedUnits, realise_units, unit_map};
