//! The whole way from a file to what it is relinked to: the runs of its program state a placement programme, the best
//! choice that is found of it is realised, and a report tells what that saves.
#![tactic(auto)]

mod finding;
mod laws;
mod making;
mod measuring;
mod mixing;
mod reporting;
mod stating;
mod taking;

pub use finding::{Solution, find_choice};
pub use laws::{mixed_is_realisable, stated_is_realisable};
pub use making::{Relinked, RelinkedRun, relink_analysed, relink_runs};
pub use measuring::{MeasuredEnd, MeasuredRun, measured_run};
pub use mixing::{WeightedBytes, programme_of_runs};
pub use reporting::relink_report;
pub use stating::{MeasuredProgramme, programme_of_run};
