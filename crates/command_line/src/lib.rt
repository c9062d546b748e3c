//! The commands of spmlink: `run` does what the words of a command line ask for, over a shelf of files and a sink for what is
//! printed; `run_command` also tells how a measured run ended.
#![tactic(auto)]

mod accepting;
mod check_file;
mod check_mix_file;
mod chosen;
mod compare_files;
mod delivery;
mod hex_files;
mod input_texts;
mod laws;
mod measured_text;
mod mix_file;
mod mix_inputs;
mod mix_results;
mod observing;
mod opened;
mod opening;
mod outcomes;
mod paid_file;
mod performing;
mod profile_file;
mod reading;
mod relink_file;
mod relinked_file;
mod results;
mod run_file;
mod safety;
mod show_file;
mod top;
mod trace_file;

pub use accepting::{AcceptedChoice, accepted_choice};
pub use chosen::ChosenPlacement;
pub use delivery::PreparedResult;
pub use input_texts::InputTexts;
pub use laws::compared_runs_safely;
pub use observing::{NoObserver, Observer};
pub use opened::Opened;
pub use opening::open;
pub use safety::is_seen_safe;
pub use top::{CommandOutcome, run, run_command};
