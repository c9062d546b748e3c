//! What there is to say of a program on standard error: of its runs and their address faults, of what a choice moves and
//! what stays, of objects that may not move, and of regions.
#![tactic(auto)]

mod calls;
mod census;
mod choice;
mod comparing;
mod energies;
mod faults;
mod fixing;
mod names;
mod origins;
mod paired_text;
mod pairing;
mod pinned;
mod refusals;
mod regions;
mod room;
mod runs;
mod savings;
mod stakes;
mod staying;
mod subject;
mod telling;
mod trail;
mod unended;
mod units;
mod unpaired;

pub use calls::{InwardCall, inward_calls, made_calls, paid_of};
pub use choice::Chosen;
pub use pairing::may_be_unpaired;
pub use refusals::{explain_file, explain_refusal};
pub use runs::{explain_end, explain_run};
pub use savings::explain_saved;
pub use subject::{Inputs, RunEnd, Subject};
pub use telling::{explain_chosen, explain_others};
