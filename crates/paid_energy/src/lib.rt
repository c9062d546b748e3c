//! The energy that a relinked program pays on the flat machine, fetch by fetch and access by access; which calls of a run make
//! it differ from the modelled one; and the laws that else both are the same.
#![tactic(auto)]

mod costs;
mod count_laws;
mod inward_calls;
mod laws;
mod paying;
mod walk_laws;

pub use count_laws::regions_are_counted;
pub use inward_calls::inward;
pub use laws::{ended_runs_for, inward_is_counted, one_run_for, results_start_alike};
pub use paying::{PaidRun, paid};
pub use walk_laws::{
    branches_go, forms_are_counted, home_costs_energy, paired_runs_walk_home, results_pay,
    units_lead, walk_costs_energy,
};
