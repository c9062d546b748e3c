//! Runs a program and its result, each on its machine: compares what they write and how they end, and traces where each unit
//! runs in the result and at which addresses it reaches objects.
#![tactic(auto)]

mod absolute;
mod comparing;
mod forms;
mod judging;
mod laws;
mod lines;
mod marks;
mod running;
mod seeking;
mod stepping;
mod trace_laws;
mod tracing;

pub use absolute::is_absolute;
pub use comparing::{Comparison, compare};
pub use laws::{
    absolute_is_paired, compared_is_fault_free, ended_is_fault_free, kept_does_what_file_does,
    kept_goes_on, kept_never_differs, kept_runs_go_on, kept_runs_never_differ,
    kept_runs_step_by_step, one_comparison, unmoved_never_differs, what_is_seen_is_one,
};
pub use marks::{TracedAccess, TracedStep};
pub use trace_laws::{
    moved_is_traced, one_trace, results_start, traced_steps_are_few, traces_are_whole,
    unmoved_is_traced,
};
pub use tracing::{TraceText, TracedResult, trace};
