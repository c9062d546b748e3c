//! Copy jobs: words that copy bytes from one address to another.
//! Code that changes the current region, whose code and data stand in the scratchpad: the checking stub, which finds that
//! another region begins, and the switch routine, which copies what it moves.
//! The code of the patch range: control words, the start stub, whose jobs copy what was moved, stubs, which jump to copied
//! code or run displaced words, the switch routine, and images of code.
#![tactic(auto)]

mod checking;
mod code;
mod guards;
mod images;
mod instructions;
mod job;
mod job_code;
mod job_laws;
mod part_sizes;
mod routine;
mod serving;
mod stub_laws;
mod stub_plan;
mod switch_code;
mod switch_laws;
mod switch_plan;

pub use checking::checking_stub;
pub use code::{plain_code, stubs};
pub use job::CopyJob;
pub use job_code::{push_fence, push_jobs};
pub use job_laws::jobs_copy;
pub use part_sizes::sizes;
pub use stub_laws::{overlay_stands, pads_lead, parts_stand, plain_stub_runs, start_runs};
pub use stub_plan::{Body, Stub, StubCode, StubPlan, StubSizes};
pub use switch_code::routine_code;
pub use switch_laws::{
    body_jumps, checking_in_range, example_words, jobs_move, routine_count, routine_in_range,
    routine_of_jobs, stub_passes, stub_switches, switch_is_bounded, switch_runs_jobs,
    switch_runs_words,
};
pub use switch_plan::{RegionCode, RoutinePlan};
