//! How many bytes the parts of a plan's code take.
ghost use Rattle.std.specs.Prelude.{◌≡◌, ℕ, ◌+◌, ◌*◌, ◌<◌, length, option_map};
ghost use Rattle.patch_code.specs.{Jobs.{fences}, Counts.{first_words, region_words}, Start.{start_bytes}, Overlay.{switching, rest_bytes, switch_bytes}, StubPlans.{HasLists, has_twin, jobs_at, overlay_plan, overlay_sizes}};

use crate::images::image_bytes;
use crate::job::CopyJob;
use crate::routine::jobs_at;
use crate::serving::stub_bytes;
use crate::stub_plan::{StubPlan, StubSizes};

fn fence_words(fence_i: bool) -> u32
    ensures { result ≡ length (fences fence_i) }
{
    if fence_i { 1 } else { 0 }
}

// Whether the region of a number has a twin.
fn has_twin(plan: &StubPlan, i: usize) -> bool
    ensures { result ≡ has_twin (overlay_plan plan.now) i }
{
    plan.twins && (i % 2 == 1 || i < (plan.regions as usize).saturating_sub(1))
}

// How many jobs a list of a region's number has.
fn count_jobs(lists: &[Vec<CopyJob>], i: usize) -> u32
    requires below { i < length lists.now }
    requires small { length (jobs_at lists.now i) < 4294967296 }
    ensures { result ≡ length (jobs_at lists.now i) }
{
    jobs_at(lists, i).len() as u32
}

// The words of the tests and jobs of a region's number.
fn region_words(plan: &StubPlan, i: usize) -> u32
    requires lists { HasLists plan.now }
    requires below { i < plan.now.regions }
    requires small { region_words (switching (overlay_plan plan.now)) i < 1073741824 }
    ensures { result ≡ region_words (switching (overlay_plan plan.now)) i }
{
    let always = count_jobs(&plan.leave, i) + count_jobs(&plan.enter, i);
    if has_twin(plan, i) {
        let kept = count_jobs(&plan.kept_leave, i) + count_jobs(&plan.kept_enter, i);
        12 + 11 * (always + kept)
    } else {
        6 + 11 * always
    }
}

// The bytes of the switch routine.
fn routine_bytes(plan: &StubPlan) -> u32
    requires lists { HasLists plan.now }
    requires small { switch_bytes (overlay_plan plan.now) < 4294967296 }
    ensures { result ≡ switch_bytes (overlay_plan plan.now) }
{
    if plan.regions == 0 {
        return 0;
    }
    let mut words = 5 + fence_words(plan.fence_i);
    for i in 0..plan.regions as usize {
        words += region_words(plan, i);
    }
    4 * words
}

/// The bytes of each part of the code of a plan: the start stub, stubs, the switch routine, and
/// images. The control words are in none of them.
pub fn sizes(plan: &StubPlan) -> StubSizes
    requires lists { HasLists plan.now }
    requires small { start_bytes (overlay_plan plan.now).start + rest_bytes (overlay_plan plan.now) < 4294967296 }
    ensures { result ≡ overlay_sizes (overlay_plan plan.now) }
{
    StubSizes {
        start: 44 * (plan.start.len() as u32) + 4 * fence_words(plan.fence_i) + 20,
        stubs: stub_bytes(&plan.stubs),
        routine: routine_bytes(plan),
        images: image_bytes(&plan.images),
    }
}
