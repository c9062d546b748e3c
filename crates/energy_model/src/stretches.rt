// What sixteen blocks that follow one another ran, so that pieces need not be counted block by block.
ghost use Rattle.std.specs.Prelude.{◌≡◌, ◌+◌, ◌/◌, ◌*◌, ◌<◌, ◌≤◌, true, length, IfOk};
ghost use Rattle.std.specs.List.{AllPairs};
ghost use Rattle.profile_runner.specs.Counts.{precedes};
ghost use Rattle.code_blocks.specs.Numbers.{start_at};
ghost use Rattle.block_splitter.specs.Forms.{body_at};
ghost use Rattle.energy_model.specs.{Copied.{leaving}, Counts.{most_run, CountsCode, AreListedCounts, AreEdgeStarts}, Stretches.{always, leads_to, IsReach, ReachGrows, AreWholeTerms, AreWholeSums, IsStretch, AreStretches}};
ghost use Rattle.object_graph.specs.declared.parts.Graph.{Graph};

use crate::block_counts::{BlockCounts, PieceSums, Reach, Stretch};
use crate::pieces::{NOTHING, added, block_may_stay, closed_terms, edge_start, start_of};
use code_blocks::{Code, End};
use profile_runner::{Edge, Profile};
use std::alloc::{AllocError, Global};

/// How many blocks a stretch has.
pub(crate) const STRETCH: usize = 16;

/// Whether control goes from a block that ends so to an address as that end says, if it may stay in a copy.
fn leads_to(end: &End, next: u32) -> bool
    ensures { result ≡ leads_to end.now next }
{
    match *end {
        End::Fall { next: behind } => next == behind,
        End::Branch {
            target,
            next: behind,
        } => next == target || next == behind,
        End::Jump { target } => next == target,
        _ => true,
    }
}

/// Whether an edge leads where the end of its block says.
fn is_plain(code: &Code, edge: &Edge) -> bool
    requires from { edge.now.from < length code.now.blocks.items }
    requires to { edge.now.to < length code.now.blocks.items }
    ensures { result ≡ leads_to (body_at code.now.blocks.items edge.now.from).end (start_at code.now edge.now.to) }
{
    let next = start_of(code, edge.to as usize);
    leads_to(&code.blocks[edge.from as usize].end, next)
}

/// Where some edges lead and one more.
fn with_edge(code: &Code, reach: &Reach, edge: &Edge) -> Reach
    requires from { edge.now.from < length code.now.blocks.items }
    requires to { edge.now.to < length code.now.blocks.items }
    ensures { ReachGrows code.now edge.now reach.now result }
{
    if !block_may_stay(code, edge.from as usize) {
        return *reach;
    }
    Reach {
        first: if edge.to < reach.first {
            edge.to
        } else {
            reach.first
        },
        last: if edge.to > reach.last {
            edge.to
        } else {
            reach.last
        },
        plain: reach.plain && is_plain(code, edge),
    }
}

/// Where the edges lead from the sixteen blocks from `b` on.
fn reach_of(code: &Code, profile: &Profile, counts: &BlockCounts, b: usize) -> Reach
    requires code { (g : Graph) × (CountsCode code.now g profile.now × AreListedCounts code.now g profile.now counts.now) }
    requires inside { b + 16 ≤ length code.now.blocks.items }
    ensures { IsReach code.now profile.now.edges.items b (b + 16) result }
{
    let mut reach = Reach {
        first: u32::MAX,
        last: 0,
        plain: true,
    };
    for j in edge_start(counts, b)..edge_start(counts, b + STRETCH) {
        let edge = profile.edges[j];
        reach = with_edge(code, &reach, &edge);
    }
    reach
}

/// How often edges were taken from block `a`.
fn taken_from(profile: &Profile, counts: &BlockCounts, a: usize) -> u128
    requires ordered { AllPairs (λ d e. precedes d e ≡ true) profile.now.edges.items }
    requires starts { AreEdgeStarts profile.now.edges.items a counts.now.edges.items }
    requires small { leaving profile.now.edges.items a always ≤ 2 * most_run }
    ensures { result ≡ leaving profile.now.edges.items a always }
{
    let mut total = 0;
    for j in edge_start(counts, a)..edge_start(counts, a + 1) {
        total += u128::from(profile.edges[j].count);
    }
    total
}

/// What block `b` ran, where no edge from it leaves its piece.
fn whole_terms(code: &Code, profile: &Profile, counts: &BlockCounts, b: usize) -> PieceSums
    requires code { (g : Graph) × (CountsCode code.now g profile.now × AreListedCounts code.now g profile.now counts.now) }
    requires inside { b < length code.now.blocks.items }
    ensures { (g : Graph) → CountsCode code.now g profile.now → AreListedCounts code.now g profile.now counts.now → AreWholeTerms code.now g profile.now b result }
{
    let listed = closed_terms(profile, counts, b);
    if !block_may_stay(code, b) {
        return listed;
    }
    PieceSums {
        home: listed.home,
        copied: listed.copied,
        arrived: listed.arrived,
        stayed: taken_from(profile, counts, b),
        pending: listed.pending,
    }
}

/// What the sixteen blocks from `b` on ran.
fn whole_sums(code: &Code, profile: &Profile, counts: &BlockCounts, b: usize) -> PieceSums
    requires code { (g : Graph) × (CountsCode code.now g profile.now × AreListedCounts code.now g profile.now counts.now) }
    requires inside { b + 16 ≤ length code.now.blocks.items }
    ensures { (g : Graph) → CountsCode code.now g profile.now → AreListedCounts code.now g profile.now counts.now → AreWholeSums code.now g profile.now b (b + 16) result }
{
    let mut sums = NOTHING;
    for k in b..b + STRETCH {
        let more = whole_terms(code, profile, counts, k);
        sums = added(&sums, &more);
    }
    sums
}

/// The stretch of the sixteen blocks from `b` on.
fn stretch_from(code: &Code, profile: &Profile, counts: &BlockCounts, b: usize) -> Stretch
    requires code { (g : Graph) × (CountsCode code.now g profile.now × AreListedCounts code.now g profile.now counts.now) }
    requires inside { b + 16 ≤ length code.now.blocks.items }
    ensures { (g : Graph) → CountsCode code.now g profile.now → AreListedCounts code.now g profile.now counts.now → IsStretch code.now g profile.now b result }
{
    Stretch {
        sums: whole_sums(code, profile, counts, b),
        reach: reach_of(code, profile, counts, b),
    }
}

/// The stretches of all blocks, but for some at the end, which are too few.
pub(crate) fn stretches(
    alloc: Global,
    code: &Code,
    profile: &Profile,
    counts: &BlockCounts,
) -> Result<Vec<Stretch>, AllocError>
    requires code { (g : Graph) × (CountsCode code.now g profile.now × AreListedCounts code.now g profile.now counts.now) }
    ensures { IfOk result (λ made. (g : Graph) → CountsCode code.now g profile.now → AreListedCounts code.now g profile.now counts.now → AreStretches code.now g profile.now (length code.now.blocks.items / 16) made.items) }
{
    let mut made = Vec::new(alloc);
    for k in 0..code.blocks.len() / STRETCH {
        made.push(stretch_from(code, profile, counts, k * STRETCH))?;
    }
    Ok(made)
}
