ghost use Rattle.std.specs.Prelude.{◌≡◌, ◌+◌, ◌-◌, ◌*◌, ◌<◌, ◌≤◌, true, false, length, slice_index_or, if◌then◌else◌};
ghost use Rattle.list_checks.specs.Sorted.{sum_below};
ghost use Rattle.block_splitter.specs.{Forms.{body_at, holds_block}, Pieces.{IsRange}};
ghost use Rattle.energy_model.specs.{Energy.{may_stay}, Copied.{arrivals_in, leaving, pending, pending_to}, Counts.{AreEdgeStarts, most_run}, Overlay.{is_entered}, Entering.{IsBare, if_border, entered_in, stays_entered, AreRunTables, IsEnteringBlock, AreEntering, AreEnteringAdded, AreFewEntering, IsEnteringCount}};

use crate::block_counts::BlockCounts;
use crate::checks::checks_at;
use crate::entering_counts::{EnteringCounts, EnteringSums};
use crate::first_units::{displaced_of, first_of};
use crate::pieces::{block_may_stay, edge_start, holds};
use block_splitter::BlockRange;
use code_blocks::Code;
use object_graph::Graph;
use profile_runner::{Edge, Profile};
use region_former::RegionTable;

/// What is counted of no blocks.
const NOTHING: EnteringSums = EnteringSums {
    checks: 0,
    displaced: 0,
    first: 0,
    pending: 0,
    stayed: 0,
};

/// What pieces are counted from.
#[derive(Drop)]
pub struct RunTables<'a> {
    pub code: &'a Code,
    pub graph: &'a Graph,
    pub profile: &'a Profile,
    /// What the blocks ran.
    pub counts: &'a BlockCounts,
    pub regions: &'a RegionTable,
}

/// The edge counts where it leads to a block of the piece by which control enters a region.
fn count_entered(regions: &RegionTable, range: &BlockRange, edge: &Edge) -> u64
    requires { edge.now.to < length regions.now.border.items }
    ensures { result ≡ edge.now.count * entered_in regions.now.border.items range.now edge.now.to }
{
    if regions.border[edge.to as usize] && holds(range, edge.to) {
        edge.count
    } else {
        0
    }
}

/// How often control went from block `a` to blocks of the piece by which control enters a region.
fn staying(tables: &RunTables<'_>, range: &BlockRange, a: usize) -> u128
    requires tables { AreRunTables tables.now.code.now tables.now.graph.now tables.now.regions.now tables.now.profile.now tables.now.counts.now }
    requires starts { AreEdgeStarts tables.now.profile.now.edges.items a tables.now.counts.now.edges.items }
    requires small { leaving tables.now.profile.now.edges.items a (entered_in tables.now.regions.now.border.items range.now) ≤ 2 * most_run }
    ensures { result ≡ leaving tables.now.profile.now.edges.items a (entered_in tables.now.regions.now.border.items range.now) }
{
    let mut total = 0;
    for j in edge_start(tables.counts, a)..edge_start(tables.counts, a + 1) {
        let entered = count_entered(tables.regions, range, &tables.profile.edges[j]);
        total += u128::from(entered);
    }
    total
}

/// How often control went from block `a` to a block of the piece by which it enters a region, and may stay in the copy.
fn stays_entered(tables: &RunTables<'_>, range: &BlockRange, a: usize) -> u128
    requires tables { AreRunTables tables.now.code.now tables.now.graph.now tables.now.regions.now tables.now.profile.now tables.now.counts.now }
    requires held { holds_block a range.now ≡ true }
    requires inside { a < length tables.now.code.now.blocks.items }
    ensures { result ≡ stays_entered tables.now.code.now tables.now.profile.now tables.now.regions.now.border.items range.now a }
{
    if block_may_stay(tables.code, a) {
        staying(tables, range, a)
    } else {
        0
    }
}

/// Whether control enters a region by block `b`.
fn is_border(regions: &RegionTable, b: usize) -> bool
    requires { b < length regions.now.border.items }
    ensures { result ≡ slice_index_or regions.now.border.items b false }
{
    regions.border[b]
}

/// Whether the run stopped with an edge to block `b`.
fn pending_of(counts: &BlockCounts, b: usize) -> u128
    requires { b < length counts.now.pending.items }
    ensures { result ≡ slice_index_or counts.now.pending.items b 0 }
{
    counts.pending[b]
}

/// Whether the run stopped with an edge to block `b` by which control enters a region.
fn pending_at(tables: &RunTables<'_>, b: usize) -> u128
    requires tables { AreRunTables tables.now.code.now tables.now.graph.now tables.now.regions.now tables.now.profile.now tables.now.counts.now }
    requires inside { b < length tables.now.code.now.blocks.items }
    ensures { result ≡ if_border tables.now.regions.now.border.items (pending tables.now.code.now tables.now.profile.now) b }
{
    if is_border(tables.regions, b) {
        pending_of(tables.counts, b)
    } else {
        0
    }
}

/// How often a check is made at block `b`.
fn checks_of(tables: &RunTables<'_>, b: usize) -> u128
    requires tables { AreRunTables tables.now.code.now tables.now.graph.now tables.now.regions.now tables.now.profile.now tables.now.counts.now }
    requires inside { b < length tables.now.code.now.blocks.items }
    ensures { result ≡ if_border tables.now.regions.now.border.items (arrivals_in tables.now.profile.now) b }
{
    checks_at(tables.profile, &tables.regions.border, b)
}

/// What is counted of block `b` of a piece.
fn entering_block(tables: &RunTables<'_>, range: &BlockRange, b: usize) -> EnteringSums
    requires tables { AreRunTables tables.now.code.now tables.now.graph.now tables.now.regions.now tables.now.profile.now tables.now.counts.now }
    requires held { holds_block b range.now ≡ true }
    requires inside { b < length tables.now.code.now.blocks.items }
    ensures { IsEnteringBlock tables.now.code.now tables.now.graph.now tables.now.profile.now tables.now.regions.now.border.items range.now b result }
{
    let RunTables {
        code,
        graph,
        profile,
        regions,
        ..
    } = *tables;
    EnteringSums {
        checks: checks_of(tables, b),
        displaced: displaced_of(code, graph, profile, regions, b),
        first: first_of(code, profile, regions, b),
        pending: pending_at(tables, b),
        stayed: stays_entered(tables, range, b),
    }
}

fn added(sums: &EnteringSums, more: &EnteringSums) -> EnteringSums
    requires { AreFewEntering record { checks = sums.now.checks + more.now.checks; displaced = sums.now.displaced + more.now.displaced; first = sums.now.first + more.now.first; pending = sums.now.pending + more.now.pending; stayed = sums.now.stayed + more.now.stayed } }
    ensures { AreEnteringAdded sums.now more.now result }
{
    EnteringSums {
        checks: sums.checks + more.checks,
        displaced: sums.displaced + more.displaced,
        first: sums.first + more.first,
        pending: sums.pending + more.pending,
        stayed: sums.stayed + more.stayed,
    }
}

/// What is counted of the blocks of a piece, block by block.
fn block_sums(tables: &RunTables<'_>, range: &BlockRange) -> EnteringSums
    requires tables { AreRunTables tables.now.code.now tables.now.graph.now tables.now.regions.now tables.now.profile.now tables.now.counts.now }
    requires range { IsRange tables.now.code.now range.now }
    ensures { AreEntering tables.now.code.now tables.now.graph.now tables.now.profile.now tables.now.regions.now.border.items range.now (length tables.now.code.now.blocks.items) result }
{
    let mut sums = NOTHING;
    for b in range.first as usize..range.last as usize + 1 {
        let more = entering_block(tables, range, b);
        sums = added(&sums, &more);
    }
    sums
}

/// Whether control enters a region by a block of the piece.
fn is_entered(regions: &RegionTable, range: &BlockRange) -> bool
    requires { range.now.last < length regions.now.border.items }
    ensures { result ≡ false → IsBare regions.now.border.items range.now }
{
    for b in range.first as usize..range.last as usize + 1 {
        if regions.border[b] {
            return true;
        }
    }
    false
}

/// What is counted of the blocks of a piece.
fn sums(tables: &RunTables<'_>, range: &BlockRange) -> EnteringSums
    requires tables { AreRunTables tables.now.code.now tables.now.graph.now tables.now.regions.now tables.now.profile.now tables.now.counts.now }
    requires range { IsRange tables.now.code.now range.now }
    ensures { AreEntering tables.now.code.now tables.now.graph.now tables.now.profile.now tables.now.regions.now.border.items range.now (length tables.now.code.now.blocks.items) result }
{
    if is_entered(tables.regions, range) {
        block_sums(tables, range)
    } else {
        NOTHING
    }
}

/// The edge with which the run stopped, if it stays in the piece and leads to one of these blocks.
fn pending_entered(tables: &RunTables<'_>, range: &BlockRange, stopped: u128) -> u128
    requires last { tables.now.profile.now.last.0 < length tables.now.code.now.blocks.items }
    requires stopped { stopped ≡ sum_below (λ b. if is_entered tables.now.regions.now.border.items range.now b then pending tables.now.code.now tables.now.profile.now b else 0) (length tables.now.code.now.blocks.items) }
    ensures { result ≡ pending_to tables.now.code.now tables.now.profile.now range.now (is_entered tables.now.regions.now.border.items range.now) }
{
    let last = tables.profile.last.0;
    if holds(range, last) && block_may_stay(tables.code, last as usize) {
        stopped
    } else {
        0
    }
}

/// What is counted of the blocks of a piece by which control enters a region.
pub fn count_entering(tables: &RunTables<'_>, range: &BlockRange) -> EnteringCounts
    requires tables { AreRunTables tables.now.code.now tables.now.graph.now tables.now.regions.now tables.now.profile.now tables.now.counts.now }
    requires range { IsRange tables.now.code.now range.now }
    ensures { IsEnteringCount tables.now.code.now tables.now.graph.now tables.now.profile.now tables.now.regions.now.border.items range.now result }
{
    let sums = sums(tables, range);
    let pending = pending_entered(tables, range, sums.pending);
    EnteringCounts {
        checks: sums.checks,
        displaced: sums.displaced,
        first: sums.first,
        came: sums.checks + pending - sums.stayed,
    }
}
