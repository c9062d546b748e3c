ghost use Rattle.std.specs.Prelude.{◌≡◌, ◌+◌, ◌-◌, ◌*◌, ◌/◌, ◌<◌, ◌≤◌, true, length, slice_index_or, IsTrue};
ghost use Rattle.std.specs.List.{AllPairs};
ghost use Rattle.std.specs.List.Sorted.{IsStrictlyIncreasing};
ghost use Rattle.profile_runner.specs.{Counts.{precedes}, declared.counts.Profile.{Profile}};
ghost use Rattle.code_blocks.specs.{Early.{has}, Numbers.{starts_of, start_at}};
ghost use Rattle.object_graph.specs.Lookups.{IsSomeGraph};
ghost use Rattle.block_splitter.specs.{Forms.{body_of, body_at, is_site, kind_of, holds_block, begins_in, fall_out_words}, Pieces.{IsRange}};
ghost use Rattle.energy_model.specs.{Energy.{may_stay}, Stretches.{no_stretch, StaysIn, ArePartSums}, Copied.{exit_words, leaving_words, leaving, edge_words, stays_in, sum_in, pending, pending_inside}, Counts.{CountsCode, LeadsToBlocks, MayCount, HasTarget, AreBlockCounts, AreListed, AreEdgeStarts, AreSums, AreTerms, AreAdded, AreFew, IsPieceCount, most_run}};

use crate::block_counts::{BlockCounts, PieceCounts, PiecePart, PieceSums, Reach};
use crate::stretches::STRETCH;
use block_splitter::{BlockRange, UnitKind, extent_of, kind_of};
use code_blocks::{Block, Code, End};
use object_graph::Graph;
use profile_runner::{Edge, Profile};

/// What no blocks ran.
pub(crate) const NOTHING: PieceSums = PieceSums {
    home: 0,
    copied: 0,
    arrived: 0,
    stayed: 0,
    pending: 0,
};

/// Whether the block that begins at an address is of a range.
fn is_inside(code: &Code, range: &BlockRange, address: u32) -> bool
    requires range { IsRange code.now range.now }
    requires ascending { IsStrictlyIncreasing (starts_of code.now) }
    requires block { has (starts_of code.now) address ≡ true }
    ensures { result ≡ begins_in (starts_of code.now) range.now address }
{
    extent_of(code, range).holds(address)
}

/// The words more of a copied last unit that leads out of its copy.
fn exit_words(code: &Code, range: &BlockRange, kind: &UnitKind, next: u32) -> u32
    requires range { IsRange code.now range.now }
    requires ascending { IsStrictlyIncreasing (starts_of code.now) }
    requires target { HasTarget code.now kind.now }
    ensures sum { result ≡ exit_words (begins_in (starts_of code.now) range.now) next kind.now }
    ensures small { result ≤ 2 }
{
    match *kind {
        UnitKind::Branch { target, .. } => {
            if next == target && !is_inside(code, range, target) {
                2
            } else {
                0
            }
        }
        UnitKind::Jump { target } => { if is_inside(code, range, target) { 0 } else { 1 } }
        _ => 0,
    }
}

/// The words behind a copied block that falls out of its copy.
fn fall_words(code: &Code, range: &BlockRange, end: &End, next: u32) -> u32
    requires range { IsRange code.now range.now }
    requires ascending { IsStrictlyIncreasing (starts_of code.now) }
    requires leads { LeadsToBlocks code.now end.now }
    ensures sum { result ≡ fall_out_words (begins_in (starts_of code.now) range.now) next end.now }
    ensures small { result ≤ 2 }
{
    match *end {
        End::Fall { next: behind } => { if is_inside(code, range, behind) { 0 } else { 2 } }
        End::Branch {
            target,
            next: behind,
        } => {
            if next == target || is_inside(code, range, behind) {
                0
            } else {
                2
            }
        }
        _ => 0,
    }
}

/// What the last unit of a block is.
fn last_kind(graph: &Graph, block: &Block) -> UnitKind
    requires graph { IsSomeGraph graph.now }
    requires some { 0 < length block.now.units.items }
    ensures { result ≡ kind_of (is_site graph.now) (body_of block.now) (length block.now.units.items - 1) }
{
    kind_of(graph, block, block.units.len() - 1)
}

/// The words more of a copied block where control leaves it for `next`.
fn leaving_words(code: &Code, graph: &Graph, range: &BlockRange, block: &Block, next: u32) -> u32
    requires graph { IsSomeGraph graph.now }
    requires range { IsRange code.now range.now }
    requires ascending { IsStrictlyIncreasing (starts_of code.now) }
    requires some { 0 < length block.now.units.items }
    requires leads { LeadsToBlocks code.now block.now.end }
    ensures sum { result ≡ leaving_words (begins_in (starts_of code.now) range.now) next (kind_of (is_site graph.now) (body_of block.now) (length block.now.units.items - 1)) block.now.end }
    ensures small { result ≤ 4 }
{
    let kind = last_kind(graph, block);
    exit_words(code, range, &kind, next) + fall_words(code, range, &block.end, next)
}

pub(crate) fn start_of(code: &Code, b: usize) -> u32
    requires { b < length code.now.blocks.items }
    ensures { result ≡ start_at code.now b }
{
    code.blocks[b].start
}

/// The words more with an edge from block `a` to block `to`.
fn edge_words(code: &Code, graph: &Graph, range: &BlockRange, a: usize, to: usize) -> u32
    requires counts { (q : Profile) × CountsCode code.now graph.now q }
    requires range { MayCount code.now range.now }
    requires held { holds_block a range.now ≡ true }
    requires inside { a < length code.now.blocks.items }
    requires to { to < length code.now.blocks.items }
    ensures sum { result ≡ edge_words code.now graph.now range.now a to }
    ensures small { result ≤ 4 }
{
    let next = start_of(code, to);
    let block = &code.blocks[a];
    leaving_words(code, graph, range, block, next)
}

/// Whether a block may lead to another one of its copy.
fn may_stay(end: &End) -> bool
    ensures { result ≡ may_stay end.now }
{
    match end {
        End::Fall { .. } | End::Branch { .. } | End::Jump { .. } => true,
        End::Call { .. } | End::Tail { .. } | End::Indirect { .. } | End::Stop => false,
    }
}

/// Whether block `b` is of a range.
pub fn holds(range: &BlockRange, b: u32) -> bool
    ensures { result ≡ holds_block b range.now }
{
    range.first <= b && b <= range.last
}

fn product(count: u64, words: u32) -> u128
    ensures { result ≡ count * words }
{
    u128::from(count) * u128::from(words)
}

/// Where the edges from block `a` begin.
pub fn edge_start(counts: &BlockCounts, a: usize) -> usize
    requires { a < length counts.now.edges.items }
    ensures { result ≡ slice_index_or counts.now.edges.items a 0 }
{
    counts.edges[a]
}

/// The words by which control leaves a copy with the edges from block `a`.
fn words_leaving(
    code: &Code,
    graph: &Graph,
    profile: &Profile,
    counts: &BlockCounts,
    range: &BlockRange,
    a: usize,
) -> u128
    requires counts { CountsCode code.now graph.now profile.now }
    requires starts { AreEdgeStarts profile.now.edges.items a counts.now.edges.items }
    requires range { MayCount code.now range.now }
    requires held { holds_block a range.now ≡ true }
    requires inside { a < length code.now.blocks.items }
    requires small { leaving profile.now.edges.items a (edge_words code.now graph.now range.now a) ≤ most_run }
    ensures { result ≡ leaving profile.now.edges.items a (edge_words code.now graph.now range.now a) }
{
    let mut total = 0;
    for j in edge_start(counts, a)..edge_start(counts, a + 1) {
        let edge = profile.edges[j];
        let words = edge_words(code, graph, range, a, edge.to as usize);
        total += product(edge.count, words);
    }
    total
}

/// The edge counts where it leads to a block of the range.
fn count_inside(range: &BlockRange, edge: &Edge) -> u64
    ensures { result ≡ edge.now.count * stays_in range.now edge.now.to }
{
    if holds(range, edge.to) { edge.count } else { 0 }
}

/// How often control went from block `a` to a block of the range.
fn staying(profile: &Profile, counts: &BlockCounts, range: &BlockRange, a: usize) -> u128
    requires ordered { AllPairs (λ d e. precedes d e ≡ true) profile.now.edges.items }
    requires starts { AreEdgeStarts profile.now.edges.items a counts.now.edges.items }
    requires small { leaving profile.now.edges.items a (stays_in range.now) ≤ 2 * most_run }
    ensures { result ≡ leaving profile.now.edges.items a (stays_in range.now) }
{
    let mut total = 0;
    for j in edge_start(counts, a)..edge_start(counts, a + 1) {
        total += u128::from(count_inside(range, &profile.edges[j]));
    }
    total
}

/// Whether a block may lead to another one of its copy.
pub fn block_may_stay(code: &Code, b: usize) -> bool
    requires { b < length code.now.blocks.items }
    ensures { result ≡ may_stay (body_at code.now.blocks.items b).end }
{
    may_stay(&code.blocks[b].end)
}

/// What block `b` of a range ran, where it leads to no other of its copy.
pub(crate) fn closed_terms(profile: &Profile, counts: &BlockCounts, b: usize) -> PieceSums
    requires home { b < length counts.now.home.items }
    requires copied { b < length counts.now.copied.items }
    requires arrivals { b < length profile.now.arrivals.items }
    requires pending { b < length counts.now.pending.items }
    ensures { AreListed profile.now counts.now b result }
{
    PieceSums {
        home: counts.home[b],
        copied: counts.copied[b],
        arrived: u128::from(profile.arrivals[b]),
        stayed: 0,
        pending: counts.pending[b],
    }
}

/// What block `b` of a range ran, where it may lead to others of its copy.
fn open_terms(
    code: &Code,
    graph: &Graph,
    profile: &Profile,
    counts: &BlockCounts,
    range: &BlockRange,
    b: usize,
) -> PieceSums
    requires counts { CountsCode code.now graph.now profile.now }
    requires blocks { AreBlockCounts code.now graph.now profile.now counts.now }
    requires range { MayCount code.now range.now }
    requires held { holds_block b range.now ≡ true }
    requires inside { b < length code.now.blocks.items }
    requires stays { may_stay (body_at code.now.blocks.items b).end ≡ true }
    ensures { AreTerms code.now graph.now profile.now range.now b result }
{
    let listed = closed_terms(profile, counts, b);
    let leaving = words_leaving(code, graph, profile, counts, range, b);
    PieceSums {
        home: listed.home,
        copied: listed.copied + leaving,
        arrived: listed.arrived,
        stayed: staying(profile, counts, range, b),
        pending: listed.pending,
    }
}

/// What block `b` of a range ran.
fn terms(
    code: &Code,
    graph: &Graph,
    profile: &Profile,
    counts: &BlockCounts,
    range: &BlockRange,
    b: usize,
) -> PieceSums
    requires counts { CountsCode code.now graph.now profile.now }
    requires blocks { AreBlockCounts code.now graph.now profile.now counts.now }
    requires range { MayCount code.now range.now }
    requires held { holds_block b range.now ≡ true }
    requires inside { b < length code.now.blocks.items }
    ensures { AreTerms code.now graph.now profile.now range.now b result }
{
    if block_may_stay(code, b) {
        open_terms(code, graph, profile, counts, range, b)
    } else {
        closed_terms(profile, counts, b)
    }
}

pub(crate) fn added(sums: &PieceSums, more: &PieceSums) -> PieceSums
    requires { AreFew record { home = sums.now.home + more.now.home; copied = sums.now.copied + more.now.copied; arrived = sums.now.arrived + more.now.arrived; stayed = sums.now.stayed + more.now.stayed; pending = sums.now.pending + more.now.pending } }
    ensures { AreAdded sums.now more.now result }
{
    PieceSums {
        home: sums.home + more.home,
        copied: sums.copied + more.copied,
        arrived: sums.arrived + more.arrived,
        stayed: sums.stayed + more.stayed,
        pending: sums.pending + more.pending,
    }
}

/// Whether some blocks lead to none outside a range.
fn is_closed(range: &BlockRange, reach: &Reach) -> bool
    ensures { IsTrue result → (reach.now.plain ≡ true) × (range.now.first ≤ reach.now.first) × (reach.now.last ≤ range.now.last) }
{
    reach.plain && range.first <= reach.first && reach.last <= range.last
}

/// Whether no edge from the sixteen blocks from `b` on leaves a range.
fn may_skip(counts: &BlockCounts, range: &BlockRange, b: usize) -> bool
    requires { b ≤ range.now.last }
    ensures { IsTrue result → StaysIn range.now b (slice_index_or counts.now.stretches.items (b / 16) no_stretch).reach }
{
    let left = range.last as usize + 1 - b;
    if b % STRETCH > 0 || left < STRETCH {
        return false;
    }
    match counts.stretches.get(b / STRETCH) {
        Some(stretch) => is_closed(range, &stretch.reach),
        None => false,
    }
}

/// What the next blocks of a range ran, from `b` on.
fn part_from(
    code: &Code,
    graph: &Graph,
    profile: &Profile,
    counts: &BlockCounts,
    range: &BlockRange,
    b: usize,
) -> PiecePart
    requires counts { CountsCode code.now graph.now profile.now }
    requires blocks { AreBlockCounts code.now graph.now profile.now counts.now }
    requires range { MayCount code.now range.now }
    requires held { holds_block b range.now ≡ true }
    ensures sums { ArePartSums code.now graph.now profile.now range.now b result.end result.sums }
    ensures more { b < result.end }
    ensures within { result.end ≤ range.now.last + 1 }
{
    if may_skip(counts, range, b) {
        return PiecePart {
            sums: counts.stretches[b / STRETCH].sums,
            end: b + STRETCH,
        };
    }
    PiecePart {
        sums: terms(code, graph, profile, counts, range, b),
        end: b + 1,
    }
}

/// What the blocks of a range ran.
fn sums(
    code: &Code,
    graph: &Graph,
    profile: &Profile,
    counts: &BlockCounts,
    range: &BlockRange,
) -> PieceSums
    requires counts { CountsCode code.now graph.now profile.now }
    requires blocks { AreBlockCounts code.now graph.now profile.now counts.now }
    requires range { MayCount code.now range.now }
    ensures { AreSums code.now graph.now profile.now range.now (length code.now.blocks.items) result }
{
    let mut sums = NOTHING;
    let mut b = range.first as usize;
    while b <= range.last as usize {
        let part = part_from(code, graph, profile, counts, range, b);
        sums = added(&sums, &part.sums);
        b = part.end;
    }
    sums
}

/// The edge with which the run stopped, if it stays in a range: it is none of the arrivals.
fn pending_inside(code: &Code, profile: &Profile, range: &BlockRange, stopped: u128) -> u128
    requires last { profile.now.last.0 < length code.now.blocks.items }
    requires stopped { stopped ≡ sum_in range.now (pending code.now profile.now) (length code.now.blocks.items) }
    ensures { result ≡ pending_inside code.now profile.now range.now }
{
    let last = profile.last.0;
    if holds(range, last) && block_may_stay(code, last as usize) {
        stopped
    } else {
        0
    }
}

/// What a piece ran, at home and copied, and how often control came to it from outside.
pub fn count_piece(
    code: &Code,
    graph: &Graph,
    profile: &Profile,
    counts: &BlockCounts,
    range: &BlockRange,
) -> PieceCounts
    requires counts { CountsCode code.now graph.now profile.now }
    requires blocks { AreBlockCounts code.now graph.now profile.now counts.now }
    requires range { MayCount code.now range.now }
    ensures { IsPieceCount code.now graph.now profile.now range.now result }
{
    let sums = sums(code, graph, profile, counts, range);
    let pending = pending_inside(code, profile, range, sums.pending);
    PieceCounts {
        home: sums.home,
        copied: sums.copied,
        came: sums.arrived + pending - sums.stayed,
    }
}
