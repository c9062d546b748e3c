ghost use Rattle.std.specs.Prelude.{◌≡◌, ◌+◌, ◌-◌, ◌*◌, ◌<◌, ◌≤◌, length};
ghost use Rattle.list_checks.specs.Sorted.{sum_below};
ghost use Rattle.object_graph.specs.Lookups.{IsSomeGraph};
ghost use Rattle.block_splitter.specs.Forms.{body_of, body_at};
ghost use Rattle.energy_model.specs.{Copied.{unit_words, last_words, whole_words, part_words, arrivals_in, block_words}, Counts.{CountsCode}};

use block_splitter::{copy_size, kind_of};
use code_blocks::{Block, Code};
use object_graph::Graph;
use object_machine::Outcome;
use profile_runner::Profile;

/// The words of unit `k` of a block that run: at home, or in a copy where all that it leads to is of that copy.
fn unit_words(graph: &Graph, block: &Block, k: usize, copied: bool) -> u32
    requires graph { IsSomeGraph graph.now }
    requires place { k < length block.now.units.items }
    ensures { result ≡ unit_words graph.now copied (body_of block.now) k }
{
    if copied {
        copy_size(&kind_of(graph, block, k), true)
    } else {
        block.units[k].words
    }
}

/// Those of its first `count` units.
fn units_words(graph: &Graph, block: &Block, count: usize, copied: bool) -> u128
    requires graph { IsSomeGraph graph.now }
    requires places { count ≤ length block.now.units.items }
    ensures sum { result ≡ sum_below (unit_words graph.now copied (body_of block.now)) count }
    ensures small { result ≤ count * 4294967295 }
{
    let mut total: u128 = 0;
    for k in 0..count {
        total += u128::from(unit_words(graph, block, k, copied));
    }
    total
}

fn whole_words(graph: &Graph, block: &Block, copied: bool) -> u128
    requires { IsSomeGraph graph.now }
    ensures { result ≡ whole_words graph.now copied (body_of block.now) }
{
    units_words(graph, block, block.units.len(), copied)
}

/// The words of a block's last unit that ran: one where the run ended with it.
fn last_words(graph: &Graph, block: &Block, k: usize, outcome: &Outcome, copied: bool) -> u32
    requires graph { IsSomeGraph graph.now }
    requires place { k < length block.now.units.items }
    ensures { result ≡ last_words graph.now copied outcome.now (body_of block.now) k }
{
    match outcome {
        Outcome::GoesOn => unit_words(graph, block, k, copied),
        Outcome::Exited(_) | Outcome::Trapped { .. } | Outcome::AddressFault { .. } => 1,
    }
}

/// The words of the last block, the last time that it began.
fn part_words(graph: &Graph, block: &Block, profile: &Profile, copied: bool) -> u128
    requires graph { IsSomeGraph graph.now }
    requires some { 0 < profile.now.last.1 }
    requires units { profile.now.last.1 ≤ length block.now.units.items }
    ensures sum { result ≡ part_words graph.now copied profile.now (body_of block.now) }
    ensures small { result ≤ profile.now.last.1 * 4294967295 }
{
    let before = profile.last.1 as usize - 1;
    let last = last_words(graph, block, before, &profile.outcome, copied);
    units_words(graph, block, before, copied) + u128::from(last)
}

/// The words of all units of block `b`.
fn whole_of(code: &Code, graph: &Graph, b: usize, copied: bool) -> u128
    requires graph { IsSomeGraph graph.now }
    requires inside { b < length code.now.blocks.items }
    ensures { result ≡ whole_words graph.now copied (body_at code.now.blocks.items b) }
{
    whole_words(graph, &code.blocks[b], copied)
}

/// The words of the last block `b`, the last time that it began.
fn part_of(code: &Code, graph: &Graph, profile: &Profile, b: usize, copied: bool) -> u128
    requires graph { IsSomeGraph graph.now }
    requires inside { b < length code.now.blocks.items }
    requires some { 0 < profile.now.last.1 }
    requires units { profile.now.last.1 ≤ length (body_at code.now.blocks.items b).units }
    ensures sum { result ≡ part_words graph.now copied profile.now (body_at code.now.blocks.items b) }
    ensures small { result ≤ profile.now.last.1 * 4294967295 }
{
    part_words(graph, &code.blocks[b], profile, copied)
}

fn times(count: u128, words: u128) -> u128
    requires { count * words ≤ 1000000000000 }
    ensures { result ≡ count * words }
{
    count * words
}

fn arrivals_of(profile: &Profile, b: usize) -> u64
    requires { b < length profile.now.arrivals.items }
    ensures { result ≡ arrivals_in profile.now b }
{
    profile.arrivals[b]
}

/// The words of block `b` as often as they ran.
pub(crate) fn block_words(
    code: &Code,
    graph: &Graph,
    profile: &Profile,
    b: usize,
    copied: bool,
) -> u128
    requires inside { b < length code.now.blocks.items }
    requires counts { CountsCode code.now graph.now profile.now }
    ensures { result ≡ block_words code.now graph.now profile.now copied b }
{
    let whole = whole_of(code, graph, b, copied);
    let count = u128::from(arrivals_of(profile, b));
    if b == profile.last.0 as usize {
        times(count - 1, whole) + part_of(code, graph, profile, b, copied)
    } else {
        times(count, whole)
    }
}
