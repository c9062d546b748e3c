ghost use Rattle.std.specs.Prelude.{◌≡◌, ◌+◌, ◌-◌, ◌<◌, ◌≤◌, ◌==◌, if◌then◌else◌, length, IfOk};
ghost use Rattle.object_graph.specs.declared.parts.Graph.{Graph};
ghost use Rattle.code_blocks.specs.Numbers.{start_at};
ghost use Rattle.energy_model.specs.{Copied.{arrivals_in, block_words, coming, pending, values}, Counts.{CountsCode, AreComing, AreListedCounts, AreBlockCounts}};

use crate::block_counts::BlockCounts;
use crate::edges::{coming, edge_starts};
use crate::stretches::stretches;
use crate::words::block_words;
use code_blocks::Code;
use object_graph::Graph;
use profile_runner::Profile;
use std::alloc::{AllocError, Global};

/// The words of each block as often as they ran.
fn all_words(
    alloc: Global,
    code: &Code,
    graph: &Graph,
    profile: &Profile,
    copied: bool,
) -> Result<Vec<u128>, AllocError>
    requires { CountsCode code.now graph.now profile.now }
    ensures { IfOk result (λ v. v.items ≡ values (block_words code.now graph.now profile.now copied) (length code.now.blocks.items)) }
{
    let mut words = Vec::new(alloc);
    for b in 0..code.blocks.len() {
        words.push(block_words(code, graph, profile, b, copied))?;
    }
    Ok(words)
}

/// Whether the run begins with block `b`.
fn begins(code: &Code, b: usize) -> u128
    requires { b < length code.now.blocks.items }
    ensures { result ≡ (if start_at code.now b == code.now.entry then 1 else 0) }
{
    if code.blocks[b].start == code.entry {
        1
    } else {
        0
    }
}

/// By how much the edges to block `b` are more than its arrivals.
fn pending_of(code: &Code, profile: &Profile, counts: &[u128], b: usize) -> u128
    requires inside { b < length code.now.blocks.items }
    requires same { length profile.now.arrivals.items ≡ length code.now.blocks.items }
    requires counts { AreComing profile.now.edges.items (length code.now.blocks.items) (length profile.now.edges.items) counts.now }
    requires few { coming profile.now.edges.items b ≤ 1000000000000 }
    requires enough { arrivals_in profile.now b ≤ coming profile.now.edges.items b + (if start_at code.now b == code.now.entry then 1 else 0) }
    ensures { result ≡ pending code.now profile.now b }
{
    let arrivals = u128::from(profile.arrivals[b]);
    counts[b] + begins(code, b) - arrivals
}

fn all_pending(
    alloc: Global,
    code: &Code,
    profile: &Profile,
    counts: &[u128],
) -> Result<Vec<u128>, AllocError>
    requires code { (g : Graph) × CountsCode code.now g profile.now }
    requires counts { AreComing profile.now.edges.items (length code.now.blocks.items) (length profile.now.edges.items) counts.now }
    ensures { IfOk result (λ v. v.items ≡ values (pending code.now profile.now) (length code.now.blocks.items)) }
{
    let mut pending = Vec::new(alloc);
    for b in 0..code.blocks.len() {
        pending.push(pending_of(code, profile, counts, b))?;
    }
    Ok(pending)
}

/// For each block whether the run stopped with an edge to it.
fn pending_blocks(alloc: Global, code: &Code, profile: &Profile) -> Result<Vec<u128>, AllocError>
    requires { (g : Graph) × CountsCode code.now g profile.now }
    ensures { IfOk result (λ v. v.items ≡ values (pending code.now profile.now) (length code.now.blocks.items)) }
{
    let counts = coming(alloc, &profile.edges, code.blocks.len())?;
    all_pending(alloc, code, profile, &counts)
}

/// What each block of a program ran, with no stretches.
fn list_blocks(
    alloc: Global,
    code: &Code,
    graph: &Graph,
    profile: &Profile,
) -> Result<BlockCounts, AllocError>
    requires { CountsCode code.now graph.now profile.now }
    ensures { IfOk result (λ counts. AreListedCounts code.now graph.now profile.now counts) }
{
    let home = all_words(alloc, code, graph, profile, false)?;
    let copied = all_words(alloc, code, graph, profile, true)?;
    let pending = pending_blocks(alloc, code, profile)?;
    let edges = edge_starts(alloc, &profile.edges, code.blocks.len())?;
    Ok(BlockCounts {
        home,
        copied,
        pending,
        edges,
        stretches: Vec::new(alloc),
    })
}

/// What the blocks of a program ran.
///
/// It fails only where no memory was left.
pub fn count_blocks(
    alloc: Global,
    code: &Code,
    graph: &Graph,
    profile: &Profile,
) -> Result<BlockCounts, AllocError>
    requires { CountsCode code.now graph.now profile.now }
    ensures { IfOk result (λ counts. AreBlockCounts code.now graph.now profile.now counts) }
{
    let mut counts = list_blocks(alloc, code, graph, profile)?;
    counts.stretches = stretches(alloc, code, profile, &counts)?;
    Ok(counts)
}
