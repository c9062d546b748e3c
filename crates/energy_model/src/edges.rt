ghost use Rattle.std.specs.Prelude.{◌≡◌, suc, ℕ, ◌+◌, ◌<◌, ◌≤◌, true, length, slice_index_or, IfOk};
ghost use Rattle.std.specs.List.{All, AllPairs};
ghost use Rattle.profile_runner.specs.Counts.{precedes};
ghost use Rattle.energy_model.specs.{Copied.{coming, edges_before, values}, Counts.{most_run, Raises, AreComing}};

use profile_runner::Edge;
use std::alloc::{AllocError, Global};

/// How many edges are from blocks before block `a`.
fn edges_before(edges: &[Edge], a: usize) -> usize
    requires { AllPairs (λ d e. precedes d e ≡ true) edges.now }
    ensures { result ≡ edges_before edges.now a }
{
    edges.partition_point(|edge| (edge.from as usize) < a)
}

/// Where the edges from each block begin; behind these, how many there are.
pub(crate) fn edge_starts(
    alloc: Global,
    edges: &[Edge],
    blocks: usize,
) -> Result<Vec<usize>, AllocError>
    requires few { blocks < 18446744073709551615 }
    requires ordered { AllPairs (λ d e. precedes d e ≡ true) edges.now }
    ensures { IfOk result (λ v. v.items ≡ values (edges_before edges.now) (suc blocks)) }
{
    let mut starts = Vec::new(alloc);
    for a in 0..blocks + 1 {
        starts.push(edges_before(edges, a))?;
    }
    Ok(starts)
}

/// Adds to place `k`.
fn raise(row: &mut Vec<u128>, k: usize, more: u64)
    requires within { k < length row.old.items }
    requires room { slice_index_or row.old.items k 0 + more ≤ most_run }
    ensures { Raises row.old.items row.new.items k more }
{
    row[k] += u128::from(more);
}

/// How many edges were taken to each block.
pub(crate) fn coming(alloc: Global, edges: &[Edge], blocks: usize) -> Result<Vec<u128>, AllocError>
    requires within { All (λ e. (e.from < blocks) × (e.to < blocks)) edges.now }
    requires few { (b : ℕ) → b < blocks → coming edges.now b ≤ most_run }
    ensures { IfOk result (λ v. AreComing edges.now blocks (length edges.now) v.items) }
{
    let mut counts = vec![in alloc; 0; blocks]?;
    for j in 0..edges.len() {
        let edge = edges[j];
        raise(&mut counts, edge.to as usize, edge.count);
    }
    Ok(counts)
}
