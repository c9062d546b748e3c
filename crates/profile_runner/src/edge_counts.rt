ghost use Rattle.std.specs.Prelude.{◌≡◌, ◌+◌, ◌<◌, ◌++◌, length, map, slice_index_or, IfOk, OnOk};
ghost use Rattle.std.specs.BTreeMap.{insert_entry};
ghost use Rattle.std.specs.Ordering.{nat_cmp};
ghost use Rattle.profile_runner.specs.Tallies.{Ascend, counted_from, plain_count, count_to};

use crate::counts::Edge;
use std::alloc::{AllocError, Global};
use std::collections::BTreeMap;

/// How often each of many blocks was reached from one, by their numbers.
pub(crate) type Counts = BTreeMap<u32, u64>;

/// The counts of edges from one block, which lead to ascending blocks.
pub(crate) fn counts_of(alloc: Global, row: &[Edge]) -> Result<Counts, AllocError>
    requires { Ascend 0 row.now }
    ensures { IfOk result (λ counts. counts.entries ≡ map plain_count row.now) }
{
    let mut counts = BTreeMap::new(alloc);
    for k in 0..row.len() {
        let edge = edge_in(row, k);
        counts.insert(edge.to, edge.count)?;
    }
    Ok(counts)
}

/// Edge `k` of a list.
fn edge_in(row: &[Edge], k: usize) -> Edge
    requires { k < length row.now }
    ensures { result ≡ slice_index_or row.now k result }
{
    row[k]
}

/// How often block `to` was reached.
fn count_to(counts: &Counts, to: u32) -> u64
    ensures { result ≡ count_to counts.now.entries to }
{
    counts.get(&to).copied().unwrap_or(0)
}

/// Block `to` was reached once more.
pub(crate) fn add_count(counts: &mut Counts, to: u32) -> Result<(), AllocError>
    requires { count_to counts.old.entries to < 18446744073709551615 }
    ensures { OnOk result (counts.new.entries ≡ insert_entry nat_cmp counts.old.entries to (count_to counts.old.entries to + 1)) }
{
    let count = count_to(counts, to);
    counts.insert(to, count + 1)?;
    Ok(())
}

/// Puts the edges that were counted behind others: they come from block `from`.
pub(crate) fn append_counts(
    edges: &mut Vec<Edge>,
    from: u32,
    counts: &Counts,
) -> Result<(), AllocError>
    ensures { OnOk result (edges.new.items ≡ edges.old.items ++ map (counted_from from) counts.now.entries) }
{
    for (to, count) in counts {
        edges.push(Edge {
            from,
            to: *to,
            count: *count,
        })?;
    }
    Ok(())
}
