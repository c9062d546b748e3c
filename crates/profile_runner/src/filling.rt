ghost use Rattle.std.specs.Prelude.{◌≡◌, [], IfOk, replicate};
ghost use Rattle.profile_runner.specs.{Counts.{plain_rows}, Tallies.{plain_edges}, Tally.{IsNew}};

use crate::changes::Changes;
use crate::edge_row::EdgeRow;
use crate::tally::Tally;
use std::alloc::{AllocError, Global};

/// Nothing has been counted yet, of so many blocks and objects, and of regions 0 to `last`. The run begins in
/// block `first`.
pub(crate) fn nothing_counted(
    alloc: Global,
    blocks: usize,
    objects: usize,
    last: u32,
    first: u32,
) -> Result<Tally, AllocError>
    ensures { IfOk result (IsNew blocks objects last first) }
{
    let regions = last as usize + 1;
    Ok(Tally {
        steps: 0,
        arrivals: vec![in alloc; 0; blocks]?,
        edges: no_edges(alloc, blocks)?,
        reads: zeros(alloc, objects, regions)?,
        writes: zeros(alloc, objects, regions)?,
        changes: no_changes(alloc, regions)?,
        block: first,
        units: 0,
        region: 0,
    })
}

/// No changes between so many regions.
fn no_changes(alloc: Global, regions: usize) -> Result<Changes, AllocError>
    ensures switches { IfOk result (λ c. plain_rows c.switches.items ≡ replicate regions (replicate regions 0)) }
    ensures leaves { IfOk result (λ c. c.leaves.items ≡ replicate regions 0) }
    ensures enters { IfOk result (λ c. c.enters.items ≡ replicate regions 0) }
{
    Ok(Changes {
        switches: zeros(alloc, regions, regions)?,
        leaves: vec![in alloc; 0; regions]?,
        enters: vec![in alloc; 0; regions]?,
    })
}

/// A table of zeros.
fn zeros(alloc: Global, height: usize, width: usize) -> Result<Vec<Vec<u64>>, AllocError>
    ensures { IfOk result (λ rows. plain_rows rows.items ≡ replicate height (replicate width 0)) }
{
    let mut rows = Vec::new(alloc);
    for _ in 0..height {
        rows.push(vec![in alloc; 0; width]?)?;
    }
    Ok(rows)
}

/// No edges of so many blocks.
fn no_edges(alloc: Global, blocks: usize) -> Result<Vec<EdgeRow>, AllocError>
    ensures { IfOk result (λ rows. plain_edges rows.items ≡ replicate blocks []) }
{
    let mut rows = Vec::new(alloc);
    for _ in 0..blocks {
        rows.push(EdgeRow::Few(Vec::new(alloc)))?;
    }
    Ok(rows)
}
