ghost use Rattle.std.specs.Prelude.{◌≡◌, ◌<◌, ℕ, List, length, IfOk};
ghost use Rattle.profile_runner.specs.{Transition.{Transition}, Counts.{IsProfile}, Tallies.{plain_edges, joined_below}, Tally.{IsTally}};

use crate::counts::{Edge, Profile};
use crate::edge_row::EdgeRow;
use crate::tally::Tally;
use object_machine::Outcome;
use std::alloc::{AllocError, Global};

/// The profile of a run of which this was counted, one step at least, and which ended so.
pub(crate) fn profile_of(
    alloc: Global,
    tally: Tally,
    outcome: Outcome,
) -> Result<Profile, AllocError>
    ensures { IfOk result (λ q. (starts regions : List ℕ) (last size : ℕ) (transitions : List Transition) → IsTally starts regions last size transitions tally → 0 < length transitions → IsProfile starts regions last size transitions outcome q) }
{
    let edges = joined(alloc, &tally.edges)?;
    Ok(Profile {
        steps: tally.steps,
        outcome,
        arrivals: tally.arrivals,
        edges,
        last: (tally.block, tally.units),
        reads: tally.reads,
        writes: tally.writes,
        enters: tally.changes.enters,
        leaves: tally.changes.leaves,
        switches: tally.changes.switches,
    })
}

/// All rows, one behind the other.
fn joined(alloc: Global, rows: &[EdgeRow]) -> Result<Vec<Edge>, AllocError>
    ensures { IfOk result (λ edges. edges.items ≡ joined_below (plain_edges rows.now) (length rows.now)) }
{
    let mut edges = Vec::new(alloc);
    for row in rows {
        row.append_to(&mut edges)?;
    }
    Ok(edges)
}
