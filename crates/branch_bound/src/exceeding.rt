ghost use Rattle.std.specs.Prelude.{◌≡◌, ◌<◌, ◌≤◌, ℕ, length, get_or, slice_index, MatchOption};
ghost use Rattle.placement_programme.specs.{Bounds.{AreWeights, row_of}, Programme.{Fits}, Views.{plain_side}};
ghost use Rattle.certificate_checker.specs.{Rules.{OverHolds}, Tallies.{AreTallies}};
ghost use Rattle.branch_bound.specs.{Assignments.{taken}, Exceeding.{ExceedsOnlyRowsOf}};

use certificate_checker::{Assignment, weights_of_var};
use placement_programme::Side;

/// The first row among those of some weights whose load is above its capacity.
fn first_exceeded(rows: &[u64], loads: &[u64], weights: &[(u32, u64)]) -> Option<u32>
    requires weights { AreWeights (length rows.now) weights.now }
    requires room { length loads.now ≡ length rows.now }
    ensures { MatchOption result ((i : ℕ) → i < length weights.now → slice_index loads.now (row_of (get_or weights.now i (0, 0))) ≤ slice_index rows.now (row_of (get_or weights.now i (0, 0)))) (λ row. (row < length rows.now) × (slice_index rows.now row < slice_index loads.now row)) }
{
    for entry in weights {
        let row = entry.0 as usize;
        if loads[row] > rows[row] {
            return Some(entry.0);
        }
    }
    None
}

/// A row that the variables exceed that are fixed to one; None where what they take fits. No row may be exceeded but
/// those in which variable `number` weighs.
pub(crate) fn exceeded(node: &Assignment, side: &Side, number: usize) -> Option<u32>
    requires tallies { AreTallies (plain_side side.now) node.now }
    requires number { number < length (plain_side side.now).vars }
    requires only { ExceedsOnlyRowsOf (plain_side side.now) node.now.marks.items number }
    ensures { MatchOption result (Fits (plain_side side.now) (taken (plain_side side.now) node.now.marks.items)) (OverHolds (plain_side side.now) node.now.marks.items) }
{
    first_exceeded(&side.rows, &node.loads, weights_of_var(side, number))
}
