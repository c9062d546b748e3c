ghost use Rattle.std.specs.Prelude.{◌≡◌, ◌^◌, ◌<◌, ◌≤◌, ◌↔◌, IsTrue, length, slice_index};
ghost use Rattle.placement_programme.specs.Views.{plain_side};
ghost use Rattle.certificate_checker.specs.{Rules.{OverHolds, LeafHolds}, Tallies.{AreTallies}};

use crate::assignments::Assignment;
use crate::columns::{capacity_of_row, row_count};
use placement_programme::Side;

fn load_in(loads: &[u64], place: usize) -> u64
    requires { place < length loads.now }
    ensures { result ≡ slice_index loads.now place }
{
    loads[place]
}

/// Whether the variables that are fixed to one exceed a row, as `over_holds` tells it.
pub(crate) fn tallied_over(side: &Side, assignment: &Assignment, row: u32) -> bool
    requires { AreTallies (plain_side side.now) assignment.now }
    ensures { IsTrue result ↔ OverHolds (plain_side side.now) assignment.now.marks.items row }
{
    let place = row as usize;
    if place >= row_count(side) {
        return false;
    }
    capacity_of_row(side, place) < load_in(&assignment.loads, place)
}

/// Whether all variables are fixed, and gain at most `best`, as `leaf_holds` tells it.
pub(crate) fn tallied_leaf(side: &Side, assignment: &Assignment, best: u128) -> bool
    requires best { best ≤ 2 ^ 104 }
    requires tallies { AreTallies (plain_side side.now) assignment.now }
    ensures { IsTrue result ↔ LeafHolds (plain_side side.now) best assignment.now.marks.items }
{
    if assignment.free_count > 0 {
        return false;
    }
    assignment.gains <= best + side.fixed
}
