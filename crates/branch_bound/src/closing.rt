ghost use Rattle.std.specs.Prelude.{◌^◌, ◌≤◌, ◌↔◌, IsTrue, [], MatchOption};
ghost use Rattle.placement_programme.specs.Views.{plain_side};
ghost use Rattle.certificate_checker.specs.{Rules.{DualHolds}, Tallies.{AreTallies}};
ghost use Rattle.branch_bound.specs.Searching.{Closes};

use certificate_checker::{Assignment, TreeNode};
use placement_programme::Side;
use std::alloc::Global;

/// Whether a dual node of scale 1 without multipliers keeps its rule: without prices its sums are the gains alone.
fn is_plain_dual(side: &Side, node: &Assignment, best: u128) -> bool
    requires best { best ≤ 2 ^ 104 }
    requires tallies { AreTallies (plain_side side.now) node.now }
    ensures { IsTrue result ↔ DualHolds (plain_side side.now) best node.now.marks.items 1 [] }
{
    node.bound <= best + side.fixed
}

/// A dual node of scale 1 without multipliers.
pub(crate) fn plain_dual(
    alloc: Global,
    side: &Side,
    node: &Assignment,
    best: u128,
) -> Option<TreeNode>
    requires best { best ≤ 2 ^ 104 }
    requires tallies { AreTallies (plain_side side.now) node.now }
    ensures { MatchOption result (DualHolds (plain_side side.now) best node.now.marks.items 1 [] → ⊥) (Closes (plain_side side.now) best node.now.marks.items) }
{
    if is_plain_dual(side, node, best) {
        Some(TreeNode::Dual {
            scale: 1,
            multipliers: Vec::new(alloc),
        })
    } else {
        None
    }
}
