ghost use Rattle.std.specs.Prelude.{ℕ, ◌^◌, ◌<◌, ◌≤◌, ◌↔◌, IsTrue, length, MatchOption, IfOk};
ghost use Rattle.std.specs.List.{All};
ghost use Rattle.placement_programme.specs.{Bounds.{value_of}, Views.{plain_side}};
ghost use Rattle.certificate_checker.specs.{Rules.{BranchHolds, DualHolds}, RowWise.{rows_of, IsOfSide}, Spelling.{IsDualInRange}};
ghost use Rattle.branch_bound.specs.{Visits.{ShownHere, IsVisited}, Guided.{CannotBranch, Leads}};

use crate::side_visiting::Visit;
use certificate_checker::{
    Fixing, TreeNode, Weighed, branch_holds, dual_holds_by_row, leaf_holds, over_holds,
};
use lagrangian_bound::DualSolution;
use placement_programme::Side;
use std::alloc::{AllocError, Global};

/// A row that is exceeded fathoms a node.
fn fathom_over(side: &Side, marks: &[Fixing], row: Option<u32>) -> Option<TreeNode>
    requires { length (plain_side side.now).vars ≤ length marks.now }
    ensures { (best : ℕ) → ShownHere (plain_side side.now) best marks.now result }
{
    let row = row?;
    if over_holds(side, marks, row) {
        Some(TreeNode::Over { row })
    } else {
        None
    }
}

/// Whether each multiplier is within its 64 bits, as its type says.
fn are_small(multipliers: &[(u32, u64)]) -> bool
    ensures { IsTrue result ↔ All (λ m. value_of m < 2 ^ 64) multipliers.now }
{
    multipliers.iter().all(|entry| entry.1 <= u64::MAX)
}

/// Whether a dual solution makes a dual node that keeps its rule and is within the ranges of a certificate's text.
fn is_dual(
    alloc: Global,
    weighed: &Weighed,
    best: u128,
    marks: &[Fixing],
    dual: &DualSolution,
) -> Result<bool, AllocError>
    requires by_row { IsOfSide (plain_side weighed.now.side.now) (rows_of weighed.now.by_row.now) }
    requires best { best ≤ 2 ^ 104 }
    requires marked { length (plain_side weighed.now.side.now).vars ≤ length marks.now }
    ensures { IfOk result (λ found. IsTrue found → DualHolds (plain_side weighed.now.side.now) best marks.now dual.now.scale dual.now.multipliers.items × IsDualInRange dual.now.scale dual.now.multipliers.items) }
{
    let holds = dual_holds_by_row(alloc, weighed, best, marks, dual.scale, &dual.multipliers)?;
    Ok(holds && are_small(&dual.multipliers))
}

/// A dual solution fathoms a node where it bounds the gain.
pub(crate) fn fathom_dual(
    alloc: Global,
    weighed: &Weighed,
    best: u128,
    marks: &[Fixing],
    dual: Option<DualSolution>,
) -> Result<Option<TreeNode>, AllocError>
    requires by_row { IsOfSide (plain_side weighed.now.side.now) (rows_of weighed.now.by_row.now) }
    requires best { best ≤ 2 ^ 104 }
    requires marked { length (plain_side weighed.now.side.now).vars ≤ length marks.now }
    ensures { IfOk result (ShownHere (plain_side weighed.now.side.now) best marks.now) }
{
    let Some(dual) = dual else {
        return Ok(None);
    };
    if is_dual(alloc, weighed, best, marks, &dual)? {
        let DualSolution { scale, multipliers } = dual;
        Ok(Some(TreeNode::Dual { scale, multipliers }))
    } else {
        Ok(None)
    }
}

/// A node at which nothing is free is fathomed where it gains no more.
fn fathom_leaf(side: &Side, best: u128, marks: &[Fixing]) -> Option<TreeNode>
    requires best { best ≤ 2 ^ 104 }
    requires marked { length (plain_side side.now).vars ≤ length marks.now }
    ensures { ShownHere (plain_side side.now) best marks.now result }
{
    if leaf_holds(side, best, marks) {
        Some(TreeNode::Leaf)
    } else {
        None
    }
}

/// What fathoms the node, if anything does.
fn fathom(
    side: &Side,
    best: u128,
    marks: &[Fixing],
    exceeded: Option<u32>,
    dual: Option<TreeNode>,
) -> Option<TreeNode>
    requires best { best ≤ 2 ^ 104 }
    requires marked { length (plain_side side.now).vars ≤ length marks.now }
    requires dual { ShownHere (plain_side side.now) best marks.now dual }
    ensures { ShownHere (plain_side side.now) best marks.now result }
{
    if let Some(node) = fathom_over(side, marks, exceeded) {
        return Some(node);
    }
    if dual.is_some() {
        return dual;
    }
    fathom_leaf(side, best, marks)
}

/// The first variable that is free.
fn first_free(side: &Side, marks: &[Fixing]) -> Option<u32>
    requires { length (plain_side side.now).vars ≤ length marks.now }
    ensures { MatchOption result ((j : ℕ) → BranchHolds (plain_side side.now) marks.now j → ⊥) (BranchHolds (plain_side side.now) marks.now) }
{
    let _side = side;
    for number in 0..4000 {
        if branch_holds(side, marks, number) {
            return Some(number);
        }
    }
    None
}

/// A variable to branch on: the one that is suggested, if it is free, else the first free one.
fn open(side: &Side, marks: &[Fixing], suggested: Option<u32>) -> Option<u32>
    requires { length (plain_side side.now).vars ≤ length marks.now }
    ensures { MatchOption result (CannotBranch (plain_side side.now) marks.now suggested) (BranchHolds (plain_side side.now) marks.now) }
{
    match suggested {
        Some(number) if branch_holds(side, marks, number) => Some(number),
        Some(_) => None,
        None => first_free(side, marks),
    }
}

/// Fathoms a node, by a dual solution if there is one, or finds the variable to branch on.
pub(crate) fn fathom_or_branch(
    side: &Side,
    best: u128,
    marks: &[Fixing],
    exceeded: Option<u32>,
    dual: Option<TreeNode>,
    suggested: Option<u32>,
) -> Visit
    requires best { best ≤ 2 ^ 104 }
    requires marked { length (plain_side side.now).vars ≤ length marks.now }
    requires dual { ShownHere (plain_side side.now) best marks.now dual }
    ensures visited { IsVisited (plain_side side.now) best marks.now result }
    ensures leads { Leads (plain_side side.now) marks.now suggested result }
{
    if let Some(node) = fathom(side, best, marks, exceeded, dual) {
        return Visit::Closed(node);
    }
    match open(side, marks, suggested) {
        Some(number) => Visit::Open(number),
        None => Visit::Stuck,
    }
}
