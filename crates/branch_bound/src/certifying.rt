ghost use Rattle.std.specs.Prelude.{◌≡◌, ◌⊎◌, ◌^◌, ◌≤◌, Some, None, MatchOption, IfSome, IfOk};
ghost use Rattle.placement_programme.specs.Views.{plain_side, plain_programme};
ghost use Rattle.certificate_checker.specs.{NodeLists.{node_tree}, NodeViews.{plain_node}, Spelling.{IsTreeInRange}, Views.{plain_tree}, Shows.{all_free}, Reading.{most_levels}};
ghost use Rattle.branch_bound.specs.{Assignments.{FailsEveryLeafRule}, Searching.{IsClosed, HasLevels}, Solving.{ClosesSide, ClosesOn, LacksTree, AreTreesOf, FailsSome}};

use crate::closing::plain_dual;
use crate::outcomes::Trees;
use certificate_checker::{Assignment, Tree, TreeNode, free_marks, tree_of};
use placement_programme::{Programme, Side};
use std::alloc::{AllocError, Global};

/// A tree of one node.
fn one_node(alloc: Global, node: TreeNode) -> Result<Tree, AllocError>
    requires { IsTreeInRange 1 (node_tree (plain_node node)) }
    ensures { IfOk result (λ tree. plain_tree tree ≡ node_tree (plain_node node)) }
{
    let mut nodes = Vec::new(alloc);
    nodes.push(node)?;
    Ok(tree_of(nodes))
}

/// A tree of one node that closes a side; None where its first entry fails every leaf rule.
fn first_tree(alloc: Global, side: &Side, best: u128) -> Result<Option<Tree>, AllocError>
    requires { best ≤ 2 ^ 104 }
    ensures { IfOk result (λ tree. MatchOption tree (FailsEveryLeafRule (plain_side side.now) best (all_free (plain_side side.now))) (λ t. IsClosed (plain_side side.now) best (all_free (plain_side side.now)) (plain_tree t))) }
{
    let root = Assignment::of(alloc, side, free_marks(alloc, side)?)?;
    match plain_dual(alloc, side, &root, best) {
        None => Ok(None),
        Some(node) => Ok(Some(one_node(alloc, node)?)),
    }
}

/// The trees of both sides, where the search finished them.
fn finished_trees(p: &Programme, off: Option<Tree>, on: Option<Tree>, best: u128) -> Option<Trees>
    requires off { ClosesSide (plain_programme p.now).off best off }
    requires on { ClosesOn (plain_programme p.now).on best on }
    requires off_levels { HasLevels most_levels off }
    requires on_levels { HasLevels most_levels on }
    ensures { MatchOption result ((off ≡ None) ⊎ LacksTree (plain_programme p.now).on on) (AreTreesOf (plain_programme p.now) best) }
{
    let _best = best;
    let off = match off {
        None => return None,
        Some(tree) => tree,
    };
    match &p.on {
        None => Some(Trees { off, on: None }),
        Some(_) => match on {
            None => None,
            Some(tree) => Some(Trees {
                off,
                on: Some(tree),
            }),
        },
    }
}

/// Trees of one node for both sides, where these close them.
fn first_trees(alloc: Global, p: &Programme, best: u128) -> Result<Option<Trees>, AllocError>
    requires { best ≤ 2 ^ 104 }
    ensures { IfOk result (λ trees. MatchOption trees (FailsSome (plain_programme p.now) best) (AreTreesOf (plain_programme p.now) best)) }
{
    let off = match first_tree(alloc, &p.off, best)? {
        None => return Ok(None),
        Some(tree) => tree,
    };
    match &p.on {
        None => Ok(Some(Trees { off, on: None })),
        Some(side) => match first_tree(alloc, side, best)? {
            None => Ok(None),
            Some(tree) => Ok(Some(Trees {
                off,
                on: Some(tree),
            })),
        },
    }
}

/// Trees that show that nothing gains more than `best`, if there are: those of the search, or those of one node.
pub(crate) fn trees_of(
    alloc: Global,
    p: &Programme,
    off: Option<Tree>,
    on: Option<Tree>,
    best: u128,
) -> Result<Option<Trees>, AllocError>
    requires small { best ≤ 2 ^ 104 }
    requires off { ClosesSide (plain_programme p.now).off best off }
    requires on { ClosesOn (plain_programme p.now).on best on }
    requires off_levels { HasLevels most_levels off }
    requires on_levels { HasLevels most_levels on }
    ensures { IfOk result (λ trees. MatchOption trees (((off ≡ None) ⊎ LacksTree (plain_programme p.now).on on) × FailsSome (plain_programme p.now) best) (AreTreesOf (plain_programme p.now) best)) }
{
    match finished_trees(p, off, on, best) {
        Some(trees) => Ok(Some(trees)),
        None => first_trees(alloc, p, best),
    }
}
