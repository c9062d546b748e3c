ghost use Rattle.std.specs.Prelude.{◌≡◌, [], ◌∷◌, MatchOption, OnOk};
ghost use Rattle.certificate_checker.specs.{Nodes.{PlainTree}, NodeLists.{branch_node, nodes_of}, NodeViews.{plain_node}, Views.{plain_tree}};
ghost use Rattle.branch_bound.specs.Trails.{steps_on, nodes_on};

use crate::open_branches::OpenBranch;
use certificate_checker::{Tree, TreeNode, tree_of};
use std::alloc::{AllocError, Global};

/// The way of a search from the root to a node: the branches that are open, and the nodes of all trees that are closed. The
/// nodes of a tree come in the order that is the reverse of its text's.
#[derive(Drop)]
pub(crate) struct Trail {
    pub steps: Vec<OpenBranch>,
    pub closed: Vec<TreeNode>,
}

/// A trail at the root.
pub(crate) fn first_trail(alloc: Global) -> Trail
    ensures steps { steps_on result ≡ [] }
    ensures closed { nodes_on result ≡ [] }
{
    Trail {
        steps: Vec::new(alloc),
        closed: Vec::new(alloc),
    }
}

/// Steps to a child of a branch.
pub(crate) fn step_to(trail: &mut Trail, branch: OpenBranch) -> Result<(), AllocError>
    ensures steps { OnOk result (steps_on trail.new ≡ branch ∷ steps_on trail.old) }
    ensures closed { OnOk result (nodes_on trail.new ≡ nodes_on trail.old) }
{
    trail.steps.push(branch)?;
    Ok(())
}

/// Takes the last step back; None at the root.
pub(crate) fn step_back(trail: &mut Trail) -> Option<OpenBranch>
    ensures steps { MatchOption result ((steps_on trail.old ≡ []) × (steps_on trail.new ≡ [])) (λ branch. steps_on trail.old ≡ branch ∷ steps_on trail.new) }
    ensures closed { nodes_on trail.new ≡ nodes_on trail.old }
{
    trail.steps.pop()
}

/// Keeps a node that is closed.
pub(crate) fn close(trail: &mut Trail, node: TreeNode) -> Result<(), AllocError>
    ensures steps { OnOk result (steps_on trail.new ≡ steps_on trail.old) }
    ensures closed { OnOk result (nodes_on trail.new ≡ plain_node node ∷ nodes_on trail.old) }
{
    trail.closed.push(node)?;
    Ok(())
}

/// Closes a branch, behind the trees of its children: that for one, and then that for zero.
pub(crate) fn join(trail: &mut Trail, var: u32) -> Result<(), AllocError>
    ensures steps { OnOk result (steps_on trail.new ≡ steps_on trail.old) }
    ensures closed { OnOk result (nodes_on trail.new ≡ branch_node var ∷ nodes_on trail.old) }
{
    trail.closed.push(TreeNode::Branch { var })?;
    Ok(())
}

/// The tree of the root.
pub(crate) fn whole_tree(trail: Trail) -> Tree
    requires { (tree : PlainTree) × (nodes_on trail ≡ nodes_of tree) }
    ensures { (tree : PlainTree) → nodes_on trail ≡ nodes_of tree → plain_tree result ≡ tree }
{
    let mut nodes = trail.closed;
    nodes.as_mut_slice().reverse();
    tree_of(nodes)
}
