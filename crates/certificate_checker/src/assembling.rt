ghost use Rattle.std.specs.Prelude.{◌≡◌, map};
ghost use Rattle.certificate_checker.specs.{Nodes.{PlainTree}, NodeLists.{nodes_of}, NodeViews.{plain_node}, Views.{plain_tree}};

use crate::nodes::TreeNode;
use crate::trees::Tree;

/// The tree that has these nodes.
pub fn tree_of(nodes: Vec<TreeNode>) -> Tree
    requires { (tree : PlainTree) × (map plain_node nodes.items ≡ nodes_of tree) }
    ensures { (tree : PlainTree) → map plain_node nodes.items ≡ nodes_of tree → plain_tree result ≡ tree }
{
    Tree { nodes }
}
