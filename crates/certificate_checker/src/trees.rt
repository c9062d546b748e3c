ghost use Rattle.std.specs.Prelude.{◌≡◌, map, Some};
ghost use Rattle.std.proofs.Props.{props};
ghost use Rattle.certificate_checker.specs.{NodeLists.{tree_count}, NodeViews.{plain_node}};

use crate::nodes::TreeNode;
use placement_programme::Choice;

/// A proof that a side's choices gain no more than a bound.
#[derive(Drop)]
pub struct Tree {
    /// Its nodes: behind a branch come those of the choices without its variable, and then those of the choices with it.
    pub nodes: Vec<TreeNode>,
    pub ghost whole: { tree_count (map plain_node nodes.items) ≡ Some 1 } by { Prim.hlevel props },
}

/// A choice, and what shows that none is better.
#[derive(Drop)]
pub struct Certificate {
    pub choice: Choice,
    /// The tree of the side without overlay; None where the choice is only the best that was found.
    pub off: Option<Tree>,
    /// The tree of the side with overlay, where the programme has one.
    pub on: Option<Tree>,
}
