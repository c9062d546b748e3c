ghost use Rattle.std.specs.Prelude.{ℕ, List, IfOk};
ghost use Rattle.placement_programme.specs.{Plain.{PlainSide}, Views.{plain_side}};
ghost use Rattle.certificate_checker.specs.declared.fixings.Fixing.{Fixing};
ghost use Rattle.lagrangian_bound.specs.declared.guiding.NodeBound.{NodeBound};

use certificate_checker::Fixing;
use placement_programme::Side;
use std::alloc::{AllocError, Global};

/// A dual solution: multipliers that may bound the gain, with the scale of the gains.
#[derive(Drop)]
pub struct DualSolution {
    /// By which the gains are multiplied.
    pub scale: u32,
    /// Numbers of rows, each with its multiplier: scaled gains for a unit of the row's capacity.
    pub multipliers: Vec<(u32, u64)>,
}

/// What a guide answers of a node. The search tests all of it.
#[derive(Drop)]
pub struct NodeBound {
    /// A row that the variables fixed to one exceed.
    pub exceeded: Option<u32>,
    /// A choice below the node that gains more than what was asked, as the numbers of its variables.
    pub candidate: Option<Vec<u32>>,
    /// What may show that nothing below the node gains more than what was asked, or than the candidate.
    pub dual: Option<DualSolution>,
    /// The variable to branch on.
    pub branch: Option<u32>,
}

/// What leads the first search of a side from node to node.
pub trait Guide: Sized + Drop {
    // what it answers of a node, asked whether anything below it gains more than so much
    ghost answers: { Self → PlainSide → List Fixing → ℕ → NodeBound → Self → Type 0 };

    /// Of a side.
    fn of(alloc: Global, side: &Side) -> Result<Self, AllocError>;

    /// What it answers of a node that fixes the variables so. It is asked whether anything gains more than `best`, which has
    /// the fixed cost taken off.
    fn at_node(
        &mut self,
        alloc: Global,
        side: &Side,
        marks: &[Fixing],
        best: u128,
    ) -> Result<NodeBound, AllocError>
        ensures { IfOk result (λ answer. answers self.old (plain_side side.now) marks.now best answer self.new) };

    /// What no choice of the side gains more than, as it was found at the first node, the fixed cost taken off. It is only
    /// for those who wait.
    fn bound(&self) -> Option<u128>;
}
