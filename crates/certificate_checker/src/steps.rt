ghost use Rattle.std.specs.Prelude.{◌≡◌, ℕ, ◌+◌, ◌-◌, ◌*◌, ◌^◌, ◌<◌, ◌≤◌, ◌↔◌, IsTrue, Bool, true, List, ◌∷◌, length};
ghost use Rattle.placement_programme.specs.Views.{plain_side};
ghost use Rattle.certificate_checker.specs.{Tallies.{IsAssignmentOf, Fixes}, LastDuals.{IsLast}, Ways.{Step, to_zero, SoFar, TreeText, IsBehind, Stands, MayMark, marked, step_in, CanRise, left}};

use crate::assignments::Assignment;
use crate::dual_prices::DualPrices;
use crate::fixings::Fixing;
use crate::rules::branch_holds;
use crate::walking::{Failing, next_number};
use placement_programme::Side;

/// A step of the path from the root to a node: from a branch to one of its children.
#[derive(Clone, Copy, Drop)]
pub struct PathStep {
    /// The variable of the branch.
    pub var: u32,
    /// Whether the child is that for one.
    pub taken: bool,
}

/// How far the walk over the text of a tree has come.
#[derive(Drop)]
pub(crate) struct Progress {
    /// How many steps the path has.
    pub depth: u32,
    /// Whether the tree at the end of the path was read.
    pub ended: bool,
    /// The number of the next node where all before it hold, else the first that fails.
    pub so_far: Result<u32, Failing>,
}

/// Whether the whole tree was read.
pub(crate) fn is_done(progress: &Progress) -> bool
    ensures { IsTrue result ↔ ((progress.now.ended ≡ true) × (progress.now.depth ≡ 0)) }
{
    progress.ended && progress.depth == 0
}

/// The step of a path at a depth.
fn step_in(path: &[PathStep], depth: u32) -> PathStep
    requires { depth < length path.now }
    ensures { result ≡ step_in path.now depth }
{
    path[depth as usize]
}

/// Fixes a variable, or frees it, and lets the credits of the last dual node follow.
fn fix_priced(
    side: &Side,
    assignment: &mut Assignment,
    prices: &mut DualPrices,
    number: usize,
    fixing: Fixing,
)
    requires exact { IsAssignmentOf (plain_side side.now) assignment.old }
    requires number { number < length (plain_side side.now).vars }
    requires room { length (plain_side side.now).vars ≤ length prices.old.list.items }
    requires last { IsLast (plain_side side.now) assignment.old.marks.items prices.old }
    ensures fixes { Fixes (plain_side side.now) number fixing assignment.old assignment.new }
    ensures last { IsLast (plain_side side.now) assignment.new.marks.items prices.new }
    ensures list { prices.new.list ≡ prices.old.list }
{
    prices.follow(side, &assignment.marks, number, fixing);
    assignment.fix(side, number, fixing);
}

/// Takes the step to the child for zero. A branch that fixes no free variable fails, and its children are only read.
pub(crate) fn enter(
    side: &Side,
    assignment: &mut Assignment,
    path: &mut [PathStep],
    prices: &mut DualPrices,
    progress: Progress,
    var: u32,
) -> Result<u32, Failing>
    requires exact { IsAssignmentOf (plain_side side.now) assignment.old }
    requires inside { progress.depth < length path.old }
    requires depth { progress.depth < 2 ^ 31 }
    requires room { length (plain_side side.now).vars ≤ length prices.old.list.items }
    requires last { IsLast (plain_side side.now) assignment.old.marks.items prices.old }
    ensures exact { IsAssignmentOf (plain_side side.now) assignment.new }
    ensures last { IsLast (plain_side side.now) assignment.new.marks.items prices.new }
    ensures list { prices.new.list ≡ prices.old.list }
    ensures so_far { (judged : Bool) (best : ℕ) (way : List Step) → length way ≡ progress.depth → SoFar (plain_side side.now) judged best way path.old assignment.old.marks.items progress.so_far
        → SoFar (plain_side side.now) judged best (to_zero var ∷ way) path.new assignment.new.marks.items result }
{
    let depth = progress.depth;
    path[depth as usize] = PathStep { var, taken: false };
    match progress.so_far {
        Err(failing) => Err(failing),
        Ok(node) => {
            if !branch_holds(side, &assignment.marks, var) {
                return Err(Failing { node, depth });
            }
            fix_priced(side, assignment, prices, var as usize, Fixing::Zero);
            Ok(next_number(node))
        }
    }
}

/// Fixes or frees a variable, as long as all nodes hold: behind one that fails the assignment serves no more.
fn set_mark(
    side: &Side,
    assignment: &mut Assignment,
    prices: &mut DualPrices,
    var: u32,
    fixing: Fixing,
    so_far: &Result<u32, Failing>,
)
    requires exact { IsAssignmentOf (plain_side side.now) assignment.old }
    requires may { MayMark (plain_side side.now) var so_far.now }
    requires room { length (plain_side side.now).vars ≤ length prices.old.list.items }
    requires last { IsLast (plain_side side.now) assignment.old.marks.items prices.old }
    ensures exact { IsAssignmentOf (plain_side side.now) assignment.new }
    ensures last { IsLast (plain_side side.now) assignment.new.marks.items prices.new }
    ensures list { prices.new.list ≡ prices.old.list }
    ensures marks { assignment.new.marks.items ≡ marked assignment.old.marks.items var fixing so_far.now }
{
    match so_far {
        Ok(_) => fix_priced(side, assignment, prices, var as usize, fixing),
        Err(_) => {}
    }
}

/// Leaves the tree at the end of the path: the child for one comes behind that for zero, and the branch is read behind that
/// for one, so that its variable is free again.
pub(crate) fn leave(
    side: &Side,
    assignment: &mut Assignment,
    path: &mut [PathStep],
    prices: &mut DualPrices,
    progress: Progress,
) -> Progress
    requires exact { IsAssignmentOf (plain_side side.now) assignment.old }
    requires inside { progress.depth ≤ length path.old }
    requires step { CanRise (plain_side side.now) path.old progress.depth progress.so_far }
    requires room { length (plain_side side.now).vars ≤ length prices.old.list.items }
    requires last { IsLast (plain_side side.now) assignment.old.marks.items prices.old }
    ensures exact { IsAssignmentOf (plain_side side.now) assignment.new }
    ensures last { IsLast (plain_side side.now) assignment.new.marks.items prices.new }
    ensures list { prices.new.list ≡ prices.old.list }
    ensures stands { (x : TreeText) (rest : List ℕ) → IsBehind x path.old assignment.old.marks.items progress.depth progress.so_far rest → Stands x path.new assignment.new.marks.items result rest }
    ensures left { (rest : List ℕ) → left result rest < 4 * length rest + (2 * progress.depth + 1) }
    ensures depth { result.depth ≤ progress.depth }
{
    let last = progress.depth - 1;
    let step = step_in(path, last);
    if step.taken {
        set_mark(
            side,
            assignment,
            prices,
            step.var,
            Fixing::Free,
            &progress.so_far,
        );
        return Progress {
            depth: last,
            ended: true,
            so_far: progress.so_far,
        };
    }
    set_mark(
        side,
        assignment,
        prices,
        step.var,
        Fixing::One,
        &progress.so_far,
    );
    path[last as usize] = PathStep {
        var: step.var,
        taken: true,
    };
    Progress {
        depth: progress.depth,
        ended: false,
        so_far: progress.so_far,
    }
}
