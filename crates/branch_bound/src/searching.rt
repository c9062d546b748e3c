ghost use Rattle.std.specs.Prelude.{◌≡◌, ℕ, suc, ◌+◌, ◌^◌, ◌<◌, ◌≤◌, length, Option, Some, None, true, false, Bool, List, ◌∷◌, option_map, IfSome, IfOk, OnOk};
ghost use Rattle.std.specs.List.{count_by};
ghost use Rattle.placement_programme.specs.{Plain.{PlainSide}, Programme.{Fits}, Views.{plain_side}};
ghost use Rattle.certificate_checker.specs.{Fixings.{is_free}, Tallies.{AreTallies}, declared.fixings.Fixing.{Fixing}, Nodes.{PlainTree}, NodeLists.{nodes_of}, Views.{plain_tree}};
ghost use Rattle.branch_bound.specs.{Assignments.{taken, IsGreatestFree}, Ranking.{IsRanking, PassedOver, number_at}, Searching.{EntryBelow, IsKnown, Reports, Visits, HasLevels, KeepsIncumbent, TriesNode, IsOpened, Finds}, Trails.{steps_on, nodes_on, place_of, IsBehind}, Stands.{CanVisit, IsBefore, Stands, CanAdvance, is_ended, ahead}, declared.ranking.Ranked.{Ranked}, declared.running.Running.{Running}, declared.stands.Stand.TheVariants.{Before, Behind, Ended}};

use crate::closing::plain_dual;
use crate::exceeding::exceeded;
use crate::improving::improve;
use crate::open_branches::OpenBranch;
use crate::ranking::{Ranked, first_free};
use crate::running::{Running, tell_nodes};
use crate::stands::{Next, Stand, has_ended};
use crate::trails::{Trail, close, first_trail, join, step_back, step_to, whole_tree};
use crate::visiting::Visit;
use certificate_checker::{Assignment, Tree, TreeNode};
use placement_programme::Side;
use shelf_io::Progress;
use std::alloc::{AllocError, Global};

/// What a search is for: a side of a programme, off or on.
#[derive(Drop)]
pub(crate) struct Task<'a> {
    pub alloc: Global,
    pub side: &'a Side,
    pub on: bool,
    /// Its variables in the order in which the search branches.
    pub ranking: &'a [Ranked],
}

/// Closes a node by the dual rule without multipliers, or branches on its free variable of greatest gain, which is at a
/// place of the order.
fn close_or_open(alloc: Global, task: &Task, node: &Assignment, place: usize, best: u128) -> Visit
    requires tallies { AreTallies (plain_side task.now.side.now) node.now }
    requires fits { Fits (plain_side task.now.side.now) (taken (plain_side task.now.side.now) node.now.marks.items) }
    requires place { place < length task.now.ranking.now }
    requires greatest { IsGreatestFree (plain_side task.now.side.now) node.now.marks.items (number_at task.now.ranking.now place) }
    requires passed { PassedOver task.now.ranking.now node.now.marks.items place }
    requires small { best ≤ 2 ^ 104 }
    ensures { Visits (plain_side task.now.side.now) task.now.ranking.now best node.now.marks.items result }
{
    match plain_dual(alloc, task.side, node, best) {
        Some(closed) => Visit::Closed(closed),
        None => Visit::Open(place),
    }
}

/// Visits a node of which it is known that what its assignment takes fits, and gains no more than `best`. No variable before
/// a place of the order is free.
fn visit_known(alloc: Global, task: &Task, node: &Assignment, place: usize, best: u128) -> Visit
    requires ranking { IsRanking (plain_side task.now.side.now) task.now.ranking.now }
    requires tallies { AreTallies (plain_side task.now.side.now) node.now }
    requires passed { PassedOver task.now.ranking.now node.now.marks.items place }
    requires fits { Fits (plain_side task.now.side.now) (taken (plain_side task.now.side.now) node.now.marks.items) }
    requires below { EntryBelow (plain_side task.now.side.now) best node.now.marks.items }
    requires small { best ≤ 2 ^ 104 }
    ensures { Visits (plain_side task.now.side.now) task.now.ranking.now best node.now.marks.items result }
{
    match first_free(task.side, task.ranking, &node.marks, place) {
        None => Visit::Closed(TreeNode::Leaf),
        Some(found) => close_or_open(alloc, task, node, found, best),
    }
}

/// Visits a node that exceeds no row. What its assignment takes may become the incumbent.
fn visit_fitting(
    alloc: Global,
    task: &Task,
    node: &Assignment,
    place: usize,
    run: &mut Running,
) -> Result<Visit, AllocError>
    requires ranking { IsRanking (plain_side task.now.side.now) task.now.ranking.now }
    requires tallies { AreTallies (plain_side task.now.side.now) node.now }
    requires passed { PassedOver task.now.ranking.now node.now.marks.items place }
    requires fits { Fits (plain_side task.now.side.now) (taken (plain_side task.now.side.now) node.now.marks.items) }
    requires small { run.old.best.gain ≤ 2 ^ 104 }
    ensures visits { IfOk result (Visits (plain_side task.now.side.now) task.now.ranking.now run.new.best.gain node.now.marks.items) }
    ensures tried { OnOk result (TriesNode task.now.on (plain_side task.now.side.now) node.now.marks.items run.old run.new) }
    ensures small { run.new.best.gain ≤ 2 ^ 104 }
{
    improve(alloc, task.side, task.on, node, &mut run.best)?;
    Ok(visit_known(alloc, task, node, place, run.best.gain))
}

/// Visits a node: closes it, or tells where the variable stands in the order on which to branch. None of those before
/// `place` is free. `raised` is the variable that was fixed to one last; None where what the assignment takes was tried
/// before.
fn visit(
    alloc: Global,
    task: &Task,
    node: &Assignment,
    place: usize,
    run: &mut Running,
    raised: Option<u32>,
) -> Result<Visit, AllocError>
    requires ranking { IsRanking (plain_side task.now.side.now) task.now.ranking.now }
    requires tallies { AreTallies (plain_side task.now.side.now) node.now }
    requires passed { PassedOver task.now.ranking.now node.now.marks.items place }
    requires small { run.old.best.gain ≤ 2 ^ 104 }
    requires known { IsKnown (plain_side task.now.side.now) run.old.best.gain node.now.marks.items raised }
    ensures visits { IfOk result (Visits (plain_side task.now.side.now) task.now.ranking.now run.new.best.gain node.now.marks.items) }
    ensures tried { OnOk result (TriesNode task.now.on (plain_side task.now.side.now) node.now.marks.items run.old run.new) }
    ensures small { run.new.best.gain ≤ 2 ^ 104 }
{
    match raised {
        None => Ok(visit_known(alloc, task, node, place, run.best.gain)),
        Some(number) => match exceeded(node, task.side, number as usize) {
            Some(row) => Ok(Visit::Closed(TreeNode::Over { row })),
            None => visit_fitting(alloc, task, node, place, run),
        },
    }
}

/// Visits the next node: it is closed, or the search steps to its child for one.
fn visit_next(
    task: &Task,
    node: &mut Assignment,
    run: &mut Running,
    trail: &mut Trail,
    next: Next,
    progress: &dyn Progress,
) -> Result<Stand, AllocError>
    requires ranking { IsRanking (plain_side task.now.side.now) task.now.ranking.now }
    requires tallies { AreTallies (plain_side task.now.side.now) node.old }
    requires small { run.old.best.gain ≤ 2 ^ 104 }
    requires next { CanVisit (plain_side task.now.side.now) task.now.ranking.now node.old.marks.items run.old.best.gain next }
    ensures tallies { AreTallies (plain_side task.now.side.now) node.new }
    ensures small { run.new.best.gain ≤ 2 ^ 104 }
    ensures stands { IfOk result (λ stand. (root : List Fixing) (start : Running)
        → IsBefore task.now.on (plain_side task.now.side.now) task.now.ranking.now root start trail.old node.old.marks.items run.old next
        → Stands task.now.on (plain_side task.now.side.now) task.now.ranking.now root start trail.new node.new.marks.items run.new stand) }
    ensures ahead { IfOk result (λ stand. ahead run.new trail.new stand < ahead run.old trail.old (Before next)) }
{
    if run.left == 0 {
        return Ok(Stand::Ended { whole: false });
    }
    run.left -= 1;
    tell_nodes(progress, run);
    match visit(task.alloc, task, node, next.place, run, next.raised)? {
        Visit::Closed(closed) => {
            close(trail, closed)?;
            Ok(Stand::Behind)
        }
        Visit::Open(place) => {
            let number = task.ranking[place].number;
            node.fix_one(task.side, number as usize);
            step_to(trail, OpenBranch::ToOne(place))?;
            Ok(Stand::Before(Next {
                place: place + 1,
                raised: Some(number),
            }))
        }
    }
}

/// Leaves a node that is closed: the child for zero comes behind that for one, and behind both their branch is closed, so
/// that its variable is free again.
fn leave(
    task: &Task,
    node: &mut Assignment,
    trail: &mut Trail,
    last: OpenBranch,
) -> Result<Stand, AllocError>
    requires ranking { IsRanking (plain_side task.now.side.now) task.now.ranking.now }
    requires tallies { AreTallies (plain_side task.now.side.now) node.old }
    requires inside { place_of last < length task.now.ranking.now }
    ensures tallies { AreTallies (plain_side task.now.side.now) node.new }
    ensures stands { IfOk result (λ stand. (root : List Fixing) (start run : Running)
        → IsBehind (number_at task.now.ranking.now) (IsOpened task.now.on (plain_side task.now.side.now) task.now.ranking.now) (Finds task.now.on (plain_side task.now.side.now)) root start (last ∷ steps_on trail.old) (nodes_on trail.old) node.old.marks.items run
        → Stands task.now.on (plain_side task.now.side.now) task.now.ranking.now root start trail.new node.new.marks.items run stand) }
    ensures ahead { IfOk result (λ stand. (run : Running) → ahead run trail.new stand < ahead run trail.old Behind + 3) }
{
    match last {
        OpenBranch::ToOne(place) => {
            node.fix_zero(task.side, task.ranking[place].number as usize);
            step_to(trail, OpenBranch::ToZero(place))?;
            Ok(Stand::Before(Next {
                place: place + 1,
                raised: None,
            }))
        }
        OpenBranch::ToZero(place) => {
            let number = task.ranking[place].number;
            node.free(task.side, number as usize);
            join(trail, number)?;
            Ok(Stand::Behind)
        }
    }
}

/// One step forward.
fn advance(
    task: &Task,
    node: &mut Assignment,
    run: &mut Running,
    trail: &mut Trail,
    stand: Stand,
    progress: &dyn Progress,
) -> Result<Stand, AllocError>
    requires ranking { IsRanking (plain_side task.now.side.now) task.now.ranking.now }
    requires tallies { AreTallies (plain_side task.now.side.now) node.old }
    requires small { run.old.best.gain ≤ 2 ^ 104 }
    requires stand { CanAdvance (plain_side task.now.side.now) task.now.ranking.now (steps_on trail.old) node.old.marks.items run.old.best.gain stand }
    ensures tallies { AreTallies (plain_side task.now.side.now) node.new }
    ensures small { run.new.best.gain ≤ 2 ^ 104 }
    ensures stands { IfOk result (λ next. (root : List Fixing) (start : Running)
        → Stands task.now.on (plain_side task.now.side.now) task.now.ranking.now root start trail.old node.old.marks.items run.old stand
        → Stands task.now.on (plain_side task.now.side.now) task.now.ranking.now root start trail.new node.new.marks.items run.new next) }
    ensures ahead { IfOk result (λ next. is_ended stand ≡ false → ahead run.new trail.new next < ahead run.old trail.old stand) }
{
    match stand {
        Stand::Before(next) => visit_next(task, node, run, trail, next, progress),
        Stand::Behind => match step_back(trail) {
            None => Ok(Stand::Ended { whole: true }),
            Some(last) => leave(task, node, trail, last),
        },
        Stand::Ended { whole } => Ok(Stand::Ended { whole }),
    }
}

/// The tree of the root at the end of a search; None where the budget ended before everything was closed.
fn ended_tree(trail: Trail, stand: Stand) -> Option<Tree>
    requires ended { is_ended stand ≡ true }
    requires whole { stand ≡ Ended true → (tree : PlainTree) × (nodes_on trail ≡ nodes_of tree) }
    ensures finds { (on : Bool) (s : PlainSide) (ranking : List Ranked) (root : List Fixing) (start : Running) (marks : List Fixing) (run : Running) → Stands on s ranking root start trail marks run stand → Finds on s root start run (option_map plain_tree result) }
    ensures kept { (on : Bool) (s : PlainSide) (ranking : List Ranked) (root : List Fixing) (start : Running) (marks : List Fixing) (run : Running) → Stands on s ranking root start trail marks run stand → IfSome result (λ t. marks ≡ root) }
{
    match stand {
        Stand::Ended { whole: true } => Some(whole_tree(trail)),
        _ => None,
    }
}

/// Searches below some fixings, depth first and one before zero, for what gains more than the incumbent; None where the
/// budget ends before everything is closed. The open branches stand in a list, so no stack grows with the variables. A child
/// that fixes a variable to zero takes what its parent takes, which is known then. Where there is a tree the assignment is
/// as it was before; where there is none the search is over, and it isn't set back.
pub(crate) fn search(
    task: &Task,
    node: &mut Assignment,
    place: usize,
    run: &mut Running,
    raised: Option<u32>,
    progress: &dyn Progress,
) -> Result<Option<Tree>, AllocError>
    requires ranking { IsRanking (plain_side task.now.side.now) task.now.ranking.now }
    requires tallies { AreTallies (plain_side task.now.side.now) node.old }
    requires passed { PassedOver task.now.ranking.now node.old.marks.items place }
    requires small { run.old.best.gain ≤ 2 ^ 104 }
    requires known { IsKnown (plain_side task.now.side.now) run.old.best.gain node.old.marks.items raised }
    ensures kept { IfOk result (λ tree. IfSome tree (λ t. node.new.marks.items ≡ node.old.marks.items)) }
    ensures tallies { AreTallies (plain_side task.now.side.now) node.new }
    ensures grows { OnOk result (run.old.best.gain ≤ run.new.best.gain) }
    ensures small { run.new.best.gain ≤ 2 ^ 104 }
    ensures keeps { OnOk result (KeepsIncumbent task.now.on (plain_side task.now.side.now) run.old.best run.new.best) }
    ensures levels { IfOk result (HasLevels (suc (count_by is_free node.old.marks.items))) }
    ensures tells { IfOk result (λ tree. (start : ℕ) → start ≤ run.old.best.gain → Reports (plain_side task.now.side.now) start node.old.marks.items run.new.best.gain run.old.left run.new.left tree) }
{
    let mut trail = first_trail(task.alloc);
    let mut stand = Stand::Before(Next { place, raised });
    while !has_ended(&stand) {
        stand = advance(task, node, run, &mut trail, stand, progress)?;
    }
    Ok(ended_tree(trail, stand))
}
