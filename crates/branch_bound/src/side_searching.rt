ghost use Rattle.std.specs.Prelude.{◌≡◌, ℕ, ◌+◌, ◌^◌, ◌<◌, ◌≤◌, true, false, Bool, List, ◌∷◌, length, is_some, option_map, IfSome, IfOk, OnOk};
ghost use Rattle.std.specs.List.{count_by};
ghost use Rattle.placement_programme.specs.{Plain.{PlainSide, PlainProgramme}, Views.{plain_side, plain_programme, plain_choice}};
ghost use Rattle.certificate_checker.specs.{Fixings.{is_free}, declared.fixings.Fixing.{Fixing}, RowWise.{rows_of, IsOfSide}, Nodes.{PlainTree}, NodeLists.{nodes_of}, Views.{plain_tree}};
ghost use Rattle.branch_bound.specs.{Incumbents.{IsSound, GoesOn}, Visits.{ShownBelow, IsVisited}, Rounds.{IsReady}, Guided.{Gains, Takes, Asks, Searches, stand}, Trails.{steps_on, nodes_on, place_of, IsBehind}, SideStands.{number_itself, IsOpenedBy, FindsBy, SideWay, SideStands, CanStepBack, is_side_ended, side_ahead}, declared.side_incumbents.Incumbent.{Incumbent}, declared.side_stands.Stand.TheVariants.{Before, Behind, Ended}};

use crate::fathoming::{fathom_dual, fathom_or_branch};
use crate::open_branches::OpenBranch;
use crate::side_incumbents::Incumbent;
use crate::side_stands::{Stand, has_ended};
use crate::side_visiting::Visit;
use crate::trails::{Trail, close, first_trail, join, step_back, step_to, whole_tree};
use certificate_checker::{Fixing, RowWise, Tree, Weighed, accepted};
use lagrangian_bound::{Guide, NodeBound};
use placement_programme::{Choice, Programme, Side};
use std::alloc::{AllocError, Global};

/// What a search is for: a side of a programme, off or on.
#[derive(Drop)]
pub(crate) struct Task<'a> {
    pub alloc: Global,
    pub programme: &'a Programme,
    pub side: &'a Side,
    /// The weights of the side by rows.
    pub by_row: &'a RowWise,
    pub on: bool,
}

/// Takes a choice for the incumbent where it is feasible and gains more.
fn improve(p: &Programme, choice: Choice, best: &mut Incumbent)
    requires sound { IsSound (plain_programme p.now) best.old }
    ensures sound { IsSound (plain_programme p.now) best.new }
    ensures grows { best.old.gain ≤ best.new.gain }
    ensures left { best.new.left ≡ best.old.left }
    ensures takes { Gains (plain_programme p.now) (plain_choice choice) best.new.gain }
{
    match accepted(p, &choice) {
        Some(gain) => {
            if gain > best.gain {
                best.choice = choice;
                best.gain = gain;
            }
        }
        None => {}
    }
}

fn try_candidate(p: &Programme, on: bool, candidate: Option<Vec<u32>>, best: &mut Incumbent)
    requires sound { IsSound (plain_programme p.now) best.old }
    ensures sound { IsSound (plain_programme p.now) best.new }
    ensures grows { best.old.gain ≤ best.new.gain }
    ensures left { best.new.left ≡ best.old.left }
    ensures takes { Takes (plain_programme p.now) on (option_map (λ take. take.items) candidate) best.new.gain }
{
    match candidate {
        Some(take) => improve(p, Choice { on, take }, best),
        None => {}
    }
}

/// Visits a node: asks the guide, takes its candidate for the incumbent, and tests its dual solution.
fn visit<G: Guide>(
    alloc: Global,
    task: &Task,
    guide: &mut G,
    marks: &[Fixing],
    best: &mut Incumbent,
) -> Result<Visit, AllocError>
    requires by_row { IsOfSide (plain_side task.now.side.now) (rows_of task.now.by_row.now) }
    requires marked { length (plain_side task.now.side.now).vars ≤ length marks.now }
    requires sound { IsSound (plain_programme task.now.programme.now) best.old }
    ensures sound { OnOk result (IsSound (plain_programme task.now.programme.now) best.new) }
    ensures grows { OnOk result (best.old.gain ≤ best.new.gain) }
    ensures left { OnOk result (best.new.left ≡ best.old.left) }
    ensures asks { IfOk result (Asks G.answers (plain_programme task.now.programme.now) task.now.on (plain_side task.now.side.now) marks.now guide.old best.old.gain best.new.gain guide.new) }
{
    let found = guide.at_node(alloc, task.side, marks, best.gain)?;
    let NodeBound {
        exceeded,
        candidate,
        dual,
        branch,
    } = found;
    try_candidate(task.programme, task.on, candidate, best);
    let weighed = Weighed {
        side: task.side,
        by_row: task.by_row,
    };
    let dual = fathom_dual(alloc, &weighed, best.gain, marks, dual)?;
    let visit = fathom_or_branch(task.side, best.gain, marks, exceeded, dual, branch);
    Ok(visit)
}

/// Visits the next node: it is closed, or the search steps to its child for one.
fn visit_next<G: Guide>(
    task: &Task,
    guide: &mut G,
    marks: &mut [Fixing],
    best: &mut Incumbent,
    trail: &mut Trail,
) -> Result<Stand, AllocError>
    requires ready { IsReady task.now marks.old best.old }
    ensures ready { OnOk result (IsReady task.now marks.new best.new) }
    ensures stands { IfOk result (λ stand. (root : List Fixing) (start : G × Incumbent)
        → SideWay G.answers (plain_programme task.now.programme.now) task.now.on (plain_side task.now.side.now) root start trail.old marks.old (guide.old, best.old)
        → SideStands G.answers (plain_programme task.now.programme.now) task.now.on (plain_side task.now.side.now) root start trail.new marks.new (guide.new, best.new) stand) }
    ensures ahead { IfOk result (λ stand. side_ahead best.new trail.new stand < side_ahead best.old trail.old Before) }
{
    if best.left == 0 {
        return Ok(Stand::Ended { whole: false });
    }
    best.left -= 1;
    match visit(task.alloc, task, guide, marks, best)? {
        Visit::Closed(closed) => {
            close(trail, closed)?;
            Ok(Stand::Behind)
        }
        Visit::Stuck => Ok(Stand::Ended { whole: false }),
        Visit::Open(var) => {
            let place = var as usize;
            marks[place] = Fixing::One;
            step_to(trail, OpenBranch::ToOne(place))?;
            Ok(Stand::Before)
        }
    }
}

/// Leaves a node that is closed: the child for zero comes behind that for one, and behind both their branch is closed, so
/// that its variable is free again.
fn leave<G: Guide>(
    task: &Task,
    marks: &mut [Fixing],
    trail: &mut Trail,
    last: OpenBranch,
) -> Result<Stand, AllocError>
    requires inside { place_of last < length (plain_side task.now.side.now).vars }
    requires marked { length (plain_side task.now.side.now).vars ≤ length marks.old }
    ensures stands { IfOk result (λ stand. (root : List Fixing) (start now : G × Incumbent)
        → IsBehind number_itself (IsOpenedBy G.answers (plain_programme task.now.programme.now) task.now.on (plain_side task.now.side.now)) (FindsBy G.answers (plain_programme task.now.programme.now) task.now.on (plain_side task.now.side.now)) root start (last ∷ steps_on trail.old) (nodes_on trail.old) marks.old now
        → SideStands G.answers (plain_programme task.now.programme.now) task.now.on (plain_side task.now.side.now) root start trail.new marks.new now stand) }
    ensures ahead { IfOk result (λ stand. (best : Incumbent) → side_ahead best trail.new stand < side_ahead best trail.old Behind + 3) }
{
    match last {
        OpenBranch::ToOne(place) => {
            marks[place] = Fixing::Zero;
            step_to(trail, OpenBranch::ToZero(place))?;
            Ok(Stand::Before)
        }
        OpenBranch::ToZero(place) => {
            marks[place] = Fixing::Free;
            join(trail, place as u32)?;
            Ok(Stand::Behind)
        }
    }
}

/// One step forward.
fn advance<G: Guide>(
    task: &Task,
    guide: &mut G,
    marks: &mut [Fixing],
    best: &mut Incumbent,
    trail: &mut Trail,
    stand: Stand,
) -> Result<Stand, AllocError>
    requires ready { IsReady task.now marks.old best.old }
    requires stand { CanStepBack (plain_side task.now.side.now) (steps_on trail.old) stand }
    ensures ready { OnOk result (IsReady task.now marks.new best.new) }
    ensures stands { IfOk result (λ next. (root : List Fixing) (start : G × Incumbent)
        → SideStands G.answers (plain_programme task.now.programme.now) task.now.on (plain_side task.now.side.now) root start trail.old marks.old (guide.old, best.old) stand
        → SideStands G.answers (plain_programme task.now.programme.now) task.now.on (plain_side task.now.side.now) root start trail.new marks.new (guide.new, best.new) next) }
    ensures ahead { IfOk result (λ next. is_side_ended stand ≡ false → side_ahead best.new trail.new next < side_ahead best.old trail.old stand) }
{
    match stand {
        Stand::Before => visit_next(task, guide, marks, best, trail),
        Stand::Behind => match step_back(trail) {
            None => Ok(Stand::Ended { whole: true }),
            Some(last) => leave::<G>(task, marks, trail, last),
        },
        Stand::Ended { whole } => Ok(Stand::Ended { whole }),
    }
}

/// The tree of the root at the end of a search; None where it came to no end.
fn ended_tree<G: Guide>(trail: Trail, at: Stand) -> Option<Tree>
    requires ended { is_side_ended at ≡ true }
    requires whole { at ≡ Ended true → (tree : PlainTree) × (nodes_on trail ≡ nodes_of tree) }
    ensures finds { (p : PlainProgramme) (on : Bool) (s : PlainSide) (root : List Fixing) (start : G × Incumbent) (marks : List Fixing) (now : G × Incumbent) → SideStands G.answers p on s root start trail marks now at → FindsBy G.answers p on s root start now (option_map plain_tree result) }
    ensures kept { (p : PlainProgramme) (on : Bool) (s : PlainSide) (root : List Fixing) (start : G × Incumbent) (marks : List Fixing) (now : G × Incumbent) → SideStands G.answers p on s root start trail marks now at → IfSome result (λ t. marks ≡ root) }
{
    match at {
        Stand::Ended { whole: true } => Some(whole_tree(trail)),
        _ => None,
    }
}

/// Searches below these fixings, the child one before the child zero, with a tree of at most so many levels, which are more
/// than the free variables. None where the nodes that are left don't suffice, or a node can neither be closed nor branched
/// on; then the fixings aren't set back. The open branches stand in a list, so no stack grows with the variables.
pub(crate) fn search<G: Guide>(
    task: &Task,
    guide: &mut G,
    marks: &mut [Fixing],
    levels: u32,
    best: &mut Incumbent,
) -> Result<Option<Tree>, AllocError>
    requires ready { IsReady task.now marks.old best.old }
    requires deep { count_by is_free marks.old < levels }
    ensures kept { IfOk result (λ tree. IfSome tree (λ t. marks.new ≡ marks.old)) }
    ensures goes_on { OnOk result (GoesOn (plain_programme task.now.programme.now) best.old best.new) }
    ensures shown { IfOk result (ShownBelow (plain_side task.now.side.now) best.new.gain marks.old levels) }
    ensures searches { IfOk result (λ tree. Searches G.answers (plain_programme task.now.programme.now) task.now.on (plain_side task.now.side.now) marks.old (stand guide.old best.old) (is_some tree) (stand guide.new best.new)) }
{
    let _levels = levels;
    let mut trail = first_trail(task.alloc);
    let mut at = Stand::Before;
    while !has_ended(&at) {
        at = advance(task, guide, marks, best, &mut trail, at)?;
    }
    Ok(ended_tree::<G>(trail, at))
}
