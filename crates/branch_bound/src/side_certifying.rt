ghost use Rattle.std.specs.Prelude.{◌≡◌, ◌≤◌, IfOk, OnOk, length, option_map, is_some, ◌&&◌, false};
ghost use Rattle.std.proofs.Common.{replicate};
ghost use Rattle.placement_programme.specs.{Plain.{PlainProgramme}, Views.{plain_side, plain_programme}};
ghost use Rattle.certificate_checker.specs.{RowWise.{rows_of, IsOfSide}, Shows.{all_free, Shows}, Reading.{most_levels}, Spelling.{IsInRange}, Views.{plain_certificate}};
ghost use Rattle.branch_bound.specs.{Incumbents.{IsSound}, Rounds.{IsRound}, Visits.{ShownBelow, ShownOn}, Entries.{vars_on}, Guided.{SearchesSide, SearchesOn, has_ended}, FirstSearch.{nodes_within, SearchesBoth, FirstSearch, IfUnfinished}};

use crate::side_incumbents::Incumbent;
use crate::side_searching::{Task, search};
use crate::side_visiting::{OnSide, Round};
use certificate_checker::{Certificate, Fixing, RowWise, Tree, free_marks};
use lagrangian_bound::{DualBound, Guide};
use placement_programme::{Choice, Programme, Side};
use shelf_io::{NoProgress, Progress};
use std::alloc::{AllocError, Global};

/// How many levels the text of a certificate's tree may have, the root being one.
const MOST_LEVELS: u32 = 4097;

/// How far a round of searches may go.
#[derive(Clone, Copy, Drop)]
struct RoundLimit {
    /// How many nodes of a side it may visit.
    nodes: u64,
    /// How many variables of a side it may look at, in all these nodes together: the time of a node grows with them.
    vars: u64,
    /// Whether it leaves out the side with overlay where the search of the other one doesn't come to its end: there is no
    /// certificate then, whatever it would find.
    needs_off: bool,
}

/// The first round finds something to compare with.
const FIRST_ROUND: RoundLimit = RoundLimit {
    nodes: 1_000,
    vars: 1_000_000,
    needs_off: false,
};
/// Where the second one can't come to its end, more nodes only take time.
const SECOND_ROUND: RoundLimit = RoundLimit {
    nodes: 10_000,
    vars: 8_000_000,
    needs_off: true,
};

/// How many variables the side with overlay has, if there is one.
fn vars_on(p: &Programme) -> usize
    ensures { result ≡ vars_on (plain_programme p.now).on }
{
    match &p.on {
        Some(side) => side.vars.len(),
        None => 0,
    }
}

impl RoundLimit {
    /// How many nodes of a side of a programme, at most so many.
    fn nodes_of(self, p: &Programme, most: u64) -> u64
        ensures { result ≡ nodes_within self.nodes self.vars (plain_programme p.now) most }
    {
        let vars = p.off.vars.len().max(vars_on(p)) as u64;
        most.min(self.nodes).min(self.vars / vars.max(1))
    }
}

#[tactic(auto, unfolding(certificate_checker::specs::Reading::most_levels))]
fn search_from<G: Guide>(
    alloc: Global,
    task: &Task,
    marks: &mut [Fixing],
    best: &mut Incumbent,
    progress: &dyn Progress,
) -> Result<Option<Tree>, AllocError>
    requires by_row { IsOfSide (plain_side task.now.side.now) (rows_of task.now.by_row.now) }
    requires marks { marks.old ≡ all_free (plain_side task.now.side.now) }
    requires sound { IsSound (plain_programme task.now.programme.now) best.old }
    ensures sound { OnOk result (IsSound (plain_programme task.now.programme.now) best.new) }
    ensures grows { OnOk result (best.old.gain ≤ best.new.gain) }
    ensures shown { IfOk result (ShownBelow (plain_side task.now.side.now) best.new.gain (all_free (plain_side task.now.side.now)) most_levels) }
    ensures searches { IfOk result (λ tree. SearchesSide G.answers (plain_programme task.now.programme.now) task.now.on (plain_side task.now.side.now) best.old.left best.old.gain (is_some tree) best.new.gain) }
{
    let mut guide = G::of(alloc, task.side)?;
    progress.nodes(best.left, best.gain, None);
    match search(task, &mut guide, marks, MOST_LEVELS, best) {
        Ok(tree) => {
            progress.nodes(best.left, best.gain, guide.bound());
            Ok(tree)
        }
        Err(error) => Err(error),
    }
}

/// Searches a side. None where the nodes that are left don't suffice.
fn search_side<G: Guide>(
    alloc: Global,
    p: &Programme,
    side: &Side,
    on: bool,
    best: &mut Incumbent,
    progress: &dyn Progress,
) -> Result<Option<Tree>, AllocError>
    requires sound { IsSound (plain_programme p.now) best.old }
    ensures sound { OnOk result (IsSound (plain_programme p.now) best.new) }
    ensures grows { OnOk result (best.old.gain ≤ best.new.gain) }
    ensures shown { IfOk result (ShownBelow (plain_side side.now) best.new.gain (all_free (plain_side side.now)) most_levels) }
    ensures searches { IfOk result (λ tree. SearchesSide G.answers (plain_programme p.now) on (plain_side side.now) best.old.left best.old.gain (is_some tree) best.new.gain) }
{
    let mut marks = free_marks(alloc, side)?;
    let by_row = RowWise::of(alloc, side)?;
    let task = Task {
        alloc,
        programme: p,
        side,
        by_row: &by_row,
        on,
    };
    match search_from::<G>(alloc, &task, &mut marks, best, progress) {
        Ok(tree) => Ok(tree),
        Err(error) => Err(error),
    }
}

fn search_on<G: Guide>(
    alloc: Global,
    p: &Programme,
    best: &mut Incumbent,
    progress: &dyn Progress,
) -> Result<OnSide, AllocError>
    requires sound { IsSound (plain_programme p.now) best.old }
    ensures sound { OnOk result (IsSound (plain_programme p.now) best.new) }
    ensures grows { OnOk result (best.old.gain ≤ best.new.gain) }
    ensures shown { IfOk result (ShownOn (option_map plain_side p.now.on) best.new.gain) }
    ensures searches { IfOk result (λ on. SearchesOn G.answers (plain_programme p.now) (plain_programme p.now).on best.old.left best.old.gain (has_ended on) best.new.gain) }
{
    match &p.on {
        None => Ok(OnSide::Absent),
        Some(side) => match search_side::<G>(alloc, p, side, true, best, progress)? {
            Some(tree) => Ok(OnSide::Shown(tree)),
            None => Ok(OnSide::Unfinished),
        },
    }
}

fn first_incumbent(alloc: Global) -> Incumbent
    ensures sound { (p : PlainProgramme) → IsSound p result }
    ensures gain { result.gain ≡ 0 }
{
    Incumbent {
        choice: Choice::nothing(alloc),
        gain: 0,
        left: 0,
    }
}

/// The certificate with the trees of both sides, or the incumbent where one of them is missing.
fn finish_round(p: &Programme, off: Option<Tree>, on: OnSide, best: Incumbent) -> Round
    requires sound { IsSound (plain_programme p.now) best }
    requires off { ShownBelow (plain_side p.now.off) best.gain (all_free (plain_side p.now.off)) most_levels off }
    requires on { ShownOn (option_map plain_side p.now.on) best.gain on }
    ensures round { IsRound (plain_programme p.now) result }
    ensures unfinished { IfUnfinished (λ gain. (gain ≡ best.gain) × ((is_some off && has_ended on) ≡ false)) result }
{
    let _p = p;
    let Some(off) = off else {
        return Round::Unfinished(best);
    };
    match on {
        OnSide::Unfinished => Round::Unfinished(best),
        OnSide::Absent => Round::Certified(Certificate {
            choice: best.choice,
            off: Some(off),
            on: None,
        }),
        OnSide::Shown(on) => Round::Certified(Certificate {
            choice: best.choice,
            off: Some(off),
            on: Some(on),
        }),
    }
}

/// Searches both sides, with at most `most` nodes each.
fn search_round<G: Guide>(
    alloc: Global,
    p: &Programme,
    limit: RoundLimit,
    most: u64,
    mut best: Incumbent,
    progress: &dyn Progress,
) -> Result<Round, AllocError>
    requires sound { IsSound (plain_programme p.now) best }
    ensures round { IfOk result (IsRound (plain_programme p.now)) }
    ensures searches { IfOk result (IfUnfinished (SearchesBoth G.answers (plain_programme p.now) (nodes_within limit.nodes limit.vars (plain_programme p.now) most) limit.needs_off best.gain)) }
{
    let nodes = limit.nodes_of(p, most);
    best.left = nodes;
    let off = search_side::<G>(alloc, p, &p.off, false, &mut best, progress)?;
    if off.is_none() && limit.needs_off {
        return Ok(Round::Unfinished(best));
    }
    best.left = nodes;
    let on = search_on::<G>(alloc, p, &mut best, progress)?;
    Ok(finish_round(p, off, on, best))
}

/// What `certify` finds with a guide.
pub(crate) fn certify_guided<G: Guide>(
    alloc: Global,
    p: &Programme,
    nodes: u64,
    progress: &dyn Progress,
) -> Result<Round, AllocError>
    ensures round { IfOk result (IsRound (plain_programme p.now)) }
    ensures searches { IfOk result (IfUnfinished (FirstSearch G.answers (plain_programme p.now) nodes)) }
{
    let best = first_incumbent(alloc);
    match search_round::<G>(alloc, p, FIRST_ROUND, nodes, best, progress)? {
        Round::Certified(certificate) => Ok(Round::Certified(certificate)),
        Round::Unfinished(best) => search_round::<G>(alloc, p, SECOND_ROUND, nodes, best, progress),
    }
}

/// A certificate that shows its choice to be best, if a search of at most `nodes` nodes on each side comes to its end, and
/// else the best choice that was found. A certificate is within the ranges of its text.
///
/// There are two rounds. The first one, of at most 1,000 nodes of a side, finds a good choice of either side, which then
/// closes most of the other one in the second round, of at most 10,000. Where a side has more than 800 variables, both
/// visit fewer nodes of each.
pub fn certify(alloc: Global, p: &Programme, nodes: u64) -> Result<Round, AllocError>
    ensures { IfOk result (IsRound (plain_programme p.now)) }
{
    certify_guided::<DualBound>(alloc, p, nodes, &NoProgress)
}
