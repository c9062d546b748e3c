ghost use Rattle.std.specs.Prelude.{◌≡◌, ℕ, pos, ◌^◌, ◌<◌, ◌≤◌, ◌≤ℤ◌, ◌+◌, MatchOption, IfOk};
ghost use Rattle.placement_programme.specs.{Programme.{IsFeasible, gain}, Views.{plain_side, plain_programme, plain_choice}};
ghost use Rattle.certificate_checker.specs.{Shows.{all_free}, Spelling.{IsInRange}, Reading.{most_levels}, Views.{plain_certificate}};
ghost use Rattle.branch_bound.specs.{Incumbents.{IsSound}, Entries.{all_vars}, declared.outcomes.Status.TheVariants.{Optimal}, Growing.{CannotGrow}, Searching.{Reports, HasLevels, KeepsIncumbent, IsIncumbent, choice_of}, Solving.{ReportsOn, ReachesFirst, EndsWithin, AreTreesOf, Certifies, IsSearched}, FirstSearch.{KeepsFirst}};
ghost use Rattle.lagrangian_bound.specs.Guiding.{any_answer};

use crate::certifying::trees_of;
use crate::finishing::{choice_from, finish};
use crate::incumbents::Incumbent;
use crate::outcomes::{Found, Outcome, Status, Trees};
use crate::ranking::ranking;
use crate::running::Running;
use crate::searching::{Task, search};
use crate::side_certifying::certify_guided;
use crate::side_visiting::Round;
use crate::starting::{begin, better};
use certificate_checker::{Assignment, Certificate, free_marks};
use lagrangian_bound::{DualBound, Guide};
use placement_programme::{Choice, Programme, Side};
use shelf_io::Progress;
use std::alloc::{AllocError, Global};

/// Searches a side.
fn search_side(
    alloc: Global,
    side: &Side,
    on: bool,
    best: Incumbent,
    left: u64,
    progress: &dyn Progress,
) -> Result<Outcome, AllocError>
    requires { best.gain ≤ 2 ^ 104 }
    ensures grows { IfOk result (λ o. best.gain ≤ o.best.gain) }
    ensures small { IfOk result (λ o. o.best.gain ≤ 2 ^ 104) }
    ensures keeps { IfOk result (λ o. KeepsIncumbent on (plain_side side.now) best o.best) }
    ensures levels { IfOk result (λ o. HasLevels most_levels o.tree) }
    ensures tells { IfOk result (λ o. (start : ℕ) → start ≤ best.gain → Reports (plain_side side.now) start (all_free (plain_side side.now)) o.best.gain left o.left o.tree) }
{
    let ranking = ranking(alloc, side)?;
    let task = Task {
        alloc,
        side,
        on,
        ranking: &ranking,
    };
    let mut root = Assignment::of(alloc, side, free_marks(alloc, side)?)?;
    let mut run = Running { best, left };
    let tree = search(&task, &mut root, 0, &mut run, None, progress)?;
    let Running { best, left } = run;
    Ok(Outcome { best, left, tree })
}

/// Searches the side with overlay, if there is one.
fn search_on(
    alloc: Global,
    p: &Programme,
    best: Incumbent,
    left: u64,
    progress: &dyn Progress,
) -> Result<Outcome, AllocError>
    requires small { best.gain ≤ 2 ^ 104 }
    requires incumbent { IsIncumbent (plain_programme p.now) best }
    ensures grows { IfOk result (λ o. best.gain ≤ o.best.gain) }
    ensures small { IfOk result (λ o. o.best.gain ≤ 2 ^ 104) }
    ensures incumbent { IfOk result (λ o. IsIncumbent (plain_programme p.now) o.best) }
    ensures levels { IfOk result (λ o. HasLevels most_levels o.tree) }
    ensures tells { IfOk result (λ o. (start : ℕ) → start ≤ best.gain → ReportsOn (plain_programme p.now).on start o.best.gain left o.left o.tree) }
{
    match &p.on {
        None => Ok(Outcome {
            best,
            left,
            tree: None,
        }),
        Some(side) => search_side(alloc, side, true, best, left, progress),
    }
}

/// The incumbent with its certificate: trees, or none where the budget of `nodes` ended before.
fn found(
    alloc: Global,
    p: &Programme,
    best: &Incumbent,
    trees: Option<Trees>,
    nodes: u64,
) -> Result<Found, AllocError>
    requires incumbent { IsIncumbent (plain_programme p.now) best.now }
    requires trees { MatchOption trees (EndsWithin (plain_programme p.now) nodes (choice_of (plain_programme p.now) best.now)) (AreTreesOf (plain_programme p.now) best.now.gain) }
    ensures choice { IfOk result (λ f. plain_choice f.choice ≡ choice_of (plain_programme p.now) best.now) }
    ensures same { IfOk result (λ f. plain_choice f.certificate.choice ≡ plain_choice f.choice) }
    ensures range { IfOk result (λ f. IsInRange (plain_certificate f.certificate)) }
    ensures status { IfOk result (λ f. Certifies (plain_programme p.now) nodes (plain_certificate f.certificate) f.status) }
{
    let choice = choice_from(alloc, p, best)?;
    let copy = choice_from(alloc, p, best)?;
    match trees {
        None => Ok(Found {
            choice,
            status: Status::BestFound { nodes },
            certificate: Certificate {
                choice: copy,
                off: None,
                on: None,
            },
        }),
        Some(Trees { off, on }) => Ok(Found {
            choice,
            status: Status::Optimal,
            certificate: Certificate {
                choice: copy,
                off: Some(off),
                on,
            },
        }),
    }
}

/// The best choice that branch and bound in the order of the stated list finds within a budget of nodes.
///
/// It begins with the best of the greedy choices of the sides and of what another search found. It takes the off side
/// before the on side, branches on the free variable of greatest gain, the lowest number on a tie, and takes the child that
/// fixes it to one first. It leaves out what its running best rules out, so what plain branch and bound finds with as many
/// nodes gains no more.
fn search_stated(
    alloc: Global,
    p: &Programme,
    nodes: u64,
    other: &crate::side_incumbents::Incumbent,
    progress: &dyn Progress,
) -> Result<Found, AllocError>
    requires nodes { 1 ≤ nodes }
    requires sound { IsSound (plain_programme p.now) other.now }
    ensures other { IfOk result (λ f. pos other.now.gain ≤ℤ gain (plain_programme p.now) (plain_choice f.choice)) }
    ensures ends { IfOk result (IsSearched (plain_programme p.now) nodes) }
{
    let start = begin(alloc, p)?;
    let first = better(alloc, p, start, other)?;
    let off = search_side(alloc, &p.off, false, first, nodes, progress)?;
    let Outcome { best, left, tree } = off;
    let on = search_on(alloc, p, best, left, progress)?;
    let best = finish(alloc, p, on.best)?;
    let trees = trees_of(alloc, p, tree, on.tree, best.gain)?;
    let answer = found(alloc, p, &best, trees, nodes)?;
    Ok(answer)
}

/// A choice once more.
fn copy_of(alloc: Global, choice: &Choice) -> Result<Choice, AllocError>
    ensures { IfOk result (λ c. plain_choice c ≡ plain_choice choice.now) }
{
    let take = Vec::from_slice(alloc, &choice.take)?;
    Ok(Choice {
        on: choice.on,
        take,
    })
}

/// The choice of a certificate that shows it to be best.
fn shown(alloc: Global, certificate: Certificate) -> Result<Found, AllocError>
    ensures choice { IfOk result (λ f. plain_choice f.choice ≡ (plain_certificate certificate).choice) }
    ensures certificate { IfOk result (λ f. plain_certificate f.certificate ≡ plain_certificate certificate) }
    ensures status { IfOk result (λ f. f.status ≡ Optimal) }
{
    let choice = copy_of(alloc, &certificate.choice)?;
    Ok(Found {
        choice,
        status: Status::Optimal,
        certificate,
    })
}

/// What `solve` finds with a guide of its first search.
fn solve_guided<G: Guide>(
    alloc: Global,
    p: &Programme,
    nodes: u64,
    progress: &dyn Progress,
) -> Result<Found, AllocError>
    requires { 1 ≤ nodes }
    ensures ends { IfOk result (IsSearched (plain_programme p.now) nodes) }
    ensures first { IfOk result (KeepsFirst G.answers (plain_programme p.now) nodes) }
{
    match certify_guided::<G>(alloc, p, nodes, progress)? {
        Round::Certified(certificate) => {
            let start = begin(alloc, p)?;
            let found = shown(alloc, certificate)?;
            Ok(found)
        }
        Round::Unfinished(best) => match search_stated(alloc, p, nodes, &best, progress) {
            Ok(found) => Ok(found),
            Err(error) => Err(error),
        },
    }
}

/// The best choice of a programme that branch and bound finds within a budget of nodes, which is at least 1.
///
/// First it tries a search that a bound guides, in two rounds of at most so many nodes a side. Where that comes to its end,
/// the choice is the best there is. Else it searches in the order of the stated list, with the whole budget and from the
/// best that was found.
///
/// It fails only where no memory was left.
pub fn solve(
    alloc: Global,
    p: &Programme,
    nodes: u64,
    progress: &dyn Progress,
) -> Result<Found, AllocError>
    requires { 1 ≤ nodes }
    ensures feasible { IfOk result (λ f. IsFeasible (plain_programme p.now) (plain_choice f.choice)) }
    ensures gain { IfOk result (λ f. pos 0 ≤ℤ gain (plain_programme p.now) (plain_choice f.choice)) }
    ensures reach { IfOk result (λ f. ReachesFirst (plain_programme p.now) nodes (plain_choice f.choice)) }
    ensures first { IfOk result (KeepsFirst any_answer (plain_programme p.now) nodes) }
    ensures grown { IfOk result (λ f. CannotGrow (plain_programme p.now) (plain_choice f.choice)) }
    ensures same { IfOk result (λ f. plain_choice f.certificate.choice ≡ plain_choice f.choice) }
    ensures range { IfOk result (λ f. IsInRange (plain_certificate f.certificate)) }
    ensures status { IfOk result (λ f. Certifies (plain_programme p.now) nodes (plain_certificate f.certificate) f.status) }
    ensures enough { IfOk result (λ f. 2 ^ (all_vars (plain_programme p.now) + 1) ≤ nodes → f.status ≡ Optimal) }
{
    match solve_guided::<DualBound>(alloc, p, nodes, progress) {
        Ok(found) => Ok(found),
        Err(error) => Err(error),
    }
}
