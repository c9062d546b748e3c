ghost use Rattle.std.specs.Prelude.{◌≡◌, ℕ, ◌+◌, ◌^◌, ◌<◌, ◌≤◌, length, Some, None, MatchOption, IsSomeAnd, IfOk};
ghost use Rattle.placement_programme.specs.{Plain.{PlainProgramme}, Bounds.{AscendWithin}, Programme.{side_for, taken_gains, Fits}, Views.{plain_side, plain_programme, plain_choice}};
ghost use Rattle.branch_bound.specs.{Assignments.{taken}, Greedy.{IsStart}, Growing.{CannotGrow}, Searching.{IsIncumbent, choice_of}};

use crate::greedy::grow;
use crate::incumbents::Incumbent;
use crate::ones::ones_of;
use crate::starting::empty_incumbent;
use certificate_checker::Assignment;
use placement_programme::{Choice, Programme, Side};
use std::alloc::{AllocError, Global};

/// A side of a programme, if it is there.
pub(crate) fn side_of(p: &Programme, on: bool) -> Option<&Side>
    ensures { MatchOption result (side_for (plain_programme p.now) on ≡ None) (λ side. side_for (plain_programme p.now) on ≡ Some (plain_side side.now)) }
{
    if !on {
        return Some(&p.off);
    }
    match &p.on {
        None => None,
        Some(side) => Some(side),
    }
}

/// An incumbent that gains something, with each variable taken besides where it stays feasible.
fn grown(alloc: Global, side: &Side, best: Incumbent) -> Result<Incumbent, AllocError>
    requires marked { length (plain_side side.now).vars ≤ length best.marks.items }
    requires fits { Fits (plain_side side.now) (taken (plain_side side.now) best.marks.items) }
    requires sum { taken_gains (plain_side side.now) (taken (plain_side side.now) best.marks.items) ≡ best.gain + (plain_side side.now).fixed }
    requires some { 0 < best.gain }
    ensures grows { IfOk result (λ more. best.gain ≤ more.gain) }
    ensures small { IfOk result (λ more. more.gain ≤ 2 ^ 104) }
    ensures incumbent { IfOk result (λ more. (p : PlainProgramme) → side_for p best.on ≡ Some (plain_side side.now) → IsIncumbent p more) }
    ensures cannot { IfOk result (λ more. (p : PlainProgramme) → side_for p best.on ≡ Some (plain_side side.now) → CannotGrow p (choice_of p more)) }
{
    let mut node = Assignment::of(alloc, side, best.marks)?;
    grow(side, &mut node);
    let gain = node.gains - side.fixed;
    Ok(Incumbent {
        on: best.on,
        gain,
        marks: node.marks,
    })
}

/// An incumbent that gains no less than one, and to which no variable can be added so that it stays feasible and gains more.
pub(crate) fn finish(alloc: Global, p: &Programme, best: Incumbent) -> Result<Incumbent, AllocError>
    requires incumbent { IsIncumbent (plain_programme p.now) best }
    requires small { best.gain ≤ 2 ^ 104 }
    requires start { (start : ℕ) × (IsStart (plain_programme p.now) start × (start ≤ best.gain)) }
    ensures grows { IfOk result (λ more. best.gain ≤ more.gain) }
    ensures small { IfOk result (λ more. more.gain ≤ 2 ^ 104) }
    ensures incumbent { IfOk result (IsIncumbent (plain_programme p.now)) }
    ensures cannot { IfOk result (λ more. CannotGrow (plain_programme p.now) (choice_of (plain_programme p.now) more)) }
{
    if best.gain == 0 {
        return empty_incumbent(alloc, p);
    }
    match side_of(p, best.on) {
        None => Ok(best),
        Some(side) => grown(alloc, side, best),
    }
}

/// What an incumbent takes of a side.
fn choice_on_side(alloc: Global, side: &Side, best: &Incumbent) -> Result<Choice, AllocError>
    requires marked { length (plain_side side.now).vars ≤ length best.now.marks.items }
    ensures choice { IfOk result (λ c. (p : PlainProgramme) → side_for p best.now.on ≡ Some (plain_side side.now) → plain_choice c ≡ choice_of p best.now) }
    ensures range { IfOk result (λ c. AscendWithin 0 4000 c.take.items) }
{
    let take = ones_of(alloc, side, &best.marks)?;
    Ok(Choice { on: best.on, take })
}

/// The choice of an incumbent.
pub(crate) fn choice_from(
    alloc: Global,
    p: &Programme,
    best: &Incumbent,
) -> Result<Choice, AllocError>
    requires { IsIncumbent (plain_programme p.now) best.now }
    ensures choice { IfOk result (λ c. plain_choice c ≡ choice_of (plain_programme p.now) best.now) }
    ensures range { IfOk result (λ c. AscendWithin 0 4000 c.take.items) }
{
    match side_of(p, best.on) {
        None => Ok(Choice {
            on: best.on,
            take: Vec::new(alloc),
        }),
        Some(side) => choice_on_side(alloc, side, best),
    }
}
