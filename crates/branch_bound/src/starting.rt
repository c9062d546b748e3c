ghost use Rattle.std.specs.Prelude.{◌≡◌, ℕ, ◌^◌, ◌≤◌, max, length, Some, false, true, IfOk, OnOk};
ghost use Rattle.placement_programme.specs.{Bounds.{AscendWithin}, Programme.{nothing}, Views.{plain_side, plain_programme}};
ghost use Rattle.branch_bound.specs.{Greedy.{GreedyGains, IsStart}, Incumbents.{IsSound}, Assignments.{AreMarksOf}, Searching.{IsIncumbent, KeepsIncumbent, choice_of}};

use crate::finishing::side_of;
use crate::greedy::greedy;
use crate::improving::improve;
use crate::incumbents::Incumbent;
use certificate_checker::{Fixing, free_marks};
use placement_programme::{Programme, Side};
use std::alloc::{AllocError, Global};

/// The empty choice as incumbent.
pub(crate) fn empty_incumbent(alloc: Global, p: &Programme) -> Result<Incumbent, AllocError>
    ensures empty { IfOk result (λ best. choice_of (plain_programme p.now) best ≡ nothing) }
    ensures gain { IfOk result (λ best. best.gain ≡ 0) }
    ensures incumbent { IfOk result (IsIncumbent (plain_programme p.now)) }
{
    let marks = free_marks(alloc, &p.off)?;
    Ok(Incumbent {
        on: false,
        gain: 0,
        marks,
    })
}

/// Takes the greedy choice of a side for the incumbent where it gains more.
fn try_greedy(alloc: Global, side: &Side, on: bool, best: &mut Incumbent) -> Result<(), AllocError>
    requires { best.old.gain ≤ 2 ^ 104 }
    ensures gains { OnOk result ((gains : ℕ) × (GreedyGains (Some (plain_side side.now)) gains × (best.new.gain ≡ max best.old.gain gains))) }
    ensures small { best.new.gain ≤ 2 ^ 104 }
    ensures keeps { OnOk result (KeepsIncumbent on (plain_side side.now) best.old best.new) }
{
    match greedy(alloc, side)? {
        None => Ok(()),
        Some(node) => improve(alloc, side, on, &node, best),
    }
}

/// The better of the greedy choices of a programme's sides.
pub(crate) fn begin(alloc: Global, p: &Programme) -> Result<Incumbent, AllocError>
    ensures start { IfOk result (λ best. IsStart (plain_programme p.now) best.gain) }
    ensures small { IfOk result (λ best. best.gain ≤ 2 ^ 104) }
    ensures incumbent { IfOk result (IsIncumbent (plain_programme p.now)) }
{
    let mut best = empty_incumbent(alloc, p)?;
    try_greedy(alloc, &p.off, false, &mut best)?;
    match &p.on {
        None => Ok(best),
        Some(side) => {
            try_greedy(alloc, side, true, &mut best)?;
            Ok(best)
        }
    }
}

/// Marks of which those are one whose variables are taken, and the others are free.
fn marks_of(alloc: Global, side: &Side, take: &[u32]) -> Result<Vec<Fixing>, AllocError>
    requires { AscendWithin 0 (length (plain_side side.now).vars) take.now }
    ensures { IfOk result (λ marks. AreMarksOf (plain_side side.now) take.now marks.items) }
{
    let mut marks = free_marks(alloc, side)?;
    for number in take {
        marks[*number as usize] = Fixing::One;
    }
    Ok(marks)
}

/// The better one of an incumbent and of what another search found; the incumbent where they gain as much.
pub(crate) fn better(
    alloc: Global,
    p: &Programme,
    start: Incumbent,
    found: &crate::side_incumbents::Incumbent,
) -> Result<Incumbent, AllocError>
    requires incumbent { IsIncumbent (plain_programme p.now) start }
    requires small { start.gain ≤ 2 ^ 104 }
    requires sound { IsSound (plain_programme p.now) found.now }
    ensures grows { IfOk result (λ best. start.gain ≤ best.gain) }
    ensures reaches { IfOk result (λ best. found.now.gain ≤ best.gain) }
    ensures small { IfOk result (λ best. best.gain ≤ 2 ^ 104) }
    ensures incumbent { IfOk result (IsIncumbent (plain_programme p.now)) }
{
    if found.gain <= start.gain {
        return Ok(start);
    }
    match side_of(p, found.choice.on) {
        None => Ok(start),
        Some(side) => Ok(Incumbent {
            on: found.choice.on,
            gain: found.gain,
            marks: marks_of(alloc, side, &found.choice.take)?,
        }),
    }
}
