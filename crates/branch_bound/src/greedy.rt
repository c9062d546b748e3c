ghost use Rattle.std.specs.Prelude.{◌≡◌, ℕ, pos, ◌<◌, ◌≤◌, ◌≤ℤ◌, ◌↔◌, IsTrue, false, List, Option, length, option_map, IfSome, IfOk};
ghost use Rattle.placement_programme.specs.{Programme.{gain_at, taken_gains, Fits, IsFeasible, gain}, Views.{plain_side, plain_programme, plain_choice}};
ghost use Rattle.certificate_checker.specs.{Shows.{all_free}, Tallies.{AreTallies}};
ghost use Rattle.branch_bound.specs.{Assignments.{taken}, Greatest.{Greatest, GainsMore}, Greedy.{FitsAlone, IsBestAlone, NothingFitsAlone, Tries, Grows, GrowsTo, IsGreedy, choice_on}, Growing.{CannotGrow}};

use crate::exceeding::exceeded;
use crate::ones::ones_of;
use certificate_checker::{Assignment, fixing_of, free_marks, gain_of_var, var_count};
use placement_programme::{Choice, Programme, Side, fits};
use std::alloc::{AllocError, Global};

/// Whether a variable gains more than the best so far, if there is one.
fn gains_more(side: &Side, best: Option<u32>, number: usize) -> bool
    requires number { number < length (plain_side side.now).vars }
    requires best { IfSome best (λ k. k < number) }
    ensures { IsTrue result ↔ GainsMore (gain_at (plain_side side.now).vars) best number }
{
    match best {
        None => true,
        Some(other) => gain_of_var(side, other as usize) < gain_of_var(side, number),
    }
}

/// Whether a variable is feasible alone and gains more than the best so far.
fn is_better_alone(side: &Side, best: Option<u32>, number: usize) -> bool
    requires number { number < length (plain_side side.now).vars }
    requires best { IfSome best (λ k. k < number) }
    ensures { IsTrue result ↔ (FitsAlone (plain_side side.now) number × GainsMore (gain_at (plain_side side.now).vars) best number) }
{
    fits(side, &[number as u32]) && gains_more(side, best, number)
}

/// The variable of greatest gain that is feasible alone, the lowest number on a tie.
fn best_alone(side: &Side) -> Option<u32>
    ensures { Greatest (FitsAlone (plain_side side.now)) (gain_at (plain_side side.now).vars) (length (plain_side side.now).vars) result }
{
    let mut best = None;
    for number in 0..var_count(side) {
        if is_better_alone(side, best, number) {
            best = Some(number as u32);
        }
    }
    best
}

/// Takes a variable too where the choice stays feasible.
fn try_one(side: &Side, node: &mut Assignment, number: usize)
    requires number { number < length (plain_side side.now).vars }
    requires tallies { AreTallies (plain_side side.now) node.old }
    requires fits { Fits (plain_side side.now) (taken (plain_side side.now) node.old.marks.items) }
    ensures tries { Tries (plain_side side.now) node.old.marks.items number node.new.marks.items }
    ensures tallies { AreTallies (plain_side side.now) node.new }
    ensures fits { Fits (plain_side side.now) (taken (plain_side side.now) node.new.marks.items) }
{
    let old = fixing_of(&node.marks, number);
    node.fix_one(side, number);
    match exceeded(node, side, number) {
        None => {}
        Some(_) => node.fix(side, number, old),
    }
}

/// Takes each variable in order where the choice, which is feasible, stays so.
pub(crate) fn grow(side: &Side, node: &mut Assignment)
    requires tallies { AreTallies (plain_side side.now) node.old }
    requires fits { Fits (plain_side side.now) (taken (plain_side side.now) node.old.marks.items) }
    ensures grows { Grows (plain_side side.now) node.old.marks.items (length (plain_side side.now).vars) node.new.marks.items }
    ensures tallies { AreTallies (plain_side side.now) node.new }
    ensures fits { Fits (plain_side side.now) (taken (plain_side side.now) node.new.marks.items) }
{
    for number in 0..var_count(side) {
        try_one(side, node, number);
    }
}

/// Takes a variable, and each other in order where the choice stays feasible; whether that gains at least the fixed cost.
fn grow_from(side: &Side, node: &mut Assignment, first: u32) -> bool
    requires first { IsBestAlone (plain_side side.now) first }
    requires free { node.old.marks.items ≡ all_free (plain_side side.now) }
    requires tallies { AreTallies (plain_side side.now) node.old }
    ensures grows { GrowsTo (plain_side side.now) first node.new.marks.items }
    ensures fits { Fits (plain_side side.now) (taken (plain_side side.now) node.new.marks.items) }
    ensures tallies { AreTallies (plain_side side.now) node.new }
    ensures gains { IsTrue result ↔ ((plain_side side.now).fixed ≤ taken_gains (plain_side side.now) (taken (plain_side side.now) node.new.marks.items)) }
{
    node.fix_one(side, first as usize);
    grow(side, node);
    side.fixed <= node.gains
}

/// The greedy choice of a side; None where it is the empty choice.
pub(crate) fn greedy(alloc: Global, side: &Side) -> Result<Option<Assignment>, AllocError>
    ensures greedy { IfOk result (λ node. IsGreedy (plain_side side.now) (option_map (λ a. taken (plain_side side.now) a.marks.items) node)) }
    ensures fits { IfOk result (λ node. IfSome node (λ a. Fits (plain_side side.now) (taken (plain_side side.now) a.marks.items))) }
    ensures tallies { IfOk result (λ node. IfSome node (AreTallies (plain_side side.now))) }
{
    let first = match best_alone(side) {
        None => return Ok(None),
        Some(first) => first,
    };
    let mut node = Assignment::of(alloc, side, free_marks(alloc, side)?)?;
    if grow_from(side, &mut node, first) {
        Ok(Some(node))
    } else {
        Ok(None)
    }
}

/// The greedy choice of the side without overlay: first the variable of greatest gain that is feasible alone, the lowest
/// number on a tie, and then each other variable in order where the choice stays feasible; the empty choice where nothing
/// fits alone or the gain is below 0.
pub fn fill(alloc: Global, p: &Programme) -> Result<Choice, AllocError>
    ensures greedy { IfOk result (λ c. (take : Option (List ℕ)) × (IsGreedy (plain_side p.now.off) take × (plain_choice c ≡ choice_on false take))) }
    ensures feasible { IfOk result (λ c. IsFeasible (plain_programme p.now) (plain_choice c)) }
    ensures gain { IfOk result (λ c. pos 0 ≤ℤ gain (plain_programme p.now) (plain_choice c)) }
    ensures grown { IfOk result (λ c. CannotGrow (plain_programme p.now) (plain_choice c)) }
{
    match greedy(alloc, &p.off)? {
        None => Ok(Choice::nothing(alloc)),
        Some(node) => {
            let take = ones_of(alloc, &p.off, &node.marks)?;
            Ok(Choice { on: false, take })
        }
    }
}
