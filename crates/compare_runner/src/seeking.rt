//! Steps of the flat machine up to where it is looked for.
ghost use Rattle.std.specs.Prelude.{◌≡◌, ◌+◌, ◌<◌, ◌≤◌, ◌^◌, List, length, false, IfOk, MatchBool, MatchOption};
ghost use Rattle.flat_machine.specs.{Mapping.{in_range}, Machine.{state_of}, Runs.{HasEnded}};
ghost use Rattle.compare_runner.specs.{Comings.{StopsFirst, StopsNever}, Seeking.{IsOrdered, IsThere, Finds, Comes, StopsAfter, StopsNotBelow, StartsWithin, CameBy}};

use crate::forms::{Sought, is_at_form};
use board_config::Range;
use flat_machine::{Flat, FlatAccess, FlatEvent, FlatOutcome};
use paged_store::ByteStore;
use rv32im::one_instruction;
use std::alloc::AllocError;

/// Where control of a result is looked for.
#[derive(Clone, Copy)]
pub(crate) enum Next<'a> {
    /// At a form of a unit.
    Form(Sought<'a>),
    /// At the end: the machine goes on no more.
    End,
}

/// What the last step of a machine tells.
#[derive(Clone, Copy)]
pub(crate) struct LastStep {
    /// Whether its word was fetched in the patch range.
    pub(crate) patched: bool,
    /// What has become of the machine.
    pub(crate) outcome: FlatOutcome,
}

/// How the machine came to where it was looked for.
#[derive(Clone, Copy)]
pub(crate) struct Came {
    /// In how many steps.
    pub(crate) steps: u64,
    /// The access of the first one.
    pub(crate) access: Option<FlatAccess>,
}

/// Whether an address lies in a range.
fn is_within(range: &Range, at: u32) -> bool
    ensures { result ≡ in_range range.now at }
{
    range.base <= at && u64::from(at) < u64::from(range.base) + u64::from(range.size)
}

/// What a step tells, on a board with this patch range.
fn last_step(patch: &Range, event: &FlatEvent) -> LastStep
    ensures { result ≡ record { patched = in_range patch.now event.now.at; outcome = event.now.outcome } }
{
    LastStep {
        patched: is_within(patch, event.at),
        outcome: event.outcome,
    }
}

/// Whether a machine goes on no more.
fn has_ended(outcome: FlatOutcome) -> bool
    ensures { MatchBool result (HasEnded outcome) (HasEnded outcome → ⊥) }
{
    match outcome {
        FlatOutcome::GoesOn => false,
        FlatOutcome::Exited(_) | FlatOutcome::Trapped { .. } => true,
    }
}

/// Whether a machine is where it is looked for.
fn is_there(next: &Next, last: LastStep, pc: u32) -> bool
    requires { IsOrdered next.now }
    ensures { MatchBool result (IsThere next.now last.patched last.outcome pc) (IsThere next.now last.patched last.outcome pc → ⊥) }
{
    match *next {
        Next::Form(sought) => is_at_form(&sought, last.patched, pc),
        Next::End => has_ended(last.outcome),
    }
}

/// Takes steps until the machine is where it is looked for. Tells how many it took: fewer than `bound`, or none.
///
/// It fails only where no memory was left; the contract says nothing of the machine then.
fn seek<S: ByteStore>(
    flat: &mut Flat<S>,
    next: &Next,
    patch: &Range,
    before: LastStep,
    bound: u64,
) -> Result<Option<u64>, AllocError>
    requires ordered { IsOrdered next.now }
    requires outcome { before.outcome ≡ (state_of S.byte_at flat.old).outcome }
    ensures { IfOk result (λ r. MatchOption r
        (StopsNotBelow (Finds patch.now next.now before.patched) bound (state_of S.byte_at flat.old))
        (λ k. (k < bound) × StopsAfter (Finds patch.now next.now before.patched) (state_of S.byte_at flat.old) k (state_of S.byte_at flat.new))) }
{
    one_instruction();
    let mut last = before;
    for k in 0..bound {
        if is_there(next, last, flat.at()) {
            return Ok(Some(k));
        }
        let event = flat.step()?;
        last = last_step(patch, &event);
    }
    Ok(None)
}

/// Takes the steps that a machine needs from its start to where it is looked for, and tells how many these are.
///
/// It fails only where no memory was left; the contract says nothing of the machine then.
pub(crate) fn seek_start<S: ByteStore>(
    flat: &mut Flat<S>,
    next: &Next,
    patch: &Range,
    most: u64,
) -> Result<u64, AllocError>
    requires ordered { IsOrdered next.now }
    requires going { (state_of S.byte_at flat.old).outcome ≡ FlatOutcome.GoesOn }
    requires small { most < 2 ^ 63 }
    requires starts { StartsWithin (Finds patch.now next.now false) most (state_of S.byte_at flat.old) }
    ensures { IfOk result (λ k. StopsAfter (Finds patch.now next.now false) (state_of S.byte_at flat.old) k (state_of S.byte_at flat.new)) }
{
    let before = LastStep {
        patched: false,
        outcome: FlatOutcome::GoesOn,
    };
    let found = seek(flat, next, patch, before, most + 1)?;
    Ok(found.unwrap())
}

/// Takes one step, and more until the machine is where it is looked for, at most `most`. None where it doesn't come there.
///
/// It fails only where no memory was left; the contract says nothing of the machine then.
pub(crate) fn seek_next<S: ByteStore>(
    flat: &mut Flat<S>,
    next: &Next,
    patch: &Range,
    most: u64,
) -> Result<Option<Came>, AllocError>
    requires ordered { IsOrdered next.now }
    requires small { most < 2 ^ 63 }
    ensures { IfOk result (λ r. MatchOption r
        (StopsNever (Comes patch.now next.now) most (state_of S.byte_at flat.old))
        (λ came. CameBy (Comes patch.now next.now) most (state_of S.byte_at flat.old) came (state_of S.byte_at flat.new))) }
{
    one_instruction();
    let first = flat.step()?;
    match seek(flat, next, patch, last_step(patch, &first), most)? {
        Some(more) => Ok(Some(Came {
            steps: more + 1,
            access: first.access,
        })),
        None => Ok(None),
    }
}
