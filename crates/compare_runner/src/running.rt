ghost use Rattle.std.specs.Prelude.{◌≡◌, ℕ, length, IfOk, MatchBool};
ghost use Rattle.flat_machine.specs.Runs as flat_runs;
ghost use Rattle.flat_machine.specs.{State.{State}, Known.{AreKnown}};
ghost use Rattle.flat_machine.specs.Machine as flat;
ghost use Rattle.object_machine.specs.{Program.{Program}, Machine.{state_of, IsProgram}, Runs.{HasEnded}};
ghost use Rattle.compare_runner.specs.Comparing.{RunsUntil, SourceEnds, HasCaughtUp, IsEnough, IsFar};

use flat_machine::{Flat, FlatOutcome, Known};
use object_machine::{Outcome, Source};
use paged_store::ByteStore;
use rv32im::one_instruction;
use std::alloc::AllocError;

/// Takes `n` steps of a program, or fewer where it ends. Tells how many it took.
///
/// It fails only where no memory was left; the contract says nothing of the machine then.
pub(crate) fn run_source(source: &mut Source, n: u64) -> Result<u64, AllocError>
    ensures { IfOk result (λ k. (p : Program) → IsProgram p source.old → IsProgram p source.new × SourceEnds p n (state_of p source.old) k (state_of p source.new)) }
{
    one_instruction();
    for k in 0..n {
        if has_ended(source.outcome()) {
            return Ok(k);
        }
        source.step_in::<2>()?;
    }
    Ok(n)
}

/// Takes steps of a machine that goes on, until it is run far enough beside a program that came to an outcome
/// with so many bytes written, or `most` steps were taken. Tells what has become of the machine.
///
/// It fails only where no memory was left; the contract says nothing of the machine then.
pub(crate) fn run_result<S: ByteStore>(
    machine: &mut Flat<S>,
    source: Outcome,
    written: usize,
    most: u128,
) -> Result<FlatOutcome, AllocError>
    requires { (flat.state_of S.byte_at machine.old).outcome ≡ FlatOutcome.GoesOn }
    ensures run { IfOk result (λ _. (m : ℕ) × RunsUntil State flat_runs.Steps (IsFar source written) most (flat.state_of S.byte_at machine.old) m (flat.state_of S.byte_at machine.new)) }
    ensures outcome { IfOk result (λ outcome. outcome ≡ (flat.state_of S.byte_at machine.new).outcome) }
{
    let mut known = machine.nothing_known()?;
    step_result(machine, source, written, most, &mut known)
}

/// The same, over a table of the instructions that the machine decoded so far.
fn step_result<S: ByteStore>(
    machine: &mut Flat<S>,
    source: Outcome,
    written: usize,
    most: u128,
    known: &mut [Known],
) -> Result<FlatOutcome, AllocError>
    requires len { length known.old ≡ 4096 }
    requires known { let s = flat.state_of S.byte_at machine.old in AreKnown s.map s.hart.mem known.old }
    ensures run { IfOk result (λ _. (m : ℕ) × RunsUntil State flat_runs.Steps (IsFar source written) most (flat.state_of S.byte_at machine.old) m (flat.state_of S.byte_at machine.new)) }
    ensures outcome { IfOk result (λ outcome. outcome ≡ (flat.state_of S.byte_at machine.new).outcome) }
{
    one_instruction();
    for _ in 0..most {
        if is_enough(source, written, machine.outcome(), machine.output().len()) {
            break;
        }
        machine.step_telling(known)?;
    }
    Ok(machine.outcome())
}

/// Whether a program goes on no more.
fn has_ended(outcome: Outcome) -> bool
    ensures { MatchBool result (HasEnded outcome) (outcome ≡ Outcome.GoesOn) }
{
    match outcome {
        Outcome::GoesOn => false,
        Outcome::Exited(_) | Outcome::Trapped { .. } | Outcome::AddressFault { .. } => true,
    }
}

/// Whether a result is run far enough that has written `n` bytes, beside a program that has `written` so many.
fn is_enough(source: Outcome, written: usize, other: FlatOutcome, n: usize) -> bool
    ensures { MatchBool result (IsEnough source written other n) (IsEnough source written other n → ⊥) }
{
    match other {
        FlatOutcome::GoesOn => has_caught_up(source, written, n),
        FlatOutcome::Exited(_) | FlatOutcome::Trapped { .. } => true,
    }
}

/// Whether `n` bytes are as many as a program has `written` that goes on.
fn has_caught_up(source: Outcome, written: usize, n: usize) -> bool
    ensures { MatchBool result (HasCaughtUp source written n) (HasCaughtUp source written n → ⊥) }
{
    match source {
        Outcome::GoesOn => written <= n,
        Outcome::Exited(_) | Outcome::Trapped { .. } | Outcome::AddressFault { .. } => false,
    }
}
