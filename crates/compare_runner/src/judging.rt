ghost use Rattle.std.specs.Prelude.{◌≡◌, ◌↔◌, List, ◌++◌, ℕ, IsTrue};
ghost use Rattle.compare_runner.specs.Comparing.{AreAlike, IsFirstDifference, Judges};

use crate::comparing::Comparison;
use flat_machine::FlatOutcome;
use object_machine::Outcome;

/// Compares how a program and its result ended, and what each has written.
pub(crate) fn judge(source: Outcome, written: &[u8], other: FlatOutcome, bytes: &[u8]) -> Comparison
    ensures { Judges source written.now other bytes.now result }
{
    let at = first_difference(written, bytes);
    if are_alike(source, written, other, bytes, at) {
        Comparison::Same { outcome: source }
    } else {
        Comparison::Differs { at: at as u64 }
    }
}

/// The first place at which two lists of bytes differ, or else the shorter length.
fn first_difference(first: &[u8], second: &[u8]) -> usize
    ensures { IsFirstDifference first.now second.now result }
{
    let shorter = first.len().min(second.len());
    for i in 0..shorter {
        if first[i] != second[i] {
            return i;
        }
    }
    shorter
}

/// Whether a program and its result, whose bytes differ first at `at`, are alike.
fn are_alike(source: Outcome, written: &[u8], other: FlatOutcome, bytes: &[u8], at: usize) -> bool
    requires { IsFirstDifference written.now bytes.now at }
    ensures { IsTrue result ↔ AreAlike source written.now other bytes.now }
{
    match (source, other) {
        (Outcome::GoesOn, _) => begins(written, bytes, at),
        (Outcome::Exited(code), FlatOutcome::Exited(other_code)) => {
            code == other_code && are_same(written, bytes, at)
        }
        (Outcome::Trapped { .. }, FlatOutcome::Trapped { .. }) => are_same(written, bytes, at),
        _ => false,
    }
}

/// Whether bytes begin with others, from which they differ first at `at`.
fn begins(first: &[u8], bytes: &[u8], at: usize) -> bool
    requires { IsFirstDifference first.now bytes.now at }
    ensures { IsTrue result ↔ ((more : List ℕ) × (bytes.now ≡ first.now ++ more)) }
{
    at == first.len()
}

/// Whether two lists are the same that differ first at `at`.
fn are_same(first: &[u8], second: &[u8], at: usize) -> bool
    requires { IsFirstDifference first.now second.now at }
    ensures { IsTrue result ↔ (second.now ≡ first.now) }
{
    at == first.len() && at == second.len()
}
