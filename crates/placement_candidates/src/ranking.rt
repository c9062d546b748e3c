ghost use Rattle.std.specs.Prelude.{◌≡◌, ℕ, Bool, ◌<◌, ◌≤◌, nat_lt, map, length, IfOk};
ghost use Rattle.std.specs.List.{count_by};
ghost use Rattle.list_checks.specs.Sorted.{IsSorted, count_below};
ghost use Rattle.energy_model.specs.Copied.{values};
ghost use Rattle.placement_candidates.specs.{FullVars.{plain_full_var}, Selected.{worth_at}, Ranking.{least_of, IsLeast, IsCut}};

use crate::selecting::{MOST_VARS, worth_at};
use crate::variables::FullVar;
use std::alloc::{AllocError, Global};

/// Where the variables are cut off that save least.
#[derive(Clone, Copy)]
pub(crate) struct Cut {
    /// What the last variable saves that is kept.
    pub(crate) least: u128,
    /// How many save more.
    pub(crate) above: usize,
}

/// What each variable saves.
fn worths(alloc: Global, vars: &[FullVar]) -> Result<Vec<u128>, AllocError>
    ensures { IfOk result (λ v. v.items ≡ values (worth_at (map plain_full_var vars.now)) (length vars.now)) }
{
    let mut worths = Vec::new(alloc);
    for k in 0..vars.len() {
        worths.push(worth_at(vars, k))?;
    }
    Ok(worths)
}

fn arrange(worths: &mut Vec<u128>)
    ensures sorted { IsSorted worths.new.items }
    ensures counts { (test : ℕ → Bool) → count_by test worths.new.items ≡ count_by test worths.old.items }
    ensures same { length worths.new.items ≡ length worths.old.items }
{
    worths.sort_unstable();
}

/// The least of the 4,000 greatest numbers, and 0 where there are no more.
fn least_of(sorted: &[u128]) -> u128
    ensures { result ≡ least_of sorted.now }
{
    if sorted.len() < MOST_VARS {
        0
    } else {
        sorted[sorted.len() - MOST_VARS]
    }
}

/// How many variables save more than this.
fn count_above(vars: &[FullVar], least: u128) -> usize
    ensures sum { result ≡ count_below (λ j. nat_lt least (worth_at (map plain_full_var vars.now) j)) (length vars.now) }
    ensures few { result ≤ length vars.now }
{
    let mut count = 0;
    for k in 0..vars.len() {
        if worth_at(vars, k) > least {
            count += 1;
        }
    }
    count
}

/// What the last of the variables saves that are kept.
fn least_kept(alloc: Global, vars: &[FullVar]) -> Result<u128, AllocError>
    ensures { IfOk result (λ least. IsLeast (map plain_full_var vars.now) least) }
{
    let mut worths = worths(alloc, vars)?;
    arrange(&mut worths);
    Ok(least_of(&worths))
}

/// Where the variables are cut off.
pub(crate) fn find_cut(alloc: Global, vars: &[FullVar]) -> Result<Cut, AllocError>
    ensures { IfOk result (λ cut. IsCut (map plain_full_var vars.now) cut) }
{
    let least = least_kept(alloc, vars)?;
    Ok(Cut {
        least,
        above: count_above(vars, least),
    })
}
