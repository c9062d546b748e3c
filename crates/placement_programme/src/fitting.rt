ghost use Rattle.std.specs.Prelude.{◌≡◌, ℕ, ◌+◌, ◌^◌, ◌<◌, ◌≤◌, ◌↔◌, IsTrue, true, map, length, replicate, slice_index};
ghost use Rattle.std.specs.List.{All};
ghost use Rattle.placement_programme.specs.{Plain.{plain_var}, Bounds.{AscendWithin, AreWeights}, Views.{plain_side, plain_programme, plain_choice}, Programme.{weight_in, load_in, Fits, FitsIn, IsFeasible}};

use crate::choices::Choice;
use crate::limits::ascend_below;
use crate::rows::{count_before, value_in};
use crate::sides::{Programme, Side};
use crate::variables::Var;

/// The weight in a row, 0 where the weights don't name it. The time grows with the logarithm of their number.
pub fn weight_of(weights: &[(u32, u64)], row: u32) -> u64
    requires { (count : ℕ) × AreWeights count weights.now }
    ensures value { result ≡ weight_in weights.now row }
    ensures small { result < 2 ^ 32 }
{
    value_in(weights, row)
}

/// How many rows are summed at a time. Their sums stand in an array, so that no memory is taken.
const ROWS_AT_ONCE: usize = 4096;

/// Adds weights to the loads of rows, of which the first is `low`.
fn add_weights(loads: &mut [u64], low: u32, weights: &[(u32, u64)])
    requires weights { (count : ℕ) × AreWeights count weights.now }
    requires rows { low + length loads.old < 2 ^ 32 }
    requires room { (k : ℕ) → k < length loads.old → slice_index loads.old k < 2 ^ 63 }
    ensures len { length loads.new ≡ length loads.old }
    ensures sums { (k : ℕ) → k < length loads.old → slice_index loads.new k ≡ slice_index loads.old k + weight_in weights.now (low + k) }
{
    for i in count_before(weights, low)..count_before(weights, low + loads.len() as u32) {
        loads[(weights[i].0 - low) as usize] += weights[i].1;
    }
}

/// Loads of nothing.
fn no_loads() -> [u64; ROWS_AT_ONCE]
    ensures { result ≡ replicate 4096 0 }
{
    [0; ROWS_AT_ONCE]
}

/// The loads of the taken variables in some rows, of which the first is `low`.
fn loads_from(vars: &[Var], take: &[u32], low: u32) -> [u64; ROWS_AT_ONCE]
    requires numbers { AscendWithin 0 (length vars.now) take.now }
    requires few { length vars.now ≤ 4000 }
    requires weights { (count : ℕ) × All (λ v. AreWeights count v.weights) (map plain_var vars.now) }
    requires rows { low + 4096 < 2 ^ 32 }
    ensures { (k : ℕ) → k < 4096 → slice_index result k ≡ load_in (map plain_var vars.now) take.now (low + k) }
{
    let mut loads = no_loads();
    for number in take {
        let var = &vars[*number as usize];
        add_weights(&mut loads, low, &var.weights);
    }
    loads
}

/// Whether weights name no row from `low` on and below `high`.
fn names_none(weights: &[(u32, u64)], low: u32, high: u32) -> bool
    requires { (count : ℕ) × AreWeights count weights.now }
    ensures { result ≡ true → (row : ℕ) → low ≤ row → row < high → weight_in weights.now row ≡ 0 }
{
    count_before(weights, low) == count_before(weights, high)
}

/// Whether the taken variables weigh nothing in the rows from `low` on and below `high`.
fn weigh_nothing(vars: &[Var], take: &[u32], low: u32, high: u32) -> bool
    requires numbers { AscendWithin 0 (length vars.now) take.now }
    requires weights { (count : ℕ) × All (λ v. AreWeights count v.weights) (map plain_var vars.now) }
    ensures { result ≡ true → (row : ℕ) → low ≤ row → row < high → load_in (map plain_var vars.now) take.now row ≡ 0 }
{
    for number in take {
        let var = &vars[*number as usize];
        if !names_none(&var.weights, low, high) {
            return false;
        }
    }
    true
}

/// Whether each load is at most the capacity of its row.
fn are_within(loads: &[u64], rows: &[u64]) -> bool
    requires { length rows.now ≤ length loads.now }
    ensures { IsTrue result ↔ ((k : ℕ) → k < length rows.now → slice_index loads.now k ≤ slice_index rows.now k) }
{
    for k in 0..rows.len() {
        if loads[k] > rows[k] {
            return false;
        }
    }
    true
}

/// Whether the taken variables exceed none of these rows, of which the first is `low`.
fn part_holds(vars: &[Var], rows: &[u64], take: &[u32], low: u32) -> bool
    requires numbers { AscendWithin 0 (length vars.now) take.now }
    requires few { length vars.now ≤ 4000 }
    requires weights { (count : ℕ) × All (λ v. AreWeights count v.weights) (map plain_var vars.now) }
    requires small { length rows.now ≤ 4096 }
    requires rows { low + 4096 < 2 ^ 32 }
    ensures { IsTrue result ↔ ((k : ℕ) → k < length rows.now → load_in (map plain_var vars.now) take.now (low + k) ≤ slice_index rows.now k) }
{
    if weigh_nothing(vars, take, low, low + rows.len() as u32) {
        return true;
    }
    are_within(&loads_from(vars, take, low), rows)
}

/// Whether the taken variables exceed no row. The time grows with the number of their weights, and for each 4,096 rows
/// with that of the variables.
fn all_hold(vars: &[Var], rows: &[u64], take: &[u32]) -> bool
    requires numbers { AscendWithin 0 (length vars.now) take.now }
    requires few { length vars.now ≤ 4000 }
    requires few_rows { length rows.now < 2 ^ 17 }
    requires weights { All (λ v. AreWeights (length rows.now) v.weights) (map plain_var vars.now) }
    ensures { IsTrue result ↔ ((row : ℕ) → row < length rows.now → load_in (map plain_var vars.now) take.now row ≤ slice_index rows.now row) }
{
    for part in 0..rows.len().div_ceil(ROWS_AT_ONCE) {
        let low = part * ROWS_AT_ONCE;
        let high = rows.len().min(low + ROWS_AT_ONCE);
        if !part_holds(vars, &rows[low..high], take, low as u32) {
            return false;
        }
    }
    true
}

/// Whether taken variables fit: their numbers ascend and are in range, and no row is exceeded.
fn fits_in(vars: &[Var], rows: &[u64], take: &[u32]) -> bool
    requires few { length vars.now ≤ 4000 }
    requires few_rows { length rows.now < 2 ^ 17 }
    requires all { All (λ v. AreWeights (length rows.now) v.weights) (map plain_var vars.now) }
    ensures { IsTrue result ↔ FitsIn (map plain_var vars.now) rows.now take.now }
{
    if !ascend_below(take, vars.len()) {
        return false;
    }
    all_hold(vars, rows, take)
}

/// Whether taken variables fit a side: their numbers ascend and are in range, and no row is exceeded.
pub fn fits(side: &Side, take: &[u32]) -> bool
    ensures { IsTrue result ↔ Fits (plain_side side.now) take.now }
{
    fits_in(&side.vars, &side.rows, take)
}

/// Whether a choice is feasible: the programme has its side, its numbers ascend and are in range, and it exceeds no row.
pub fn feasible(p: &Programme, c: &Choice) -> bool
    ensures { IsTrue result ↔ IsFeasible (plain_programme p.now) (plain_choice c.now) }
{
    if !c.on {
        return fits(&p.off, &c.take);
    }
    match &p.on {
        Some(side) => fits(side, &c.take),
        None => false,
    }
}
