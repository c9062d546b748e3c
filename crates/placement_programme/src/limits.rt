ghost use Rattle.std.specs.Prelude.{◌≡◌, ℕ, ◌^◌, ◌<◌, ◌≤◌, ◌↔◌, IsTrue, map, length};
ghost use Rattle.std.specs.List.{All, sum_by};
ghost use Rattle.placement_programme.specs.{Plain.{plain_var}, Bounds.{AscendWithin, AreWeights, IsWithinBounds, RowsWithin, row_of, value_of}};

use crate::rows::rows_ascend;
use crate::variables::Var;

/// Energies and sums of gains stay below this.
const ENERGY_LIMIT: u128 = 1 << 104;
/// Capacities and weights do below this.
const WEIGHT_LIMIT: u64 = 1 << 32;

const ROW_LIMIT: usize = 1 << 17;

const MOST_VARS: usize = 4000;

/// Whether numbers ascend, each once, below `count`.
pub(crate) fn ascend_below(numbers: &[u32], count: usize) -> bool
    ensures { IsTrue result ↔ AscendWithin 0 count numbers.now }
{
    let mut least = 0;
    for number in numbers {
        let place = *number as usize;
        if place < least || place >= count {
            return false;
        }
        least = place + 1;
    }
    true
}

/// Whether these are weights in `count` rows.
fn are_weights(weights: &[(u32, u64)], count: usize) -> bool
    ensures { IsTrue result ↔ AreWeights count weights.now }
{
    rows_ascend(weights, count) && weights.iter().all(|entry| entry.1 < WEIGHT_LIMIT)
}

/// Whether each capacity is below the limit.
fn capacities_fit(rows: &[u64]) -> bool
    ensures { IsTrue result ↔ All (λ c. c < 2 ^ 32) rows.now }
{
    rows.iter().all(|capacity| *capacity < WEIGHT_LIMIT)
}

/// Whether the weights of each variable are weights in `count` rows.
fn all_weigh(vars: &[Var], count: usize) -> bool
    ensures { IsTrue result ↔ All (λ v. AreWeights count v.weights.items) vars.now }
{
    vars.iter().all(|var| are_weights(&var.weights, count))
}

/// Whether the weights of each variable, as a plain one, are weights in `count` rows.
fn weights_fit(vars: &[Var], count: usize) -> bool
    ensures { IsTrue result ↔ All (λ v. AreWeights count v.weights) (map plain_var vars.now) }
{
    all_weigh(vars, count)
}

/// Whether the gains sum up to less than the limit.
fn gains_fit(vars: &[Var]) -> bool
    ensures { IsTrue result ↔ (sum_by (λ v. v.gain) (map plain_var vars.now) < 2 ^ 104) }
{
    let mut left = ENERGY_LIMIT - 1;
    for var in vars {
        if var.gain > left {
            return false;
        }
        left -= var.gain;
    }
    true
}

/// Whether a side of these parts is within the bounds.
pub(crate) fn is_within_bounds(fixed: u128, rows: &[u64], vars: &[Var]) -> bool
    ensures { IsTrue result ↔ IsWithinBounds record { fixed = fixed; rows = rows.now; vars = map plain_var vars.now } }
{
    let few = fixed < ENERGY_LIMIT && vars.len() <= MOST_VARS && rows.len() < ROW_LIMIT;
    few && gains_fit(vars) && capacities_fit(rows) && weights_fit(vars, rows.len())
}
