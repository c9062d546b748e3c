ghost use Rattle.std.specs.Prelude.{◌≡◌, ℕ, ◌+◌, ◌*◌, ◌^◌, ◌<◌, ◌≤◌, length, slice_index, IfOk};
ghost use Rattle.placement_programme.specs.{Bounds.{AreWeights}, Programme.{weight_in, weight_at}, Sums.{sum_below}, Views.{plain_side}};
ghost use Rattle.certificate_checker.specs.{Fixings.{fixing_of}, Rules.{if_one}, Tallies.{AreLoads}};

use crate::columns::{var_count, weights_of_var};
use crate::fixings::{Fixing, is_one};
use placement_programme::Side;
use std::alloc::{AllocError, Global};

/// Adds the weights of a variable to the loads of the rows.
#[tactic(auto, using(crate::proofs::RowLoads::row_inside))]
pub(crate) fn add_weights(loads: &mut [u64], weights: &[(u32, u64)])
    requires weights { AreWeights (length loads.old) weights.now }
    requires small { (row : ℕ) → slice_index loads.old row ≤ 2 ^ 62 }
    ensures values { (row : ℕ) → slice_index loads.new row ≡ slice_index loads.old row + weight_in weights.now row }
    ensures room { length loads.new ≡ length loads.old }
{
    for entry in weights {
        loads[entry.0 as usize] += entry.1;
    }
}

/// Takes the weights of a variable off the loads of the rows.
#[tactic(auto, using(crate::proofs::RowLoads::row_inside))]
pub(crate) fn subtract_weights(loads: &mut [u64], weights: &[(u32, u64)])
    requires weights { AreWeights (length loads.old) weights.now }
    requires enough { (row : ℕ) → weight_in weights.now row ≤ slice_index loads.old row }
    ensures values { (row : ℕ) → slice_index loads.new row + weight_in weights.now row ≡ slice_index loads.old row }
    ensures room { length loads.new ≡ length loads.old }
{
    for entry in weights {
        loads[entry.0 as usize] -= entry.1;
    }
}

/// Adds to the loads of the rows, which are 0, what the variables weigh that are fixed to one.
fn load_ones(side: &Side, marks: &[Fixing], loads: &mut [u64])
    requires marked { length (plain_side side.now).vars ≤ length marks.now }
    requires room { length loads.old ≡ length (plain_side side.now).rows }
    requires bare { (row : ℕ) → slice_index loads.old row ≡ 0 }
    ensures values { AreLoads (plain_side side.now) marks.now loads.new }
    ensures room { length loads.new ≡ length loads.old }
{
    for number in 0..var_count(side) {
        if is_one(marks, number) {
            add_weights(loads, weights_of_var(side, number));
        }
    }
}

/// The loads of a side's rows, by the variables that are fixed to one.
pub(crate) fn loads_of(alloc: Global, side: &Side, marks: &[Fixing]) -> Result<Vec<u64>, AllocError>
    requires { length (plain_side side.now).vars ≤ length marks.now }
    ensures values { IfOk result (λ loads. AreLoads (plain_side side.now) marks.now loads.items) }
    ensures room { IfOk result (λ loads. length loads.items ≡ length (plain_side side.now).rows) }
{
    let mut loads = vec![in alloc; 0u64; side.rows.len()]?;
    load_ones(side, marks, &mut loads);
    Ok(loads)
}
