ghost use Rattle.std.specs.Prelude.{◌≡◌, ◌*◌, ◌^◌, ◌<◌, ◌≤◌, map, length, slice_index};
ghost use Rattle.placement_programme.specs.{Plain.{plain_var}, Bounds.{AreWeights}, Programme.{gain_at, weights_at, weight_at}, Views.{plain_side}};

use placement_programme::{Side, Var, weight_of};

/// How many variables a side has.
pub fn var_count(side: &Side) -> usize
    ensures value { result ≡ length (plain_side side.now).vars }
    ensures few { result ≤ 4000 }
{
    side.vars.len()
}

/// How many rows a side has.
pub(crate) fn row_count(side: &Side) -> usize
    ensures { result ≡ length (plain_side side.now).rows }
{
    side.rows.len()
}

/// The capacity of a row.
pub(crate) fn capacity_of_row(side: &Side, row: usize) -> u64
    requires { row < length (plain_side side.now).rows }
    ensures value { result ≡ slice_index (plain_side side.now).rows row }
    ensures small { result < 2 ^ 32 }
{
    side.rows[row]
}

fn gain_in(vars: &[Var], number: usize) -> u128
    requires { number < length vars.now }
    ensures { result ≡ gain_at (map plain_var vars.now) number }
{
    vars[number].gain
}

fn weights_in(vars: &[Var], number: usize) -> &[(u32, u64)]
    requires { number < length vars.now }
    ensures { result.now ≡ weights_at (map plain_var vars.now) number }
{
    &vars[number].weights
}

/// The gain of a variable, in the units of the board's prices.
pub fn gain_of_var(side: &Side, number: usize) -> u128
    requires { number < length (plain_side side.now).vars }
    ensures { result ≡ gain_at (plain_side side.now).vars number }
{
    gain_in(&side.vars, number)
}

/// The gain of a variable, times the scale.
pub(crate) fn scaled_gain(side: &Side, scale: u32, number: usize) -> u128
    requires number { number < length (plain_side side.now).vars }
    requires scale { scale ≤ 65536 }
    ensures { result ≡ scale * gain_at (plain_side side.now).vars number }
{
    u128::from(scale) * gain_of_var(side, number)
}

/// The weights of a variable.
pub fn weights_of_var(side: &Side, number: usize) -> &[(u32, u64)]
    requires { number < length (plain_side side.now).vars }
    ensures value { result.now ≡ weights_at (plain_side side.now).vars number }
    ensures rows { AreWeights (length (plain_side side.now).rows) result.now }
    ensures few { length result.now < 2 ^ 17 }
{
    weights_in(&side.vars, number)
}

/// What a variable weighs in a row.
pub(crate) fn weight_in_row(side: &Side, number: usize, row: u32) -> u64
    requires { number < length (plain_side side.now).vars }
    ensures value { result ≡ weight_at (plain_side side.now).vars row number }
    ensures small { result < 2 ^ 32 }
{
    weight_of(weights_of_var(side, number), row)
}
