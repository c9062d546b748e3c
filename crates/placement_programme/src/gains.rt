ghost use Rattle.std.specs.Prelude.{◌≡◌, ◌^◌, ◌<◌, ◌-ℤ◌, ◌≤ℤ◌, pos, map, length};
ghost use Rattle.std.specs.List.{sum_by};
ghost use Rattle.placement_programme.specs.{Plain.{plain_var}, Bounds.{AscendWithin}, Views.{plain_side, plain_programme, plain_choice}, Programme.{gain_at, Fits, net_gain, IsFeasible, gain, energy}};

use crate::choices::Choice;
use crate::sides::{Programme, Side};
use crate::variables::Var;

/// The gains of the taken variables, summed.
fn sum_of_gains(vars: &[Var], take: &[u32]) -> u128
    requires numbers { AscendWithin 0 (length vars.now) take.now }
    requires below { sum_by (λ v. v.gain) (map plain_var vars.now) < 2 ^ 104 }
    ensures sum { result ≡ sum_by (gain_at (map plain_var vars.now)) take.now }
    ensures small { result < 2 ^ 104 }
{
    let mut total = 0;
    for number in take {
        total += vars[*number as usize].gain;
    }
    total
}

fn difference(total: u128, fixed: u128) -> i128
    requires total_below { total < 2 ^ 104 }
    requires fixed_below { fixed < 2 ^ 104 }
    ensures { result ≡ pos total -ℤ pos fixed }
{
    total as i128 - fixed as i128
}

/// What taken variables gain on a side, in the units of the board's prices: their gains less the fixed cost.
pub fn gain_of_side(side: &Side, take: &[u32]) -> i128
    requires { Fits (plain_side side.now) take.now }
    ensures value { result ≡ net_gain (plain_side side.now) take.now }
    ensures above { (pos 0 -ℤ pos (2 ^ 104)) ≤ℤ result }
    ensures below { result ≤ℤ pos (2 ^ 104) }
{
    difference(sum_of_gains(&side.vars, take), side.fixed)
}

/// What a choice gains, in the units of the board's prices. It is 0 for the empty choice, and below 0 where the taken
/// variables gain less than their side's fixed cost.
pub fn gain_of(p: &Programme, c: &Choice) -> i128
    requires { IsFeasible (plain_programme p.now) (plain_choice c.now) }
    ensures value { result ≡ gain (plain_programme p.now) (plain_choice c.now) }
    ensures above { (pos 0 -ℤ pos (2 ^ 104)) ≤ℤ result }
    ensures below { result ≤ℤ pos (2 ^ 104) }
{
    if c.on {
        match &p.on {
            Some(side) => gain_of_side(side, &c.take),
            None => 0,
        }
    } else if c.take.is_empty() {
        0
    } else {
        gain_of_side(&p.off, &c.take)
    }
}

/// The energy of a choice, in the units of the board's prices.
pub fn energy(p: &Programme, c: &Choice) -> u128
    requires feasible { IsFeasible (plain_programme p.now) (plain_choice c.now) }
    requires gain { gain (plain_programme p.now) (plain_choice c.now) ≤ℤ pos p.now.base }
    ensures { pos result ≡ energy (plain_programme p.now) (plain_choice c.now) }
{
    (p.base as i128 - gain_of(p, c)) as u128
}
