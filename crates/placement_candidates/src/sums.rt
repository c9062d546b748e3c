// The sums of a mix, part by part.
ghost use Rattle.std.specs.Prelude.{◌≡◌, ◌*◌, ◌^◌, ◌<◌, ◌≤◌, ◌*ℤ◌, pos, unsigned_abs, map, length};
ghost use Rattle.std.specs.List.{All, sum_by};
ghost use Rattle.placement_candidates.specs.{FullViews.{plain_full_side}, Stated.{IsSmallSide}, Parts.{plain_part, gain_of, mixed_fixed, mixed_gain, IsSmallPart}, Mixing.{part_sides, sides_of, HasVar}};

use crate::full_sides::FullSide;
use crate::part::Part;

/// A part's energy with everything at home, by weight.
pub(crate) fn part_base(part: &Part) -> u128
    requires most { (plain_part part.now).weight ≤ 1000 }
    requires base { (plain_part part.now).full.base < 2 ^ 90 }
    ensures sum { result ≡ (plain_part part.now).weight * (plain_part part.now).full.base }
    ensures small { result ≤ 1000 * 2 ^ 90 }
{
    u128::from(part.weight) * part.full.base
}

/// The energy with everything at home.
pub(crate) fn mixed_base(parts: &[Part]) -> u128
    requires few { length parts.now ≤ 16 }
    requires small { All IsSmallPart (map plain_part parts.now) }
    ensures sum { result ≡ sum_by (λ p. p.weight * p.full.base) (map plain_part parts.now) }
    ensures small { result < 2 ^ 104 }
{
    let mut total = 0;
    for i in 0..parts.len() {
        total += part_base(&parts[i]);
    }
    total
}

/// A side's fixed cost, by weight.
pub(crate) fn weighted_fixed(weight: u32, side: &FullSide) -> u128
    requires few { weight ≤ 1000 }
    requires small { IsSmallSide (plain_full_side side.now) }
    ensures sum { result ≡ weight * (plain_full_side side.now).fixed }
    ensures small { result ≤ 1000 * 2 ^ 90 }
{
    u128::from(weight) * side.fixed
}

/// The fixed cost of a part's side, by weight, and 0 where there is no such side.
fn part_fixed(part: &Part, on: bool) -> u128
    requires { IsSmallPart (plain_part part.now) }
    ensures sum { result ≡ mixed_fixed (part_sides on (plain_part part.now)) }
    ensures small { result ≤ 1000 * 2 ^ 90 }
{
    if !on {
        return weighted_fixed(part.weight, &part.full.off);
    }
    match &part.full.on {
        Some(side) => weighted_fixed(part.weight, side),
        None => 0,
    }
}

/// What a side of the mix costs with nothing taken.
pub(crate) fn mixed_fixed(parts: &[Part], on: bool) -> u128
    requires few { length parts.now ≤ 16 }
    requires small { All IsSmallPart (map plain_part parts.now) }
    ensures sum { result ≡ mixed_fixed (sides_of on (map plain_part parts.now)) }
    ensures small { result < 2 ^ 104 }
{
    let mut total = 0;
    for i in 0..parts.len() {
        total += part_fixed(&parts[i], on);
    }
    total
}

/// What variable `k` of a side saves, by weight.
pub(crate) fn weighted_gain(weight: u32, side: &FullSide, k: usize) -> i128
    requires few { weight ≤ 1000 }
    requires small { IsSmallSide (plain_full_side side.now) }
    requires inside { k < length (plain_full_side side.now).vars }
    ensures sum { result ≡ pos weight *ℤ gain_of (plain_full_side side.now) k }
    ensures small { unsigned_abs result ≤ 1000 * 2 ^ 90 }
{
    i128::from(weight) * side.vars[k].gain
}

/// What variable `k` of a part's side saves, by weight, and 0 where there is no such side.
fn part_gain(part: &Part, on: bool, k: usize) -> i128
    requires small { IsSmallPart (plain_part part.now) }
    requires inside { HasVar on k (plain_part part.now) }
    ensures sum { result ≡ mixed_gain (part_sides on (plain_part part.now)) k }
    ensures small { unsigned_abs result ≤ 1000 * 2 ^ 90 }
{
    if !on {
        return weighted_gain(part.weight, &part.full.off, k);
    }
    match &part.full.on {
        Some(side) => weighted_gain(part.weight, side, k),
        None => 0,
    }
}

/// What variable `k` of a side of the mix saves.
pub(crate) fn mixed_gain(parts: &[Part], on: bool, k: usize) -> i128
    requires few { length parts.now ≤ 16 }
    requires small { All IsSmallPart (map plain_part parts.now) }
    requires inside { All (HasVar on k) (map plain_part parts.now) }
    ensures { result ≡ mixed_gain (sides_of on (map plain_part parts.now)) k }
{
    let mut total = 0;
    for i in 0..parts.len() {
        total += part_gain(&parts[i], on, k);
    }
    total
}
