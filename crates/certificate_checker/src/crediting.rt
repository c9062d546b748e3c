ghost use Rattle.std.specs.Prelude.{◌≡◌, ℕ, ◌+◌, ◌*◌, ◌^◌, ◌<◌, ◌≤◌, length, slice_set};
ghost use Rattle.placement_programme.specs.{Bounds.{AreWeights}, Programme.{weight_in}, Views.{plain_side}};
ghost use Rattle.certificate_checker.specs.Prices.{priced_at, credit, credit_part, credits, AreFrom};

use crate::columns::scaled_gain;
use crate::fixings::{Fixing, fixing_of};
use crate::prices::{Priced, price_now, product};
use crate::row_wise::RowWise;
use placement_programme::Side;

/// What prices are added up for: what is fixed of a side, the scale of a dual node, and the stamp of its prices.
#[derive(Clone, Copy, Drop)]
pub(crate) struct Pricing<'a> {
    pub side: &'a Side,
    pub by_row: &'a RowWise,
    pub marks: &'a [Fixing],
    pub scale: u32,
    pub stamp: usize,
}

/// What a price credits to a dual node, by the variable's mark and its scaled gain.
pub(crate) fn credit_of(fixing: Fixing, gain: u128, price: u128) -> u128
    ensures { result ≡ credit fixing gain price }
{
    match fixing {
        Fixing::Zero => 0,
        Fixing::One => price,
        Fixing::Free => gain - gain.saturating_sub(price),
    }
}

/// By how much a variable's credit grows with its price.
fn growth(pricing: &Pricing, number: usize, old: u128, new: u128) -> u128
    requires number { number < length (plain_side pricing.now.side.now).vars }
    requires marked { length (plain_side pricing.now.side.now).vars ≤ length pricing.now.marks.now }
    requires scale { pricing.now.scale ≤ 65536 }
    requires order { old ≤ new }
    ensures value { result + credit_part (plain_side pricing.now.side.now) pricing.now.marks.now pricing.now.scale (λ j. old) number ≡ credit_part (plain_side pricing.now.side.now) pricing.now.marks.now pricing.now.scale (λ j. new) number }
    ensures small { result + old ≤ new }
{
    let fixing = fixing_of(pricing.marks, number);
    let gain = scaled_gain(pricing.side, pricing.scale, number);
    credit_of(fixing, gain, new) - credit_of(fixing, gain, old)
}

/// Adds to the price of a variable. Returns by how much its credit grows.
fn add_price(pricing: &Pricing, prices: &mut [Priced], number: usize, more: u128) -> u128
    requires number { number < length (plain_side pricing.now.side.now).vars }
    requires room { length (plain_side pricing.now.side.now).vars ≤ length prices.old }
    requires marked { length (plain_side pricing.now.side.now).vars ≤ length pricing.now.marks.now }
    requires scale { pricing.now.scale ≤ 65536 }
    requires small { priced_at pricing.now.stamp prices.old number + more ≤ 2 ^ 121 }
    ensures prices { prices.new ≡ slice_set prices.old number record { stamp = pricing.now.stamp; price = priced_at pricing.now.stamp prices.old number + more } }
    ensures credit { result + credit_part (plain_side pricing.now.side.now) pricing.now.marks.now pricing.now.scale (priced_at pricing.now.stamp prices.old) number ≡ credit_part (plain_side pricing.now.side.now) pricing.now.marks.now pricing.now.scale (λ j. priced_at pricing.now.stamp prices.old number + more) number }
    ensures least { result ≤ more }
{
    let old = price_now(prices, pricing.stamp, number);
    let new = old + more;
    prices[number] = Priced {
        stamp: pricing.stamp,
        price: new,
    };
    growth(pricing, number, old, new)
}

/// Adds to the prices what variables weigh in a row, times its multiplier. Returns by how much the credits grow.
pub(crate) fn add_priced(
    pricing: &Pricing,
    prices: &mut [Priced],
    entries: &[(u32, u64)],
    multiplier: u64,
) -> u128
    requires weights { AreWeights (length (plain_side pricing.now.side.now).vars) entries.now }
    requires room { length (plain_side pricing.now.side.now).vars ≤ length prices.old }
    requires marked { length (plain_side pricing.now.side.now).vars ≤ length pricing.now.marks.now }
    requires scale { pricing.now.scale ≤ 65536 }
    requires small { (j : ℕ) → priced_at pricing.now.stamp prices.old j ≤ 2 ^ 120 }
    ensures values { (j : ℕ) → priced_at pricing.now.stamp prices.new j ≡ priced_at pricing.now.stamp prices.old j + multiplier * weight_in entries.now j }
    ensures credits { result + credits (plain_side pricing.now.side.now) pricing.now.marks.now pricing.now.scale (priced_at pricing.now.stamp prices.old) ≡ credits (plain_side pricing.now.side.now) pricing.now.marks.now pricing.now.scale (priced_at pricing.now.stamp prices.new) }
    ensures least { result ≤ 4000 * 2 ^ 96 }
    ensures stamps { (limit : ℕ) → limit ≤ pricing.now.stamp → AreFrom limit prices.old → AreFrom limit prices.new }
{
    let mut total = 0;
    for entry in entries {
        total += add_price(
            pricing,
            prices,
            entry.0 as usize,
            product(multiplier, entry.1),
        );
    }
    total
}
