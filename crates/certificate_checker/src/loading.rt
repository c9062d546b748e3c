ghost use Rattle.std.specs.Prelude.{◌≡◌, ℕ, ◌+◌, ◌*◌, ◌^◌, ◌<◌, ◌≤◌, List, [], ◌∷◌, ◌++◌, length, IfOk};
ghost use Rattle.placement_programme.specs.{Bounds.{RowsWithin}, Views.{plain_side}};
ghost use Rattle.certificate_checker.specs.{Prices.{priced_at, credits, AreFrom}, Reading.{entries_at}, RowWise.{rows_of, IsOfSide}, Loading.{IsLoaded, Loads}};

use crate::columns::{capacity_of_row, row_count};
use crate::crediting::{Pricing, add_priced};
use crate::fault::CertFault;
use crate::fields::entry;
use crate::prices::{Priced, product};

/// What was read of a dual node's rows: the least number above all of them, the multiplied capacities, and the credits of all
/// variables.
#[derive(Drop)]
pub(crate) struct Loaded {
    pub row_end: u64,
    pub bound: u128,
    pub credit: u128,
}

/// What no rows make.
pub(crate) fn nothing_loaded() -> Loaded
    ensures { result ≡ record { row_end = 0; bound = 0; credit = 0 } }
{
    Loaded {
        row_end: 0,
        bound: 0,
        credit: 0,
    }
}

/// Adds one more row, times its multiplier.
fn load_entry(
    pricing: &Pricing,
    prices: &mut [Priced],
    loaded: Loaded,
    row: u32,
    multiplier: u64,
) -> Loaded
    requires by_row { IsOfSide (plain_side pricing.now.side.now) (rows_of pricing.now.by_row.now) }
    requires room { length (plain_side pricing.now.side.now).vars ≤ length prices.old }
    requires marked { length (plain_side pricing.now.side.now).vars ≤ length pricing.now.marks.now }
    requires scale { pricing.now.scale ≤ 65536 }
    requires bound { loaded.bound ≤ length (plain_side pricing.now.side.now).rows * 2 ^ 96 }
    requires low { (j : ℕ) → priced_at pricing.now.stamp prices.old j ≤ length (plain_side pricing.now.side.now).rows * 2 ^ 96 }
    requires credit { loaded.credit ≡ credits (plain_side pricing.now.side.now) pricing.now.marks.now pricing.now.scale (priced_at pricing.now.stamp prices.old) }
    ensures row_end { result.row_end ≡ row + 1 }
    ensures credit { result.credit ≡ credits (plain_side pricing.now.side.now) pricing.now.marks.now pricing.now.scale (priced_at pricing.now.stamp prices.new) }
    ensures loaded { (ms : List (ℕ × ℕ)) → IsLoaded (plain_side pricing.now.side.now) (priced_at pricing.now.stamp prices.old) loaded.row_end loaded.bound ms → loaded.row_end ≤ row
        → IsLoaded (plain_side pricing.now.side.now) (priced_at pricing.now.stamp prices.new) result.row_end result.bound (ms ++ (row, multiplier) ∷ []) }
    ensures stamps { (limit : ℕ) → limit ≤ pricing.now.stamp → AreFrom limit prices.old → AreFrom limit prices.new }
{
    let place = row as usize;
    let row_end = u64::from(row) + 1;
    if place >= row_count(pricing.side) {
        return Loaded {
            row_end,
            bound: loaded.bound,
            credit: loaded.credit,
        };
    }
    let credit = add_priced(pricing, prices, pricing.by_row.row(place), multiplier);
    let more = product(multiplier, capacity_of_row(pricing.side, place));
    Loaded {
        row_end,
        bound: loaded.bound + more,
        credit: loaded.credit + credit,
    }
}

/// Adds rows, each times its multiplier, to prices that are 0.
pub(crate) fn load_rows(
    pricing: &Pricing,
    prices: &mut [Priced],
    multipliers: &[(u32, u64)],
) -> Loaded
    requires by_row { IsOfSide (plain_side pricing.now.side.now) (rows_of pricing.now.by_row.now) }
    requires room { length (plain_side pricing.now.side.now).vars ≤ length prices.old }
    requires marked { length (plain_side pricing.now.side.now).vars ≤ length pricing.now.marks.now }
    requires scale { pricing.now.scale ≤ 65536 }
    requires clear { (j : ℕ) → priced_at pricing.now.stamp prices.old j ≡ 0 }
    requires rows { RowsWithin 0 (length (plain_side pricing.now.side.now).rows) multipliers.now }
    ensures loaded { IsLoaded (plain_side pricing.now.side.now) (priced_at pricing.now.stamp prices.new) result.row_end result.bound multipliers.now }
    ensures credit { result.credit ≡ credits (plain_side pricing.now.side.now) pricing.now.marks.now pricing.now.scale (priced_at pricing.now.stamp prices.new) }
    ensures small { result.bound < 2 ^ 113 }
    ensures few { result.credit ≤ 2 ^ 126 }
{
    let mut loaded = nothing_loaded();
    for entry in multipliers {
        loaded = load_entry(pricing, prices, loaded, entry.0, entry.1);
    }
    loaded
}

/// Reads so many rows with their multipliers into a price for each variable.
pub(crate) fn load_entries<'a>(
    pricing: &Pricing,
    prices: &mut [Priced],
    total: usize,
    count: u32,
    bytes: &'a [u8],
) -> Result<(Loaded, &'a [u8]), CertFault>
    requires by_row { IsOfSide (plain_side pricing.now.side.now) (rows_of pricing.now.by_row.now) }
    requires room { length (plain_side pricing.now.side.now).vars ≤ length prices.old }
    requires marked { length (plain_side pricing.now.side.now).vars ≤ length pricing.now.marks.now }
    requires scale { pricing.now.scale ≤ 65536 }
    requires clear { (j : ℕ) → priced_at pricing.now.stamp prices.old j ≡ 0 }
    ensures loads { Loads (plain_side pricing.now.side.now) pricing.now.marks.now pricing.now.scale (priced_at pricing.now.stamp prices.new) result (entries_at total count 0 bytes.now) }
    ensures small { IfOk result (λ x. x.0.bound < 2 ^ 113) }
    ensures few { IfOk result (λ x. x.0.credit ≤ 2 ^ 126) }
    ensures stamps { (limit : ℕ) → limit ≤ pricing.now.stamp → AreFrom limit prices.old → AreFrom limit prices.new }
{
    let mut loaded = nothing_loaded();
    let mut rest = bytes;
    for _ in 0..count {
        let (found, after) = entry(loaded.row_end, total, rest)?;
        loaded = load_entry(pricing, prices, loaded, found.0, found.1);
        rest = after;
    }
    Ok((loaded, rest))
}
