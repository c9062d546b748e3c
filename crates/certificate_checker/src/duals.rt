ghost use Rattle.std.specs.Prelude.{◌≡◌, ℕ, ◌+◌, ◌*◌, ◌^◌, ◌<◌, ◌≤◌, ◌↔◌, IsTrue, List, [], length, IfOk};
ghost use Rattle.placement_programme.specs.{Sums.{sum_below}, Views.{plain_side}};
ghost use Rattle.certificate_checker.specs.{Rules.{kept_at, DualHolds}, Prices.{priced_at, credits}, declared.fixings.Fixing.{Fixing}, RowWise.{rows_of, IsOfSide}, Loading.{IsLoaded}};

use crate::columns::{row_count, var_count};
use crate::crediting::Pricing;
use crate::fixings::Fixing;
use crate::loading::{Loaded, load_rows};
use crate::prices::Priced;
use crate::row_wise::RowWise;
use crate::tallying::open_gains;
use placement_programme::{Side, rows_ascend};
use std::alloc::{AllocError, Global};

/// A side, with its weights by rows as well.
#[derive(Clone, Copy, Drop)]
pub struct Weighed<'a> {
    pub side: &'a Side,
    pub by_row: &'a RowWise,
}

/// The scaled bound.
fn scaled_bound(side: &Side, best: u128, scale: u32) -> u128
    requires best { best ≤ 2 ^ 104 }
    requires scale { scale ≤ 65536 }
    ensures value { result ≡ scale * (best + side.now.fixed) }
    ensures small { result ≤ 2 ^ 121 }
{
    u128::from(scale) * (best + side.fixed)
}

/// Whether a dual node keeps its rule, by what its rows make and what the variables gain that aren't fixed to zero.
pub(crate) fn loaded_holds(
    side: &Side,
    best: u128,
    scale: u32,
    open_gain: u128,
    loaded: &Loaded,
) -> bool
    requires best { best ≤ 2 ^ 104 }
    requires least { 1 ≤ scale }
    requires most { scale ≤ 65536 }
    requires open_gain { open_gain < 2 ^ 104 }
    requires bound { loaded.now.bound < 2 ^ 113 }
    requires credit { loaded.now.credit ≤ 2 ^ 126 }
    ensures { (marks : List Fixing) (price : ℕ → ℕ) (ms : List (ℕ × ℕ)) → IsLoaded (plain_side side.now) price loaded.now.row_end loaded.now.bound ms
        → open_gain ≡ sum_below (length (plain_side side.now).vars) (kept_at (plain_side side.now) marks 1 [])
        → loaded.now.credit ≡ credits (plain_side side.now) marks scale price
        → (IsTrue result ↔ DualHolds (plain_side side.now) best marks scale ms) }
{
    if loaded.row_end > row_count(side) as u64 {
        return false;
    }
    let left = loaded.bound + u128::from(scale) * open_gain;
    left <= scaled_bound(side, best, scale) + loaded.credit
}

/// Prices that count for the stamp 0 alone.
fn no_prices(alloc: Global, count: usize) -> Result<Vec<Priced>, AllocError>
    ensures count { IfOk result (λ prices. length prices.items ≡ count) }
    ensures clear { IfOk result (λ prices. (j : ℕ) → priced_at 1 prices.items j ≡ 0) }
{
    vec![in alloc; Priced { stamp: 0, price: 0 }; count]
}

/// Whether a dual node keeps its rule under these marks, of which each variable has one: its scale is from 1 to 65,536, its
/// rows ascend in range, and by weak duality nothing gains more than `best`, which has the fixed cost taken off. The prices are
/// added up by the rows that the node names, and not looked for by variables.
pub fn dual_holds_by_row(
    alloc: Global,
    weighed: &Weighed,
    best: u128,
    marks: &[Fixing],
    scale: u32,
    multipliers: &[(u32, u64)],
) -> Result<bool, AllocError>
    requires by_row { IsOfSide (plain_side weighed.now.side.now) (rows_of weighed.now.by_row.now) }
    requires best { best ≤ 2 ^ 104 }
    requires marked { length (plain_side weighed.now.side.now).vars ≤ length marks.now }
    ensures { IfOk result (λ holds. IsTrue holds ↔ DualHolds (plain_side weighed.now.side.now) best marks.now scale multipliers.now) }
{
    let side = weighed.side;
    if scale == 0 || scale > 65536 || !rows_ascend(multipliers, side.rows.len()) {
        return Ok(false);
    }
    let mut prices = no_prices(alloc, var_count(side))?;
    let pricing = Pricing {
        side,
        by_row: weighed.by_row,
        marks,
        scale,
        stamp: 1,
    };
    let loaded = load_rows(&pricing, &mut prices, multipliers);
    let holds = loaded_holds(side, best, scale, open_gains(side, marks), &loaded);
    Ok(holds)
}
