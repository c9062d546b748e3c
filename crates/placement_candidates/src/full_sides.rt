ghost use Rattle.std.specs.Prelude.{◌^◌, ◌<◌, map};
ghost use Rattle.placement_programme.specs.Bounds.{IsWithinFullBounds, full_bounds_prop};
ghost use Rattle.placement_candidates.specs.FullVars.{plain_full_var};

use crate::variables::FullVar;

/// One side with all its candidates, also those without a gain.
#[derive(Drop)]
pub struct FullSide {
    /// The energy that the side costs before any variable is taken, in the units of the board's prices.
    pub fixed: u128,
    /// The capacity of each row.
    pub rows: Vec<u64>,
    /// The candidates, in the order of variables.
    pub vars: Vec<FullVar>,
    pub ghost bounds: { IsWithinFullBounds record { fixed = fixed; rows = rows.items; vars = map plain_full_var vars.items } } by { full_bounds_prop record { fixed = fixed; rows = rows.items; vars = map plain_full_var vars.items } },
}

/// A programme with all its candidates, also those without a gain.
#[derive(Drop)]
pub struct Full {
    /// The energy with everything at home, in the units of the board's prices.
    pub base: u128,
    /// The side without overlay.
    pub off: FullSide,
    /// The side with overlay, if there is one.
    pub on: Option<FullSide>,
    pub ghost base_below: { base < 2 ^ 104 },
}
