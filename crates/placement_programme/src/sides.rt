ghost use Rattle.std.specs.Prelude.{◌^◌, ◌<◌, map};
ghost use Rattle.placement_programme.specs.{Plain.{plain_var}, Bounds.{IsWithinBounds, bounds_prop}};

use crate::limits::is_within_bounds;
use crate::variables::Var;

/// One side of a programme.
#[derive(Drop)]
pub struct Side {
    /// The energy that the side costs before any variable is taken, in the units of the board's prices.
    pub fixed: u128,
    /// The capacity of each row.
    pub rows: Vec<u64>,
    /// The variables, in their order.
    pub vars: Vec<Var>,
    pub ghost bounds: { IsWithinBounds record { fixed = fixed; rows = rows.items; vars = map plain_var vars.items } } by { bounds_prop record { fixed = fixed; rows = rows.items; vars = map plain_var vars.items } },
}

/// The 0-1 programme of a placement.
#[derive(Drop)]
pub struct Programme {
    /// The energy with everything at home, in the units of the board's prices.
    pub base: u128,
    /// The side without overlay.
    pub off: Side,
    /// The side with overlay, if there is one.
    pub on: Option<Side>,
    pub ghost base_below: { base < 2 ^ 104 },
}

impl Side {
    ghost use Rattle.std.specs.Prelude.{◌≡◌, map, MatchOption};
    ghost use Rattle.placement_programme.specs.{Plain.{PlainSide}, Views.{plain_side}};

    /// The side of these parts, and None where it isn't within the bounds: a fixed cost and a sum of gains below
    /// 2^104, at most 4,000 variables, fewer than 2^17 rows, capacities and weights below 2^32, and the weights of
    /// each variable ascending by row, in rows that there are.
    pub fn of(fixed: u128, rows: Vec<u64>, vars: Vec<Var>) -> Option<Side>
        ensures { let parts : PlainSide = record { fixed = fixed; rows = rows.items; vars = map plain_var vars.items } in MatchOption result (IsWithinBounds parts → ⊥) (λ side. plain_side side ≡ parts) }
    {
        if is_within_bounds(fixed, &rows, &vars) {
            Some(Side { fixed, rows, vars })
        } else {
            None
        }
    }
}
