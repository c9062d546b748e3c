ghost use Rattle.std.specs.Prelude.{◌≡◌, ◌^◌, ◌<◌, ◌≤◌, ◌↔◌, IsTrue, length};
ghost use Rattle.placement_programme.specs.Views.{plain_side};
ghost use Rattle.certificate_checker.specs.{Rules.{OverHolds, LeafHolds, BranchHolds}};

use crate::columns::{gain_of_var, var_count, weight_in_row};
use crate::fixings::{Fixing, fixing_of, is_free, is_one};
use placement_programme::Side;

/// Whether a branch fixes a variable that is free.
pub fn branch_holds(side: &Side, marks: &[Fixing], number: u32) -> bool
    requires { length (plain_side side.now).vars ≤ length marks.now }
    ensures { IsTrue result ↔ BranchHolds (plain_side side.now) marks.now number }
{
    let place = number as usize;
    place < var_count(side) && is_free(marks, place)
}

/// Whether the variables that are fixed to one exceed a row.
pub fn over_holds(side: &Side, marks: &[Fixing], row: u32) -> bool
    requires { length (plain_side side.now).vars ≤ length marks.now }
    ensures { IsTrue result ↔ OverHolds (plain_side side.now) marks.now row }
{
    let place = row as usize;
    if place >= side.rows.len() {
        return false;
    }
    let mut total = 0;
    for number in 0..var_count(side) {
        if is_one(marks, number) {
            total += weight_in_row(side, number, row);
        }
    }
    side.rows[place] < total
}

/// Whether all variables are fixed, and gain at most `best`, which has the fixed cost taken off.
pub fn leaf_holds(side: &Side, best: u128, marks: &[Fixing]) -> bool
    requires best { best ≤ 2 ^ 104 }
    requires marked { length (plain_side side.now).vars ≤ length marks.now }
    ensures { IsTrue result ↔ LeafHolds (plain_side side.now) best marks.now }
{
    let mut total = 0;
    for number in 0..var_count(side) {
        match fixing_of(marks, number) {
            Fixing::Zero => {}
            Fixing::One => total += gain_of_var(side, number),
            Fixing::Free => return false,
        }
    }
    total <= best + side.fixed
}
