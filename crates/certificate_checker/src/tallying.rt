ghost use Rattle.std.specs.Prelude.{◌≡◌, ◌≤◌, [], length};
ghost use Rattle.placement_programme.specs.{Programme.{gain_at}, Sums.{sum_below}, Views.{plain_side}};
ghost use Rattle.certificate_checker.specs.{Fixings.{fixing_of}, Rules.{if_one, kept_at}, Tallies.{if_free, free_of}};

use crate::columns::{gain_of_var, var_count};
use crate::fixings::{Fixing, fixing_of, is_one};
use placement_programme::Side;

/// What the variables gain that are fixed to one, in the units of the board's prices.
pub(crate) fn ones_gain(side: &Side, marks: &[Fixing]) -> u128
    requires { length (plain_side side.now).vars ≤ length marks.now }
    ensures { result ≡ sum_below (length (plain_side side.now).vars) (λ j. if_one (fixing_of marks.now j) (gain_at (plain_side side.now).vars j)) }
{
    let mut total = 0;
    for number in 0..var_count(side) {
        if is_one(marks, number) {
            total += gain_of_var(side, number);
        }
    }
    total
}

/// What the variables gain that aren't fixed to zero.
pub(crate) fn open_gains(side: &Side, marks: &[Fixing]) -> u128
    requires { length (plain_side side.now).vars ≤ length marks.now }
    ensures { result ≡ sum_below (length (plain_side side.now).vars) (kept_at (plain_side side.now) marks.now 1 []) }
{
    let mut total = 0;
    for number in 0..var_count(side) {
        match fixing_of(marks, number) {
            Fixing::Zero => {}
            Fixing::One => total += gain_of_var(side, number),
            Fixing::Free => total += gain_of_var(side, number),
        }
    }
    total
}

/// How many variables aren't fixed.
pub(crate) fn count_free(side: &Side, marks: &[Fixing]) -> usize
    requires { length (plain_side side.now).vars ≤ length marks.now }
    ensures { result ≡ free_of (plain_side side.now) marks.now }
{
    let mut total = 0;
    for number in 0..var_count(side) {
        match fixing_of(marks, number) {
            Fixing::Zero => {}
            Fixing::One => {}
            Fixing::Free => total += 1,
        }
    }
    total
}
