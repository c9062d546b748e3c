ghost use Rattle.std.specs.Prelude.{◌≡◌, ◌≤◌, length, IfOk};
ghost use Rattle.placement_programme.specs.Views.{plain_side};
ghost use Rattle.branch_bound.specs.Assignments.{taken};

use certificate_checker::{Fixing, is_one, var_count};
use placement_programme::Side;
use std::alloc::{AllocError, Global};

/// The numbers of the variables that are fixed to one, ascending.
pub(crate) fn ones_of(alloc: Global, side: &Side, marks: &[Fixing]) -> Result<Vec<u32>, AllocError>
    requires { length (plain_side side.now).vars ≤ length marks.now }
    ensures { IfOk result (λ take. take.items ≡ taken (plain_side side.now) marks.now) }
{
    let mut take = Vec::new(alloc);
    for number in 0..var_count(side) {
        if is_one(marks, number) {
            take.push(number as u32)?;
        }
    }
    Ok(take)
}
