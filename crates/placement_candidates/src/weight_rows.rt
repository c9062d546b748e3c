ghost use Rattle.std.specs.Prelude.{◌≡◌, ◌+◌, ◌^◌, ◌<◌, ◌++◌, OnOk};
ghost use Rattle.placement_programme.specs.Rows.{in_rows};
ghost use Rattle.placement_candidates.specs.FullVars.{weights_in};

use crate::row_ranges::RowRange;
use std::alloc::AllocError;

/// The patch bytes of a copy job, and of the stub of an entry.
pub const JOB_BYTES: u64 = 44;

pub const STUB_BYTES: u64 = 8;

/// Adds a value in each of `count` rows from `first` on.
pub fn push_rows(
    weights: &mut Vec<(u32, u64)>,
    first: u32,
    count: u32,
    value: u64,
) -> Result<(), AllocError>
    requires { first + count < 2 ^ 32 }
    ensures { OnOk result (weights.new.items ≡ weights.old.items ++ in_rows first count value) }
{
    for k in 0..count {
        weights.push((first + k, value))?;
    }
    Ok(())
}

/// Adds a value in each row of a range.
pub(crate) fn push_range(weights: &mut Vec<(u32, u64)>, range: &RowRange) -> Result<(), AllocError>
    ensures { OnOk result (weights.new.items ≡ weights.old.items ++ weights_in range.now) }
{
    push_rows(weights, range.first, range.count, range.value)
}
