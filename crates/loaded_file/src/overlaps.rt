ghost use Rattle.std.specs.Prelude.{◌≡◌, ◌<◌, length, map, IfOk};
ghost use Rattle.loaded_file.specs.ByteRanges.{byte_range_at, IsAscending, IsFilled, end_of, further_end, furthest_end_below, reaches_next, overlaps_another};

use crate::byte_ranges::ByteRange;
use std::alloc::{AllocError, Global};

/// Whether each range of a list shares a byte with another. The ranges ascend by home and then by size,
/// each stands in the list once, and each has bytes. It fails only where no memory was left.
///
/// The time grows with the number of ranges.
pub fn overlapped(alloc: Global, ranges: &[ByteRange]) -> Result<Vec<bool>, AllocError>
    requires ascending { IsAscending ranges.now }
    requires filled { IsFilled ranges.now }
    ensures { IfOk result (λ marks. marks.items ≡ map (overlaps_another ranges.now) ranges.now) }
{
    let mut marks = Vec::new(alloc);
    let mut furthest_end = 0;
    for k in 0..ranges.len() {
        marks.push(overlaps_another(ranges, k, furthest_end))?;
        furthest_end = further_end(furthest_end, &ranges[k]);
    }
    Ok(marks)
}

/// Range `k` shares a byte with another, where `furthest_end` is the greatest end of those before it: with one of
/// these, or else with the next one if with any behind it.
fn overlaps_another(ranges: &[ByteRange], k: usize, furthest_end: u64) -> bool
    requires ascending { IsAscending ranges.now }
    requires filled { IsFilled ranges.now }
    requires below { k < length ranges.now }
    requires furthest_end { furthest_end ≡ furthest_end_below ranges.now k }
    ensures { result ≡ overlaps_another ranges.now (byte_range_at ranges.now k) }
{
    u64::from(ranges[k].home) < furthest_end || reaches_next(ranges, k)
}

/// The range behind range `k` begins before the end of this one.
fn reaches_next(ranges: &[ByteRange], k: usize) -> bool
    requires { k < length ranges.now }
    ensures { result ≡ reaches_next ranges.now k }
{
    k + 1 < ranges.len() && u64::from(ranges[k + 1].home) < end_of(&ranges[k])
}

/// The greater of `furthest_end` and the end of a range.
fn further_end(furthest_end: u64, range: &ByteRange) -> u64
    ensures { result ≡ further_end furthest_end range.now }
{
    let end = end_of(range);
    if furthest_end < end {
        end
    } else {
        furthest_end
    }
}

/// The address behind the last byte of a range.
fn end_of(range: &ByteRange) -> u64
    ensures { result ≡ end_of range.now }
{
    u64::from(range.home) + u64::from(range.size)
}
