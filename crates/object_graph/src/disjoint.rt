ghost use Rattle.std.specs.Prelude.{◌≡◌, ℕ, ◌<◌, ◌≤◌, ◌==◌, ◌&&◌, length};
ghost use Rattle.loaded_file.specs.{Ranges.{inside}, ByteRanges.{byte_range_at}};
ghost use Rattle.object_graph.specs.Disjoint.{AreApart, IsDisjoint, IsBelow, Finds};

use loaded_file::ByteRange;

/// How many ranges begin at or before an address.
fn count_begun(ranges: &[ByteRange], address: u32) -> usize
    requires { IsDisjoint ranges.now }
    ensures bound { result ≤ length ranges.now }
    ensures begun { (k : ℕ) → k < result → (byte_range_at ranges.now k).home ≤ address }
    ensures later { (k : ℕ) → result ≤ k → k < length ranges.now → address < (byte_range_at ranges.now k).home }
{
    ranges.partition_point(|range| range.home <= address)
}

/// The range that holds an address, if one does.
///
/// The time grows with the logarithm of the number of ranges.
pub(crate) fn place_holding(ranges: &[ByteRange], address: u32) -> Option<usize>
    requires { IsDisjoint ranges.now }
    ensures found { Finds (λ home n. inside home n address) ranges.now result }
    ensures below { IsBelow (length ranges.now) result }
{
    let begun = count_begun(ranges, address);
    if begun == 0 {
        return None;
    }
    let last = begun - 1;
    if holds(&ranges[last], address) {
        Some(last)
    } else {
        None
    }
}

/// The range of `size` bytes at `home`, if it is one.
pub(crate) fn place_of(ranges: &[ByteRange], home: u32, size: u32) -> Option<usize>
    requires ranges { AreApart ranges.now }
    ensures found { Finds (λ a n. (home == a) && (size == n)) ranges.now result }
    ensures below { IsBelow (length ranges.now) result }
{
    let begun = count_begun(ranges, home);
    if begun == 0 {
        return None;
    }
    let last = begun - 1;
    if is_byte_range(&ranges[last], home, size) {
        Some(last)
    } else {
        None
    }
}

/// An address lies in a range.
fn holds(range: &ByteRange, address: u32) -> bool
    ensures { result ≡ inside range.now.home range.now.size address }
{
    let end = u64::from(range.home) + u64::from(range.size);
    range.home <= address && u64::from(address) < end
}

/// A range is the `size` bytes at `home`.
fn is_byte_range(range: &ByteRange, home: u32, size: u32) -> bool
    ensures { result ≡ (home == range.now.home) && (size == range.now.size) }
{
    home == range.home && size == range.size
}
