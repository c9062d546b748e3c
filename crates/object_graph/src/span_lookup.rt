ghost use Rattle.std.specs.Prelude.{◌≡◌, ℕ, ◌<◌, ◌≤◌, ◌+◌, length, slice_index_or};
ghost use Rattle.std.specs.List.{AllPairs, list_any};
ghost use Rattle.object_graph.specs.Sites.{in_range, no_area};

use board_config::Range;

/// How many ranges begin at or before an address.
fn count_begun(ranges: &[Range], address: u32) -> usize
    requires { AllPairs (λ r q. r.base + r.size ≤ q.base) ranges.now }
    ensures bound { result ≤ length ranges.now }
    ensures begun { (k : ℕ) → k < result → (slice_index_or ranges.now k no_area).base ≤ address }
    ensures later { (k : ℕ) → result ≤ k → k < length ranges.now → address < (slice_index_or ranges.now k no_area).base }
{
    ranges.partition_point(|range| range.base <= address)
}

/// Whether an address lies in one of some ranges, of which each ends where or before the next begins.
///
/// The time grows with the logarithm of the number of ranges.
pub fn lies_in_some(ranges: &[Range], address: u32) -> bool
    requires { AllPairs (λ r q. r.base + r.size ≤ q.base) ranges.now }
    ensures { result ≡ list_any (λ r. in_range r address) ranges.now }
{
    let begun = count_begun(ranges, address);
    if begun == 0 {
        return false;
    }
    let last = &ranges[begun - 1];
    address - last.base < last.size
}
