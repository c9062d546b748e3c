ghost use Rattle.std.specs.Prelude.{◌≡◌, ℕ, ◌<◌, ◌≤◌, ◌↔◌, IsTrue, length, slice_index_or};
ghost use Rattle.placement_programme.specs.{Bounds.{RowsWithin, row_of}, Programme.{weight_in}};

/// Whether the rows of some entries ascend, each once, below `count`.
pub fn rows_ascend(entries: &[(u32, u64)], count: usize) -> bool
    ensures { IsTrue result ↔ RowsWithin 0 count entries.now }
{
    let mut least = 0;
    for entry in entries {
        let row = entry.0 as usize;
        if row < least || row >= count {
            return false;
        }
        least = row + 1;
    }
    true
}

/// How many of some entries stand in rows before `row`, by binary search.
pub(crate) fn count_before(entries: &[(u32, u64)], row: u32) -> usize
    requires { (count : ℕ) × RowsWithin 0 count entries.now }
    ensures bound { result ≤ length entries.now }
    ensures before { (k : ℕ) → k < result → row_of (slice_index_or entries.now k (0, 0)) < row }
    ensures behind { (k : ℕ) → result ≤ k → k < length entries.now → row ≤ row_of (slice_index_or entries.now k (0, 0)) }
{
    entries.partition_point(|entry| entry.0 < row)
}

/// The value in a row, 0 where the entries don't name it. The time grows with the logarithm of their number.
pub fn value_in(entries: &[(u32, u64)], row: u32) -> u64
    requires { (count : ℕ) × RowsWithin 0 count entries.now }
    ensures { result ≡ weight_in entries.now row }
{
    let place = count_before(entries, row);
    if place < entries.len() && entries[place].0 == row {
        entries[place].1
    } else {
        0
    }
}
