ghost use Rattle.std.specs.Prelude.{◌≡◌, ◌<◌, length, slice_index};
ghost use Rattle.list_checks.specs.Sorted.{is_number};
ghost use Rattle.profile_runner.specs.{Counts.{plain_rows, row_of, entry}, Tallies.{Adds, AddsIn, is_entry}};

/// One more at place `k`.
#[inline(always)]
pub(crate) fn bump(row: &mut Vec<u64>, k: usize)
    requires within { k < length row.old.items }
    requires room { slice_index row.old.items k < 18446744073709551615 }
    ensures { Adds row.old.items row.new.items (is_number k) }
{
    row[k] += 1;
}

/// One more in row `j`, column `k`.
#[inline(always)]
pub(crate) fn bump_in(table: &mut Vec<Vec<u64>>, j: usize, k: usize)
    requires row { j < length table.old.items }
    requires column { k < length (row_of (plain_rows table.old.items) j) }
    requires room { entry (plain_rows table.old.items) j k < 18446744073709551615 }
    ensures { AddsIn (plain_rows table.old.items) (plain_rows table.new.items) (is_entry j k) }
{
    bump(&mut table[j], k);
}
