ghost use Rattle.std.specs.Prelude.{◌≡◌, ◌+◌, ◌^◌, ◌<◌, nat_lt, false, length, slice_index_or, MatchOption};
ghost use Rattle.std.specs.List.{count_by, list_any};
ghost use Rattle.std.specs.List.Sorted.{IsStrictlyIncreasing};
ghost use Rattle.list_checks.specs.Sorted.{IsSorted, is_under, is_up_to, is_number, is_inside};

/// How many of the sorted numbers are below `bound`.
///
/// The time of this and of each function below grows with the logarithm of the length.
pub fn count_under(sorted: &[u64], bound: u64) -> usize
    requires { IsSorted sorted.now }
    ensures { result ≡ count_by (is_under bound) sorted.now }
{
    sorted.partition_point(|number| *number < bound)
}

/// How many of the sorted numbers are at most `bound`.
fn count_up_to(sorted: &[u64], bound: u64) -> usize
    requires { IsSorted sorted.now }
    ensures { result ≡ count_by (is_up_to bound) sorted.now }
{
    sorted.partition_point(|number| *number <= bound)
}

/// `number` is one of the sorted numbers.
pub fn has(sorted: &[u64], number: u64) -> bool
    requires { IsSorted sorted.now }
    ensures { result ≡ list_any (is_number number) sorted.now }
{
    count_under(sorted, number) < count_up_to(sorted, number)
}

/// One of the `size` numbers from `from` is one of the sorted numbers.
pub fn has_inside(sorted: &[u64], from: u64, size: u64) -> bool
    requires sorted { IsSorted sorted.now }
    requires fits { from + size < 2 ^ 64 }
    ensures { result ≡ list_any (is_inside from size) sorted.now }
{
    count_under(sorted, from) < count_under(sorted, from + size)
}

/// `number` stands among the sorted numbers more than once.
pub fn repeats(sorted: &[u64], number: u64) -> bool
    requires { IsSorted sorted.now }
    ensures { result ≡ nat_lt 1 (count_by (is_number number) sorted.now) }
{
    count_under(sorted, number) + 1 < count_up_to(sorted, number)
}

/// The place of `number` among numbers that ascend, each once.
pub fn place_of(sorted: &[u64], number: u64) -> Option<usize>
    requires { IsStrictlyIncreasing sorted.now }
    ensures { MatchOption result (list_any (is_number number) sorted.now ≡ false) (λ k. (k < length sorted.now) × (slice_index_or sorted.now k 0 ≡ number)) }
{
    match sorted.binary_search(&number) {
        Ok(place) => Some(place),
        Err(_) => None,
    }
}
