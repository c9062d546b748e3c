ghost use Rattle.std.specs.Prelude.{◌≡◌, ℕ, Bool};
ghost use Rattle.std.specs.List.{count_by, list_any};
ghost use Rattle.std.specs.List.Sorted.{IsStrictlyIncreasing};
ghost use Rattle.list_checks.specs.Sorted.{IsSorted};

/// Sorts numbers. Each stays as often as it stood there.
pub fn arrange(numbers: &mut Vec<u64>)
    ensures sorted { IsSorted numbers.new.items }
    ensures same { (test : ℕ → Bool) → list_any test numbers.new.items ≡ list_any test numbers.old.items }
    ensures counts { (test : ℕ → Bool) → count_by test numbers.new.items ≡ count_by test numbers.old.items }
{
    numbers.sort_unstable();
}

/// Sorts numbers, and keeps each once.
pub fn arrange_once(numbers: &mut Vec<u64>)
    ensures increasing { IsStrictlyIncreasing numbers.new.items }
    ensures same { (test : ℕ → Bool) → list_any test numbers.new.items ≡ list_any test numbers.old.items }
{
    numbers.sort_unstable();
    numbers.dedup();
}
