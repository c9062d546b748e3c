ghost use Rattle.std.specs.Prelude.{◌≡◌, ℕ, ◌<◌, Option, Some, None};
ghost use Rattle.list_checks.specs.First.{first_below};

/// Where the checks below `i` hold and check `i` fails, its fault is the first of all `n` checks.
pub fn first_is_found<E>()
    ensures { (check : ℕ → Option E) (n i : ℕ) (fault : E) → i < n → first_below check i ≡ None → check i ≡ Some fault → first_below check n ≡ Some fault }
{}
