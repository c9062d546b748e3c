// Words of marks: mark `k` is bit `k`.
ghost use Rattle.std.specs.Prelude.{◌≡◌, ◌⊎◌, ◌↔◌, ◌<◌, ℕ, bit_or, IsTrue};
ghost use Rattle.reach_graph.specs.Reaching.{HasMark};

/// Whether a word has a mark.
pub fn has_mark(word: u64, mark: u32) -> bool
    requires { mark < 64 }
    ensures { IsTrue result ↔ HasMark word mark }
{
    (word >> mark) & 1 == 1
}

/// A word of one mark.
pub fn one_mark(mark: u32) -> u64
    requires { mark < 64 }
    ensures { (k : ℕ) → HasMark result k ↔ (k ≡ mark) }
{
    1 << mark
}

/// The marks of both words.
pub fn joined(first: u64, second: u64) -> u64
    ensures is { result ≡ bit_or first second }
    ensures marks { (k : ℕ) → HasMark result k ↔ (HasMark first k ⊎ HasMark second k) }
    ensures fits { result < 18446744073709551616 }
{
    first | second
}
