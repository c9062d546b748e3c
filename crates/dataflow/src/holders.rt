// Words of which mark `k` is register `k`.
ghost use Rattle.std.specs.Prelude.{◌≡◌, ◌≢◌, ◌⊎◌, ◌↔◌, ◌<◌, ℕ};
ghost use Rattle.reach_graph.specs.Reaching.{HasMark};
ghost use Rattle.dataflow.specs.Points.{IsHolder};

use reach_graph::{joined, one_mark};

/// The marks of x1 to x31, which may hold addresses.
const HOLDERS: u64 = 0xFFFF_FFFE;

/// The registers of a word that may hold addresses.
pub(crate) fn holders(word: u64) -> u64
    ensures { (x : ℕ) → HasMark result x ↔ (IsHolder x × HasMark word x) }
{
    word & HOLDERS
}

/// The word with a register, if that may hold an address.
pub(crate) fn with_register(word: u64, x: u8) -> u64
    ensures { (k : ℕ) → HasMark result k ↔ (HasMark word k ⊎ (IsHolder k × (k ≡ x))) }
{
    if x == 0 || x > 31 {
        return word;
    }
    joined(word, one_mark(u32::from(x)))
}

/// The word without a register.
pub(crate) fn without_register(word: u64, x: u8) -> u64
    requires { x < 64 }
    ensures { (k : ℕ) → HasMark result k ↔ (HasMark word k × (k ≢ x)) }
{
    word & !(1 << x)
}
