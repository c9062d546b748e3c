ghost use Rattle.std.specs.Prelude.{◌≡◌, ℕ, suc, List, ◌∷◌};
ghost use Rattle.certificate_checker.specs.{Reading.{entries_at, over_at, dual_at, tree_at}, Loading.{Skips}};

use crate::fault::CertFault;
use crate::fields::{Part, cut_off, entry, number_in, place, small_number};

/// The bytes behind so many rows, ascending, each with its multiplier.
fn skip_entries(count: u32, total: usize, bytes: &[u8]) -> Result<&[u8], CertFault>
    ensures { Skips result (entries_at total count 0 bytes.now) }
{
    let mut least = 0;
    let mut rest = bytes;
    for _ in 0..count {
        let (found, after) = entry(least, total, rest)?;
        least = u64::from(found.0) + 1;
        rest = after;
    }
    Ok(rest)
}

#[tactic(auto, unfolding(crate::specs::Reading::over_at))]
fn skip_over(total: usize, bytes: &[u8]) -> Result<&[u8], CertFault>
    ensures { Skips result (over_at total bytes.now) }
{
    match small_number(Part::Node, 0, total, bytes) {
        Err(fault) => Err(fault),
        Ok((_row, rest)) => Ok(rest),
    }
}

#[tactic(auto, unfolding(crate::specs::Reading::dual_at))]
fn skip_dual(total: usize, bytes: &[u8]) -> Result<&[u8], CertFault>
    ensures { Skips result (dual_at total bytes.now) }
{
    let (_scale, rest) = number_in(Part::Node, 1, 65536, total, bytes)?;
    let (count, rest) = small_number(Part::Node, 0, total, rest)?;
    let rest = skip_entries(count, total, rest)?;
    Ok(rest)
}

/// The bytes behind a node that isn't a branch.
#[tactic(auto, unfolding(crate::specs::Reading::tree_at))]
pub(crate) fn skip_single(total: usize, bytes: &[u8]) -> Result<&[u8], CertFault>
    requires tag { (rest : List ℕ) → bytes.now ≡ 0 ∷ rest → ⊥ }
    ensures { (levels : ℕ) → Skips result (tree_at total (suc levels) bytes.now) }
{
    match bytes {
        [] => Err(cut_off(total)),
        [1, rest @ ..] => skip_over(total, rest),
        [2, rest @ ..] => skip_dual(total, rest),
        [3, rest @ ..] => Ok(rest),
        [_, ..] => Err(CertFault::BadNode {
            at: place(total, bytes),
        }),
    }
}
