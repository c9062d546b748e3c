ghost use Rattle.std.specs.Prelude.{◌≡◌, ℕ, ◌+◌, ◌<◌, ◌≤◌, List, [], ◌∷◌, ◌++◌, length, vec_capacity};
ghost use Rattle.certificate_checker.specs.{Reading.{vars_at}, Rooms.{AreTaken, Takes}};

use crate::fault::CertFault;
use crate::fields::{Part, small_number};

/// Adds a number for which there is room.
fn push_taken(take: &mut Vec<u32>, number: u32)
    requires { length take.old.items < vec_capacity take.old }
    ensures items { take.new.items ≡ take.old.items ++ number ∷ [] }
    ensures capacity { vec_capacity take.old ≤ vec_capacity take.new }
{
    let _ = take.push(number);
}

/// Keeps a number where it is below `limit`.
fn keep_var(take: &mut Vec<u32>, limit: usize, var: u32)
    requires few { length take.old.items ≤ var }
    requires room { limit ≤ vec_capacity take.old }
    ensures taken { (row_end : ℕ) (ks : List ℕ) → AreTaken limit row_end take.old.items ks → row_end ≤ var → AreTaken limit (var + 1) take.new.items (ks ++ var ∷ []) }
    ensures capacity { vec_capacity take.old ≤ vec_capacity take.new }
{
    if var as usize >= limit {
        return;
    }
    push_taken(take, var);
}

/// Reads so many ascending numbers, and keeps those below `limit`. Returns the least number above all.
pub(crate) fn take_vars<'a>(
    take: &mut Vec<u32>,
    limit: usize,
    count: u32,
    total: usize,
    bytes: &'a [u8],
) -> Result<(u64, &'a [u8]), CertFault>
    requires { limit ≤ vec_capacity take.old }
    ensures takes { Takes total limit take.new.items result (vars_at total count 0 bytes.now) }
    ensures capacity { vec_capacity take.old ≤ vec_capacity take.new }
{
    take.clear();
    let mut row_end = 0;
    let mut rest = bytes;
    for _ in 0..count {
        let (found, after) = small_number(Part::Head, row_end, total, rest)?;
        keep_var(take, limit, found);
        row_end = u64::from(found) + 1;
        rest = after;
    }
    Ok((row_end, rest))
}
