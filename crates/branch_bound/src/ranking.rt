ghost use Rattle.std.specs.Prelude.{◌≡◌, ℕ, ◌<◌, ◌≤◌, length, MatchOption, IfOk};
ghost use Rattle.placement_programme.specs.Views.{plain_side};
ghost use Rattle.certificate_checker.specs.{Fixings.{fixing_of}, declared.fixings.Fixing.TheVariants.{Free}};
ghost use Rattle.branch_bound.specs.Ranking.{IsRanking, AreListed, PassedOver, number_at};

use certificate_checker::{Fixing, gain_of_var, is_free, var_count};
use placement_programme::Side;
use std::alloc::{AllocError, Global};

/// A variable in the order in which the search branches.
#[derive(Clone, Copy)]
pub(crate) struct Ranked {
    pub number: u32,
    /// In the units of the board's prices.
    pub gain: u128,
}

/// The variables of a side with their gains, by number.
fn listed(alloc: Global, side: &Side) -> Result<Vec<Ranked>, AllocError>
    ensures { IfOk result (λ ranked. AreListed (plain_side side.now) (length (plain_side side.now).vars) ranked.items) }
{
    let mut ranked = Vec::new(alloc);
    for number in 0..var_count(side) {
        ranked.push(Ranked {
            number: number as u32,
            gain: gain_of_var(side, number),
        })?;
    }
    Ok(ranked)
}

/// The variables of a side by gain, the greatest first and the lowest number on a tie.
pub(crate) fn ranking(alloc: Global, side: &Side) -> Result<Vec<Ranked>, AllocError>
    ensures { IfOk result (λ ranked. IsRanking (plain_side side.now) ranked.items) }
{
    let mut ranked = listed(alloc, side)?;
    ranked.sort_by_key(|it| u128::MAX - it.gain)?;
    Ok(ranked)
}

/// The place of the first free variable from a place on; none before it is free.
pub(crate) fn first_free(
    side: &Side,
    ranking: &[Ranked],
    marks: &[Fixing],
    place: usize,
) -> Option<usize>
    requires ranking { IsRanking (plain_side side.now) ranking.now }
    requires marked { length (plain_side side.now).vars ≤ length marks.now }
    requires passed { PassedOver ranking.now marks.now place }
    ensures { MatchOption result (PassedOver ranking.now marks.now (length ranking.now)) (λ found. (found < length ranking.now) × (fixing_of marks.now (number_at ranking.now found) ≡ Free) × PassedOver ranking.now marks.now found) }
{
    let _side = side;
    for found in place..ranking.len() {
        if is_free(marks, ranking[found].number as usize) {
            return Some(found);
        }
    }
    None
}
