// One part more in a mix, so that no two parts need be held at a time.
ghost use Rattle.std.specs.Prelude.{◌≡◌, ◌++◌, ◌∷◌, [], ◌+◌, ◌*◌, ◌^◌, ◌≤◌, ◌<◌, ◌+ℤ◌, unsigned_abs, List, map, length, option_map, IfOk};
ghost use Rattle.placement_candidates.specs.{FullVars.{plain_full_var}, FullViews.{plain_full_side, plain_full}, Stated.{IsSmallSide}, Overlaid.{IsSmallOn}, Parts.{PlainPart, plain_part, IsMix, CanMix, IsSmallPart}, OneMore.{more_at, more_vars, more_side, more_on, more_full, CanAddSide, CanAddOn, CanAdd}};

use crate::counting::side_of;
use crate::full_sides::{Full, FullSide};
use crate::part::Part;
use crate::selecting::rows_of;
use crate::sums::{part_base, weighted_fixed, weighted_gain};
use crate::variables::FullVar;
use std::alloc::{AllocError, Global};

/// What a variable saves, with what it saves by a part.
fn with_more(gain: i128, more: i128) -> i128
    requires gain { unsigned_abs gain < 2 ^ 104 }
    requires more { unsigned_abs more ≤ 1000 * 2 ^ 90 }
    ensures { result ≡ gain +ℤ more }
{
    gain + more
}

/// Variable `k` of a mixed side, with what it saves on a part's side.
fn more_var(total: &FullSide, weight: u32, side: &FullSide, k: usize) -> FullVar
    requires few { weight ≤ 1000 }
    requires small { IsSmallSide (plain_full_side side.now) }
    requires inside { k < length total.now.vars.items }
    requires count { length (plain_full_side total.now).vars ≤ length (plain_full_side side.now).vars }
    ensures { plain_full_var result ≡ more_at weight (plain_full_side side.now) (plain_full_side total.now).vars k }
{
    let var = &total.vars[k];
    FullVar {
        name: var.name,
        gain: with_more(var.gain, weighted_gain(weight, side, k)),
        weights: var.weights,
    }
}

/// The variables of a mixed side, with what each saves on a part's side.
fn more_vars(
    alloc: Global,
    total: &FullSide,
    weight: u32,
    side: &FullSide,
) -> Result<Vec<FullVar>, AllocError>
    requires few { weight ≤ 1000 }
    requires small { IsSmallSide (plain_full_side side.now) }
    requires count { length (plain_full_side total.now).vars ≤ length (plain_full_side side.now).vars }
    ensures { IfOk result (λ vars. map plain_full_var vars.items ≡ more_vars weight (plain_full_side side.now) (plain_full_side total.now).vars (length total.now.vars.items)) }
{
    let mut vars = Vec::with_capacity(alloc, total.vars.len())?;
    for k in 0..total.vars.len() {
        vars.push(more_var(total, weight, side, k))?;
    }
    Ok(vars)
}

/// A mixed side with a part's side.
fn more_side(
    alloc: Global,
    total: &FullSide,
    weight: u32,
    side: &FullSide,
) -> Result<FullSide, AllocError>
    requires few { weight ≤ 1000 }
    requires small { IsSmallSide (plain_full_side side.now) }
    requires can { CanAddSide weight (plain_full_side side.now) (plain_full_side total.now) }
    ensures { IfOk result (λ s. plain_full_side s ≡ more_side weight (plain_full_side side.now) (plain_full_side total.now)) }
{
    let rows = rows_of(alloc, total)?;
    let vars = more_vars(alloc, total, weight, side)?;
    Ok(side_of(total.fixed + weighted_fixed(weight, side), rows, vars))
}

/// The side with overlay, if both have one.
fn more_on(
    alloc: Global,
    total: &Option<FullSide>,
    weight: u32,
    on: &Option<FullSide>,
) -> Result<Option<FullSide>, AllocError>
    requires few { weight ≤ 1000 }
    requires small { IsSmallOn (option_map plain_full_side on.now) }
    requires can { CanAddOn weight (option_map plain_full_side on.now) (option_map plain_full_side total.now) }
    ensures { IfOk result (λ made. option_map plain_full_side made ≡ more_on weight (option_map plain_full_side on.now) (option_map plain_full_side total.now)) }
{
    let Some(side) = on else {
        return Ok(None);
    };
    match total {
        None => Ok(None),
        Some(total) => {
            let side = more_side(alloc, total, weight, side)?;
            Ok(Some(side))
        }
    }
}

/// What a mix and a part of it more come to.
fn more_full(alloc: Global, total: &Full, part: &Part) -> Result<Full, AllocError>
    requires small { IsSmallPart (plain_part part.now) }
    requires base { (plain_full (total.now)).base + (plain_part part.now).weight * (plain_part part.now).full.base < 2 ^ 104 }
    requires off { CanAddSide (plain_part part.now).weight (plain_part part.now).full.off (plain_full total.now).off }
    requires on { CanAddOn (plain_part part.now).weight (plain_part part.now).full.on (plain_full total.now).on }
    ensures { IfOk result (λ f. plain_full f ≡ more_full (plain_part part.now) (plain_full total.now)) }
{
    let off = more_side(alloc, &total.off, part.weight, &part.full.off)?;
    let on = more_on(alloc, &total.on, part.weight, &part.full.on)?;
    Ok(Full {
        base: total.base + part_base(part),
        off,
        on,
    })
}

/// The mix of what several runs state, with what one more states, as `mix` gives it of all of them.
///
/// It fails only where no memory was left.
pub fn mix_more(alloc: Global, total: &Full, part: &Part) -> Result<Full, AllocError>
    requires { CanAdd (plain_full total.now) (plain_part part.now) }
    ensures { IfOk result (λ f. (parts : List PlainPart) → 1 ≤ length parts → IsMix parts (plain_full total.now) → CanMix (parts ++ plain_part part.now ∷ []) → IsMix (parts ++ plain_part part.now ∷ []) (plain_full f)) }
{
    match more_full(alloc, total, part) {
        Ok(full) => Ok(full),
        Err(error) => Err(error),
    }
}
