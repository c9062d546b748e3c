ghost use Rattle.std.specs.Prelude.{◌≡◌, ◌<◌, map, length, option_map, IfOk};
ghost use Rattle.placement_candidates.specs.{FullVars.{plain_full_var}, FullViews.{plain_full_side, plain_full}, Parts.{plain_part, IsMixedSide, IsMixedOn, IsMix, CanMix}, Mixing.{sides_of, mixed_at, mixed_vars, CanMixSides}};

use crate::counting::side_of;
use crate::full_sides::{Full, FullSide};
use crate::part::Part;
use crate::selecting::rows_of;
use crate::sums::{mixed_base, mixed_fixed, mixed_gain};
use crate::variables::FullVar;
use std::alloc::{AllocError, Global};

/// Variable `k` of a side, with its mixed gain.
fn mixed_var(parts: &[Part], on: bool, like: &FullSide, k: usize) -> FullVar
    requires can { CanMixSides on (map plain_part parts.now) (plain_full_side like.now) }
    requires inside { k < length like.now.vars.items }
    ensures { plain_full_var result ≡ mixed_at (sides_of on (map plain_part parts.now)) (plain_full_side like.now).vars k }
{
    let var = &like.vars[k];
    FullVar {
        name: var.name,
        gain: mixed_gain(parts, on, k),
        weights: var.weights,
    }
}

/// The variables of a side.
fn mixed_vars(
    alloc: Global,
    parts: &[Part],
    on: bool,
    like: &FullSide,
) -> Result<Vec<FullVar>, AllocError>
    requires { CanMixSides on (map plain_part parts.now) (plain_full_side like.now) }
    ensures { IfOk result (λ vars. map plain_full_var vars.items ≡ mixed_vars (sides_of on (map plain_part parts.now)) (plain_full_side like.now).vars (length like.now.vars.items)) }
{
    let mut vars = Vec::with_capacity(alloc, like.vars.len())?;
    for k in 0..like.vars.len() {
        vars.push(mixed_var(parts, on, like, k))?;
    }
    Ok(vars)
}

/// A side of the mix, like that of the first part.
fn mixed_side(
    alloc: Global,
    parts: &[Part],
    on: bool,
    like: &FullSide,
) -> Result<FullSide, AllocError>
    requires { CanMixSides on (map plain_part parts.now) (plain_full_side like.now) }
    ensures { IfOk result (λ side. IsMixedSide (sides_of on (map plain_part parts.now)) (plain_full_side side)) }
{
    let rows = rows_of(alloc, like)?;
    let vars = mixed_vars(alloc, parts, on, like)?;
    Ok(side_of(mixed_fixed(parts, on), rows, vars))
}

/// The side with overlay, if the parts have one.
fn mixed_on(alloc: Global, parts: &[Part]) -> Result<Option<FullSide>, AllocError>
    requires { CanMix (map plain_part parts.now) }
    ensures { IfOk result (λ on. IsMixedOn (map plain_part parts.now) (option_map plain_full_side on)) }
{
    match &parts[0].full.on {
        None => Ok(None),
        Some(like) => {
            let side = mixed_side(alloc, parts, true, like)?;
            Ok(Some(side))
        }
    }
}

/// The mix of what several runs of one program state for one board: energies are the exact sums of the parts', by weight.
///
/// There are 1 to 16 parts, which have the same variables and rows on each side, weights from 1 to 1,000, and bases, fixed
/// costs and sums of gains below 2^90, as `whole_full` states them. It fails only where no memory was left.
pub fn mix(alloc: Global, parts: &[Part]) -> Result<Full, AllocError>
    requires { CanMix (map plain_part parts.now) }
    ensures { IfOk result (λ f. IsMix (map plain_part parts.now) (plain_full f)) }
{
    let off = mixed_side(alloc, parts, false, &parts[0].full.off)?;
    let on = mixed_on(alloc, parts)?;
    Ok(Full {
        base: mixed_base(parts),
        off,
        on,
    })
}
