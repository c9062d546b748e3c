ghost use Rattle.std.specs.Prelude.{◌≡◌, ◌+◌, ◌<◌, ◌==◌, nat_lt, ◌&&◌, ◌||◌, ◌++◌, map, length, option_map, IfOk, OnOk};
ghost use Rattle.list_checks.specs.Tests.{any_below};
ghost use Rattle.placement_programme.specs.{Plain.{plain_var}, Bounds.{IsWithinBounds}, Views.{plain_side, plain_programme}};
ghost use Rattle.placement_candidates.specs.{FullVars.{plain_weights, plain_full_var}, FullViews.{plain_full_side, plain_full}, Selected.{worth, worth_at, is_kept, plain_kept, kept_at, kept_below, selected_side, is_overlay, saves_by_overlay, var_in, has_overlay, selected_on, selected}, Ranking.{IsCut, ties_before}};

use crate::full_sides::{Full, FullSide};
use crate::ranking::{Cut, find_cut};
use crate::variables::{FullVar, Weights};
use crate::weight_rows::push_range;
use placement_programme::{Programme, Side, Var, VarName};
use std::alloc::{AllocError, Global};

/// How many variables a side has at most.
pub(crate) const MOST_VARS: usize = 4000;

/// What a variable saves, and 0 where it saves nothing.
fn worth(var: &FullVar) -> u128
    ensures { result ≡ worth var.now.gain }
{
    if var.gain > 0 { var.gain as u128 } else { 0 }
}

/// What variable `k` saves.
pub(crate) fn worth_at(vars: &[FullVar], k: usize) -> u128
    requires { k < length vars.now }
    ensures { result ≡ worth_at (map plain_full_var vars.now) k }
{
    worth(&vars[k])
}

/// Whether a variable is kept that saves so much: it saves something, and more than the cut, or as much where there is
/// room for it behind the ties before it.
fn passes(worth: u128, cut: &Cut, ties: usize) -> bool
    requires { cut.now.above < 4000 }
    ensures { result ≡ (nat_lt 0 worth && (nat_lt cut.now.least worth || ((worth == cut.now.least) && nat_lt (cut.now.above + ties) 4000))) }
{
    worth > 0 && (worth > cut.least || worth == cut.least && ties < MOST_VARS - cut.above)
}

/// Whether variable `k` is kept, behind so many ties.
fn is_kept(vars: &[FullVar], cut: &Cut, ties: usize, k: usize) -> bool
    requires inside { k < length vars.now }
    requires cut { IsCut (map plain_full_var vars.now) cut.now }
    requires ties { ties ≡ ties_before (map plain_full_var vars.now) cut.now k }
    ensures { result ≡ is_kept (map plain_full_var vars.now) k }
{
    passes(worth_at(vars, k), cut, ties)
}

/// In how many rows an item weighs something.
fn count_of(weights: &Weights) -> usize {
    weights.space.count as usize + weights.patch.count as usize + weights.own.count as usize
}

/// Weights one by one.
fn spelled(alloc: Global, weights: &Weights) -> Result<Vec<(u32, u64)>, AllocError>
    ensures { IfOk result (λ v. v.items ≡ plain_weights weights.now) }
{
    let mut rows = Vec::with_capacity(alloc, count_of(weights))?;
    push_range(&mut rows, &weights.space)?;
    push_range(&mut rows, &weights.patch)?;
    push_range(&mut rows, &weights.own)?;
    Ok(rows)
}

/// A variable as it is kept.
fn kept_var(alloc: Global, var: &FullVar) -> Result<Var, AllocError>
    ensures { IfOk result (λ v. plain_var v ≡ plain_kept (plain_full_var var.now)) }
{
    let weights = spelled(alloc, &var.weights)?;
    Ok(Var {
        name: var.name,
        gain: worth(var),
        weights,
    })
}

/// Variable `k` behind those that were kept, if it is.
fn push_kept(
    alloc: Global,
    kept: &mut Vec<Var>,
    vars: &[FullVar],
    cut: &Cut,
    ties: usize,
    k: usize,
) -> Result<(), AllocError>
    requires inside { k < length vars.now }
    requires cut { IsCut (map plain_full_var vars.now) cut.now }
    requires ties { ties ≡ ties_before (map plain_full_var vars.now) cut.now k }
    ensures { OnOk result (map plain_var kept.new.items ≡ map plain_var kept.old.items ++ kept_at (map plain_full_var vars.now) k) }
{
    if !is_kept(vars, cut, ties, k) {
        return Ok(());
    }
    let var = kept_var(alloc, &vars[k])?;
    match kept.push(var) {
        Ok(()) => Ok(()),
        Err(error) => Err(error.into()),
    }
}

/// Whether variable `k` saves as much as the cut.
fn is_tie(vars: &[FullVar], cut: &Cut, k: usize) -> bool
    requires { k < length vars.now }
    ensures { result ≡ (worth_at (map plain_full_var vars.now) k == cut.now.least) }
{
    worth_at(vars, k) == cut.least
}

/// The variables that are kept, in their order.
fn kept_vars(alloc: Global, vars: &[FullVar]) -> Result<Vec<Var>, AllocError>
    ensures { IfOk result (λ kept. map plain_var kept.items ≡ kept_below (map plain_full_var vars.now) (length vars.now)) }
{
    let cut = find_cut(alloc, vars)?;
    let mut kept = Vec::new(alloc);
    let mut ties = 0;
    for k in 0..vars.len() {
        push_kept(alloc, &mut kept, vars, &cut, ties, k)?;
        if is_tie(vars, &cut, k) {
            ties += 1;
        }
    }
    Ok(kept)
}

fn side_of(fixed: u128, rows: Vec<u64>, vars: Vec<Var>) -> Side
    requires { IsWithinBounds record { fixed = fixed; rows = rows.items; vars = map plain_var vars.items } }
    ensures { plain_side result ≡ record { fixed = fixed; rows = rows.items; vars = map plain_var vars.items } }
{
    Side { fixed, rows, vars }
}

/// The rows of a side. It fails only where no memory was left.
pub fn rows_of(alloc: Global, side: &FullSide) -> Result<Vec<u64>, AllocError>
    ensures { IfOk result (λ rows. rows.items ≡ side.now.rows.items) }
{
    let mut rows = Vec::new(alloc);
    rows.extend_from_slice(&side.rows)?;
    Ok(rows)
}

/// The variables of a side that are kept.
fn vars_of(alloc: Global, side: &FullSide) -> Result<Vec<Var>, AllocError>
    ensures { IfOk result (λ vars. map plain_var vars.items ≡ kept_below (plain_full_side side.now).vars (length (plain_full_side side.now).vars)) }
{
    match kept_vars(alloc, &side.vars) {
        Ok(vars) => Ok(vars),
        Err(error) => Err(error),
    }
}

/// A side with the variables that are kept.
fn select_side(alloc: Global, side: &FullSide) -> Result<Side, AllocError>
    ensures { IfOk result (λ s. plain_side s ≡ selected_side (plain_full_side side.now)) }
{
    let rows = rows_of(alloc, side)?;
    let vars = vars_of(alloc, side)?;
    Ok(side_of(side.fixed, rows, vars))
}

fn is_overlay(name: VarName) -> bool
    ensures { result ≡ is_overlay name }
{
    match name {
        VarName::StaticData { .. } | VarName::StaticCode { .. } => false,
        VarName::OverlayData { .. } | VarName::OverlayCode { .. } | VarName::KeptData { .. } =>
            true,
    }
}

/// Whether a variable is overlaid or kept and saves something.
fn saves_by_overlay(var: &FullVar) -> bool
    ensures { result ≡ saves_by_overlay (plain_full_var var.now) }
{
    is_overlay(var.name) && worth(var) > 0
}

/// Whether variable `k` is overlaid and saves something.
fn saves_at(vars: &[FullVar], k: usize) -> bool
    requires { k < length vars.now }
    ensures { result ≡ saves_by_overlay (var_in (map plain_full_var vars.now) k) }
{
    saves_by_overlay(&vars[k])
}

/// Whether some variable is overlaid and saves something.
fn any_saves(vars: &[FullVar]) -> bool
    ensures { result ≡ any_below (λ k. saves_by_overlay (var_in (map plain_full_var vars.now) k)) (length vars.now) }
{
    let mut found = false;
    for k in 0..vars.len() {
        if saves_at(vars, k) {
            found = true;
        }
    }
    found
}

/// Whether something that is overlaid saves something on a side.
fn has_overlay(side: &FullSide) -> bool
    ensures { result ≡ has_overlay (plain_full_side side.now).vars }
{
    any_saves(&side.vars)
}

/// The side with overlay, if an item that is overlaid saves something.
fn select_on(alloc: Global, on: &Option<FullSide>) -> Result<Option<Side>, AllocError>
    ensures { IfOk result (λ s. option_map plain_side s ≡ selected_on (option_map plain_full_side on.now)) }
{
    match on {
        None => Ok(None),
        Some(side) => {
            if !has_overlay(side) {
                return Ok(None);
            }
            let side = select_side(alloc, side)?;
            Ok(Some(side))
        }
    }
}

/// The programme of the variables that save something: of each side at most 4,000, those that save most, and of those
/// that save the same the first ones. The side with overlay is left out where nothing that is overlaid saves something.
///
/// The time is that of sorting the gains. It fails only where no memory was left.
pub fn select(alloc: Global, f: &Full) -> Result<Programme, AllocError>
    ensures { IfOk result (λ p. plain_programme p ≡ selected (plain_full f.now)) }
{
    let off = select_side(alloc, &f.off)?;
    let on = select_on(alloc, &f.on)?;
    Ok(Programme {
        base: f.base,
        off,
        on,
    })
}
