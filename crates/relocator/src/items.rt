ghost use Rattle.std.specs.Prelude.{◌≡◌, ℕ, ◌<◌, map, length, IfOk};
ghost use Rattle.std.specs.List.{All};
ghost use Rattle.placement_programme.specs.{Plain.{plain_var}, Bounds.{AscendWithin, AreWeights}, Views.{plain_programme, plain_choice}, Programme.{side_for, IsFeasible}, Rows.{first_twin}};
ghost use Rattle.relocator.specs.{Slots.{region_of, vars_for, item_at, items_in, items_of}, Laying.{HaveRegions}};

use placement_programme::{Choice, Programme, Var, VarName, weight_of};
use std::alloc::{AllocError, Global};

/// A taken variable.
#[derive(Clone, Copy, PartialEq, Eq)]
pub struct Item {
    /// What it stands for.
    pub name: VarName,
    /// How many bytes of the scratchpad it takes.
    pub span: u32,
}

/// The region in which a variable stands in the scratchpad, the first of two where it is kept for a pair, and 0 where
/// it stands there throughout.
fn region_of(name: VarName) -> u32
    requires { region_of name < 4294967296 }
    ensures { result ≡ region_of name }
{
    match name {
        VarName::StaticData { object: _ } => 0,
        VarName::StaticCode { first: _, last: _ } => 0,
        VarName::OverlayData { region, object: _ } => region,
        VarName::OverlayCode {
            region,
            first: _,
            last: _,
        } => region,
        VarName::KeptData { pair, object: _ } => first_twin(pair),
    }
}

/// The first region of a pair.
fn first_twin(pair: u32) -> u32
    requires { first_twin pair < 4294967296 }
    ensures { result ≡ first_twin pair }
{
    (2 * u64::from(pair)).saturating_sub(1) as u32
}

/// A variable as an item: it takes its weight in the row of the scratchpad.
fn item_of(vars: &[Var], number: u32) -> Item
    requires below { number < length vars.now }
    requires weights { (count : ℕ) × All (λ v. AreWeights count v.weights) (map plain_var vars.now) }
    requires regions { HaveRegions (map plain_var vars.now) }
    ensures { result ≡ item_at (map plain_var vars.now) number }
{
    let var = &vars[number as usize];
    Item {
        name: var.name,
        span: weight_of(&var.weights, region_of(var.name)) as u32,
    }
}

/// The variables that are taken, in order.
fn items_in(alloc: Global, vars: &[Var], take: &[u32]) -> Result<Vec<Item>, AllocError>
    requires numbers { AscendWithin 0 (length vars.now) take.now }
    requires weights { (count : ℕ) × All (λ v. AreWeights count v.weights) (map plain_var vars.now) }
    requires regions { HaveRegions (map plain_var vars.now) }
    ensures { IfOk result (λ items. items.items ≡ items_in (map plain_var vars.now) take.now) }
{
    let mut items = Vec::new(alloc);
    for number in take {
        items.push(item_of(vars, *number))?;
    }
    Ok(items)
}

/// The items of a choice, in the order in which it takes them. It fails only where no memory was left.
pub(crate) fn items(alloc: Global, p: &Programme, c: &Choice) -> Result<Vec<Item>, AllocError>
    requires feasible { IsFeasible (plain_programme p.now) (plain_choice c.now) }
    requires regions { HaveRegions (vars_for (side_for (plain_programme p.now) c.now.on)) }
    ensures { IfOk result (λ items. items.items ≡ items_of (plain_programme p.now) (plain_choice c.now)) }
{
    if !c.on {
        return items_in(alloc, &p.off.vars, &c.take);
    }
    match &p.on {
        Some(side) => items_in(alloc, &side.vars, &c.take),
        None => Ok(Vec::new(alloc)),
    }
}
