//! What a choice takes into the scratchpad, and where it stands there.
ghost use Rattle.std.specs.Prelude.{◌≡◌, ℕ, ◌<◌, ◌++◌, ◌∷◌, [], List, map, length, IfOk, OnOk};
ghost use Rattle.std.specs.List.{filter_map};
ghost use Rattle.placement_programme.specs.{Bounds.{AscendWithin}, Plain.{plain_var}, Programme.{IsFeasible, side_for}, Views.{plain_programme, plain_choice}};
ghost use Rattle.relocator.specs.Slots.{name_at, vars_for};
ghost use Rattle.result_laws.specs.{Choices.{IsChoiceFor}, PlacementLaws.{regions_on}};
ghost use Rattle.relink_core.specs.{Choices.{IsAnalysisOf}, Chosen.{IsTakenBy, AreRegionsOf}, Names.{object_named, range_named, objects_named, ranges_named, names_taken}};

use crate::analysis::Analysis;
use crate::code_regions::CodeRegions;
use block_splitter::BlockRange;
use board_config::Board;
use placement_programme::{Choice, Programme, Var, VarName};
use relocator::{Places, layout};
use std::alloc::{AllocError, Global};

/// What is taken, in order, and where it stands.
#[derive(Drop)]
pub(crate) struct TakenNames {
    /// The names of all that is taken.
    pub(crate) names: Vec<VarName>,
    /// The objects that stand in the scratchpad throughout.
    pub(crate) objects: Vec<u32>,
    /// The ranges of blocks that are copied.
    pub(crate) ranges: Vec<BlockRange>,
    /// Where objects stand in each region, and copies.
    pub(crate) places: Places,
}

/// The regions of the code on a side.
pub(crate) fn code_regions<'a>(a: &'a Analysis, on: bool) -> CodeRegions<'a>
    ensures { AreRegionsOf on a.now.regions result }
{
    if on {
        CodeRegions {
            count: a.regions.count,
            of_block: &a.regions.of_block,
            border: &a.regions.border,
        }
    } else {
        CodeRegions {
            count: 0,
            of_block: &[],
            border: &[],
        }
    }
}

/// The object of a name, if it is one of static data.
fn object_named(name: VarName) -> Option<u32>
    ensures { result ≡ object_named name }
{
    match name {
        VarName::StaticData { object } => Some(object),
        VarName::StaticCode { .. }
        | VarName::OverlayData { .. }
        | VarName::OverlayCode { .. }
        | VarName::KeptData { .. } => None,
    }
}

/// The blocks of a name, if it is one of code.
fn range_named(name: VarName) -> Option<BlockRange>
    ensures { result ≡ range_named name }
{
    match name {
        VarName::StaticCode { first, last } | VarName::OverlayCode { first, last, .. } => {
            Some(BlockRange { first, last })
        }
        VarName::StaticData { .. } | VarName::OverlayData { .. } | VarName::KeptData { .. } => {
            None
        }
    }
}

/// The name of variable `number`.
fn name_of(vars: &[Var], number: u32) -> VarName
    requires { number < length vars.now }
    ensures { result ≡ name_at (map plain_var vars.now) number }
{
    vars[number as usize].name
}

/// The names of the variables that are taken, in order.
fn names_in(alloc: Global, vars: &[Var], take: &[u32]) -> Result<Vec<VarName>, AllocError>
    requires { AscendWithin 0 (length vars.now) take.now }
    ensures { IfOk result (λ names. names.items ≡ names_taken (map plain_var vars.now) take.now) }
{
    let mut names = Vec::new(alloc);
    for number in take {
        names.push(name_of(vars, *number))?;
    }
    Ok(names)
}

/// Those of a choice. It fails only where no memory was left.
fn names(alloc: Global, p: &Programme, c: &Choice) -> Result<Vec<VarName>, AllocError>
    requires { IsFeasible (plain_programme p.now) (plain_choice c.now) }
    ensures { IfOk result (λ names. names.items ≡ names_taken (vars_for (side_for (plain_programme p.now) c.now.on)) c.now.take.items) }
{
    if !c.on {
        return names_in(alloc, &p.off.vars, &c.take);
    }
    match &p.on {
        Some(side) => names_in(alloc, &side.vars, &c.take),
        None => Ok(Vec::new(alloc)),
    }
}

/// Adds the object of a name, if it has one.
fn push_object(objects: &mut Vec<u32>, name: VarName) -> Result<(), AllocError>
    ensures { OnOk result (objects.new.items ≡ objects.old.items ++ filter_map object_named (name ∷ [])) }
{
    if let Some(object) = object_named(name) {
        objects.push(object)?;
    }
    Ok(())
}

/// Adds the blocks of a name, if it has some.
fn push_range(ranges: &mut Vec<BlockRange>, name: VarName) -> Result<(), AllocError>
    ensures { OnOk result (ranges.new.items ≡ ranges.old.items ++ filter_map range_named (name ∷ [])) }
{
    if let Some(range) = range_named(name) {
        ranges.push(range)?;
    }
    Ok(())
}

/// The objects of names that stand in the scratchpad throughout. It fails only where no memory was left.
fn objects_named(alloc: Global, names: &[VarName]) -> Result<Vec<u32>, AllocError>
    ensures { IfOk result (λ objects. objects.items ≡ objects_named names.now) }
{
    let mut objects = Vec::new(alloc);
    for k in 0..names.len() {
        push_object(&mut objects, names[k])?;
    }
    Ok(objects)
}

/// The ranges of blocks of names, in order. It fails only where no memory was left.
fn ranges_named(alloc: Global, names: &[VarName]) -> Result<Vec<BlockRange>, AllocError>
    ensures { IfOk result (λ ranges. ranges.items ≡ ranges_named names.now) }
{
    let mut ranges = Vec::new(alloc);
    for k in 0..names.len() {
        push_range(&mut ranges, names[k])?;
    }
    Ok(ranges)
}

/// How many regions a side has.
fn region_count(a: &Analysis, on: bool) -> u32
    ensures { result ≡ regions_on on a.now.regions }
{
    if on { a.regions.count } else { 0 }
}

/// What a choice takes, and where that stands. It fails only where no memory was left.
pub(crate) fn taken_names(
    alloc: Global,
    a: &Analysis,
    board: &Board,
    p: &Programme,
    c: &Choice,
) -> Result<TakenNames, AllocError>
    requires analysis { (file : List ℕ) × IsAnalysisOf file board.now a.now }
    requires choice { IsChoiceFor board.now a.now.graph a.now.code a.now.regions a.now.pieces.items (plain_programme p.now) (plain_choice c.now) }
    ensures { IfOk result (IsTakenBy board.now a.now (plain_programme p.now) (plain_choice c.now)) }
{
    let names = names(alloc, p, c)?;
    let objects = objects_named(alloc, &names)?;
    let ranges = ranges_named(alloc, &names)?;
    match layout(alloc, p, c, &a.graph, region_count(a, c.on), board) {
        Ok(places) => Ok(TakenNames {
            names,
            objects,
            ranges,
            places,
        }),
        Err(error) => Err(error),
    }
}
