//! A result of a program, and where each unit of the program stands in it.
ghost use Rattle.std.specs.Prelude.{◌≡◌, ℕ, ◌++◌, ◌∷◌, [], List, map, Some, IfOk, OnOk};
ghost use Rattle.std.specs.List.{filter_map};
ghost use Rattle.board_config.specs.declared.board.Board.{Board};
ghost use Rattle.placement_programme.specs.Views.{plain_programme, plain_choice};
ghost use Rattle.result_laws.specs.Choices.{IsChoiceFor};
ghost use Rattle.relink_core.specs.{Choices.{IsAnalysisOf}, MadeResults.{MadeForms}, Padding.{home_of}, Placed.{Taken, taken_of}, UnitMaps.{region_named, regions_named, IsAtHome, AreUnitsAt, MakesWithUnits}, UnitSets.{CollectedForms, CanCollect}};

use crate::analysis::Analysis;
use crate::copy_source::CopySource;
use crate::form_sources::FormSources;
use crate::realising::{MovedParts, Realised, realise};
use crate::unit_forms::{UnitAt, arrange, push_copies, push_homes, push_stubs};
use board_config::Board;
use code_blocks::Code;
use patch_code::Stub;
use placement_programme::{Choice, Programme, VarName};
use std::alloc::{AllocError, Global};

/// The region in which the copy of a range of blocks stands, if a name is of one.
fn region_named(name: VarName) -> Option<u32>
    ensures { result ≡ region_named name }
{
    match name {
        VarName::StaticCode { .. } => Some(0),
        VarName::OverlayCode { region, .. } => Some(region),
        VarName::StaticData { .. } | VarName::OverlayData { .. } | VarName::KeptData { .. } => None,
    }
}

/// Adds it.
fn push_region(regions: &mut Vec<u32>, name: VarName) -> Result<(), AllocError>
    ensures { OnOk result (regions.new.items ≡ regions.old.items ++ filter_map region_named (name ∷ [])) }
{
    if let Some(region) = region_named(name) {
        regions.push(region)?;
    }
    Ok(())
}

/// Those of all ranges that are named, in order. It fails only where no memory was left.
fn regions_named(alloc: Global, names: &[VarName]) -> Result<Vec<u32>, AllocError>
    ensures { IfOk result (λ regions. regions.items ≡ regions_named names.now) }
{
    let mut regions = Vec::new(alloc);
    for k in 0..names.len() {
        push_region(&mut regions, names[k])?;
    }
    Ok(regions)
}

/// The homes of stubs. It fails only where no memory was left.
fn stub_homes(alloc: Global, stubs: &[Stub]) -> Result<Vec<u64>, AllocError>
    ensures { IfOk result (λ homes. homes.items ≡ map home_of stubs.now) }
{
    let mut homes = Vec::new(alloc);
    for k in 0..stubs.len() {
        homes.push(u64::from(stubs[k].home))?;
    }
    Ok(homes)
}

/// The units of a code at home, in order. It fails only where no memory was left.
fn home_units(alloc: Global, code: &Code) -> Result<Vec<UnitAt>, AllocError>
    ensures { IfOk result (λ units. AreUnitsAt (IsAtHome code.now) units.items) }
{
    let mut units = Vec::new(alloc);
    push_homes(&mut units, code, &[])?;
    arrange(&mut units);
    Ok(units)
}

/// All forms of units, in order. It fails only where no memory was left.
fn all_forms(alloc: Global, from: &FormSources) -> Result<Vec<UnitAt>, AllocError>
    requires { CanCollect from.now }
    ensures { IfOk result (λ units. AreUnitsAt (CollectedForms from.now) units.items) }
{
    let mut units = Vec::new(alloc);
    push_homes(&mut units, from.source.code, from.homes)?;
    push_copies(&mut units, from.source, from.copies, from.regions)?;
    push_stubs(&mut units, from.stubs, from.stub_at)?;
    arrange(&mut units);
    Ok(units)
}

/// The forms of units in a result that is made of these parts. It fails only where no memory was left.
fn moved_units(
    alloc: Global,
    a: &Analysis,
    made: &Realised,
    parts: &MovedParts,
) -> Result<Vec<UnitAt>, AllocError>
    requires { (file : List ℕ) × (board : Board) × (taken : Taken) × MadeForms file board a.now taken made.now (Some parts.now) }
    ensures { IfOk result (λ units. (file : List ℕ) (board : Board) (taken : Taken) → MadeForms file board a.now taken made.now (Some parts.now) → MakesWithUnits file board a.now.graph a.now.code a.now.regions taken made.now.bytes.items units.items) }
{
    let homes = stub_homes(alloc, &parts.stubs)?;
    let regions = regions_named(alloc, &made.names)?;
    let from = FormSources {
        source: &CopySource {
            code: &a.code,
            live: &a.live,
            graph: &a.graph,
            pieces: &a.pieces,
            sites: &parts.sites,
        },
        homes: &homes,
        copies: &made.copies,
        regions: &regions,
        stubs: &parts.stubs,
        stub_at: &parts.stub_at,
    };
    match all_forms(alloc, &from) {
        Ok(units) => Ok(units),
        Err(error) => Err(error),
    }
}

/// Where units stand in the result of a program, by address, by region and then by the unit's own address: at home, where no
/// pad is; in the copies of their blocks; and displaced into stubs.
///
/// In the program's own file they stand at home alone. It fails only where no memory was left.
pub fn unit_map(alloc: Global, a: &Analysis, made: &Realised) -> Result<Vec<UnitAt>, AllocError>
    requires { (file : List ℕ) × (board : Board) × (taken : Taken) × MadeForms file board a.now taken made.now made.now.moved }
    ensures { IfOk result (λ units. (file : List ℕ) (board : Board) (taken : Taken) → MadeForms file board a.now taken made.now made.now.moved → MakesWithUnits file board a.now.graph a.now.code a.now.regions taken made.now.bytes.items units.items) }
{
    match &made.moved {
        Some(parts) => match moved_units(alloc, a, made, parts) {
            Ok(units) => Ok(units),
            Err(error) => Err(error),
        },
        None => match home_units(alloc, &a.code) {
            Ok(units) => Ok(units),
            Err(error) => Err(error),
        },
    }
}

/// A result of a program, with the forms of the program's units in it.
#[derive(Drop)]
pub struct RealisedUnits {
    /// The result, an ELF file.
    pub bytes: Vec<u8>,
    /// Where units stand, as `unit_map` tells it.
    pub units: Vec<UnitAt>,
}

/// The result of a program for a choice of a programme that is made for it, as `realise` makes it, with the forms of the
/// program's units in just this result.
///
/// Where nothing is taken and nothing is overlaid, it is the program's file, and units stand at home alone. It fails only where
/// no memory was left.
pub fn realise_units(
    alloc: Global,
    a: &Analysis,
    board: &Board,
    p: &Programme,
    c: &Choice,
) -> Result<RealisedUnits, AllocError>
    requires analysis { (file : List ℕ) × IsAnalysisOf file board.now a.now }
    requires choice { IsChoiceFor board.now a.now.graph a.now.code a.now.regions a.now.pieces.items (plain_programme p.now) (plain_choice c.now) }
    ensures { IfOk result (λ r. (file : List ℕ) → IsAnalysisOf file board.now a.now → MakesWithUnits file board.now a.now.graph a.now.code a.now.regions (taken_of (plain_programme p.now) (plain_choice c.now)) r.bytes.items r.units.items) }
{
    let made = realise(alloc, a, board, p, c)?;
    match unit_map(alloc, a, &made) {
        Ok(units) => Ok(RealisedUnits {
            bytes: made.bytes,
            units,
        }),
        Err(error) => Err(error),
    }
}
