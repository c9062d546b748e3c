//! The map of the file that realises the choice of a certificate.
ghost use Rattle.std.specs.Prelude.{◌≡◌, ◌≤◌, ℕ, List, IfOk, IfErr};
ghost use Rattle.placement_programme.specs.Views.{plain_programme, plain_choice};
ghost use Rattle.result_laws.specs.{Choices.{IsChoiceFor}, PlacementLaws.{regions_on}};
ghost use Rattle.relink_core.specs.Choices.{IsAnalysisOf};
ghost use Rattle.command_line.specs.{Analysed.{IsOpened}, PaidFile.{CountsFor, RejectsPaid}};
ghost use Rattle.result_map.specs.MapFile.{MapsTo, MapsMade};

use crate::lines::{MapParts, map_text};
use command_language::CommandFault;
use command_line::{Opened, accepted_choice, open};
use placement_programme::{Choice, Programme};
use region_former::RegionTable;
use relink_core::{realise, unit_map};
use relinking::{MeasuredProgramme, programme_of_run};
use shelf_io::NoProgress;
use std::alloc::{AllocError, Global};

/// Checks a certificate as `check` does, makes the file that realises its choice, and tells in rows what stands where in it.
///
/// The error is that of `paid`. `Memory` comes only where no memory was left.
pub fn map_file(
    alloc: Global,
    file: &[u8],
    board: &[u8],
    input: &[u8],
    cert: &[u8],
) -> Result<Vec<u8>, CommandFault>
    ensures ok { IfOk result (λ text. MapsTo file.now board.now input.now cert.now text.items) }
    ensures err { IfErr result (RejectsPaid board.now file.now input.now cert.now) }
{
    let opened = open(alloc, file, board)?;
    let measured = programme_of_run(alloc, &opened.analysis, &opened.board, input, &NoProgress)?;
    match choice_map(alloc, &opened, &measured, input, cert) {
        Ok(text) => Ok(text),
        Err(fault) => Err(fault),
    }
}

/// The map for the choice of a certificate for the programme of a run.
fn choice_map(
    alloc: Global,
    opened: &Opened<'_>,
    measured: &MeasuredProgramme,
    input: &[u8],
    cert: &[u8],
) -> Result<Vec<u8>, CommandFault>
    requires opened { (board_text : List ℕ) × ((file : List ℕ) × IsOpened board_text file opened.now) }
    requires counts { CountsFor opened.now input.now measured.now }
    ensures ok { IfOk result (λ text. (board_text file : List ℕ) → IsOpened board_text file opened.now → MapsTo file board_text input.now cert.now text.items) }
    ensures err { IfErr result (λ fault. (board_text file : List ℕ) → IsOpened board_text file opened.now → RejectsPaid board_text file input.now cert.now fault) }
{
    match accepted_choice(alloc, &measured.programme, cert) {
        Ok(accepted) => {
            match made_map(alloc, opened, &measured.programme, &accepted.choice) {
                Ok(text) => Ok(text),
                Err(error) => Err(CommandFault::from(error)),
            }
        }
        Err(fault) => Err(fault),
    }
}

/// How many regions a side of a programme has.
fn region_count(on: bool, regions: &RegionTable) -> u32
    ensures is { result ≡ regions_on on regions.now }
    ensures few { result ≤ 8 }
{
    if on { regions.count } else { 0 }
}

/// The map for a choice: of the file that realises it.
fn made_map(
    alloc: Global,
    opened: &Opened<'_>,
    programme: &Programme,
    choice: &Choice,
) -> Result<Vec<u8>, AllocError>
    requires opened { (file : List ℕ) × IsAnalysisOf file opened.now.board opened.now.analysis }
    requires choice { IsChoiceFor opened.now.board opened.now.analysis.graph opened.now.analysis.code opened.now.analysis.regions opened.now.analysis.pieces.items (plain_programme programme.now) (plain_choice choice.now) }
    ensures { IfOk result (λ text. (file : List ℕ) → IsAnalysisOf file opened.now.board opened.now.analysis → MapsMade file opened.now (plain_programme programme.now) (plain_choice choice.now) text.items) }
{
    let analysis = &opened.analysis;
    let made = realise(alloc, analysis, &opened.board, programme, choice)?;
    let units = unit_map(alloc, analysis, &made)?;
    let parts = MapParts {
        view: &analysis.view,
        patch: opened.board.patch,
        graph: &analysis.graph,
        functions: &analysis.code.functions,
        regions: region_count(choice.on, &analysis.regions),
        made: &made,
        units: &units,
    };
    match map_text(alloc, &parts) {
        Ok(text) => Ok(text),
        Err(error) => Err(error),
    }
}
