ghost use Rattle.std.specs.Prelude.{ℕ, List, Err, IfOk, IfErr};
ghost use Rattle.elf_reader.specs.File.{plain_view};
ghost use Rattle.board_config.specs.declared.board.Board.{Board};
ghost use Rattle.placement_programme.specs.Views.{plain_programme};
ghost use Rattle.placement_candidates.specs.{FullViews.{plain_full}, Overlaid.{AreOverlaidObjects}};
ghost use Rattle.relink_core.specs.Choices.{IsAnalysisOf};
ghost use Rattle.relinking.specs.{Runs.{ReportsCounts}, MeasuredRuns.{EndsSo}, ProgrammeOfRun.{CountsProgramme, StatesFull}};

use crate::measuring::{MeasuredEnd, measured_run};
use board_config::Board;
use placement_candidates::{Full, Measured, overlaid_objects, select, whole_full};
use placement_programme::Programme;
use profile_runner::{Profile, ProfileFault};
use relink_core::Analysis;
use shelf_io::Progress;
use std::alloc::{AllocError, Global};

/// What a run states.
#[derive(Drop)]
pub struct MeasuredProgramme {
    /// The programme of a placement.
    pub programme: Programme,
    /// How the run ended.
    pub end: MeasuredEnd,
    /// What the run did, counted.
    pub profile: Profile,
}

/// The objects of an analysed program that may be overlaid, by number. It fails only where no memory was left.
pub(crate) fn objects_of(alloc: Global, analysis: &Analysis<'_>) -> Result<Vec<u32>, AllocError>
    requires { (file : List ℕ) × ((board : Board) × IsAnalysisOf file board analysis.now) }
    ensures { IfOk result (λ objects. AreOverlaidObjects analysis.now.code analysis.now.graph analysis.now.regions objects.items) }
{
    overlaid_objects(
        alloc,
        &analysis.code,
        &analysis.graph,
        &analysis.live,
        &analysis.regions,
    )
}

/// All that a run states, also what saves nothing.
#[derive(Drop)]
pub(crate) struct MeasuredFull {
    pub full: Full,
    /// How the run ended.
    pub end: MeasuredEnd,
    /// What the run did, counted.
    pub profile: Profile,
}

/// All that the run of an analysed program states for objects that may be overlaid, for the board's steps.
///
/// The error is the address fault of the run. `Memory` comes only where no memory was left.
pub(crate) fn full_of_run(
    alloc: Global,
    analysis: &Analysis<'_>,
    board: &Board,
    input: &[u8],
    objects: &[u32],
    progress: &dyn Progress,
) -> Result<MeasuredFull, ProfileFault>
    requires analysis { (file : List ℕ) × IsAnalysisOf file board.now analysis.now }
    requires overlaid { AreOverlaidObjects analysis.now.code analysis.now.graph analysis.now.regions objects.now }
    ensures ok { IfOk result (λ measured. StatesFull analysis.now.view board.now analysis.now.graph analysis.now.code analysis.now.regions analysis.now.pieces.items objects.now input.now (plain_full measured.full) measured.profile) }
    ensures end { IfOk result (λ measured. EndsSo (plain_view analysis.now.view) board.now analysis.now.graph input.now measured.end) }
    ensures err { IfErr result (λ fault. ReportsCounts (plain_view analysis.now.view) board.now analysis.now.graph analysis.now.code analysis.now.regions input.now (Err fault)) }
{
    let measured = measured_run(alloc, analysis, board, input, progress)?;
    let tables = Measured {
        profile: &measured.profile,
        graph: &analysis.graph,
        code: &analysis.code,
        regions: &analysis.regions,
        pieces: &analysis.pieces,
        board,
    };
    match whole_full(alloc, &tables, objects) {
        Ok(full) => {
            let end = measured.end;
            let profile = measured.profile;
            Ok(MeasuredFull { full, end, profile })
        }
        Err(error) => Err(ProfileFault::from(error)),
    }
}

/// The programme of a placement that the run of an analysed program states, for the board's steps: on one side what stands
/// in the scratchpad throughout, on the other also what stands there while a region is current, or is kept for a pair of
/// regions.
///
/// The error is the address fault of the run. `Memory` comes only where no memory was left.
pub fn programme_of_run(
    alloc: Global,
    analysis: &Analysis<'_>,
    board: &Board,
    input: &[u8],
    progress: &dyn Progress,
) -> Result<MeasuredProgramme, ProfileFault>
    requires { (file : List ℕ) × IsAnalysisOf file board.now analysis.now }
    ensures ok { IfOk result (λ measured. CountsProgramme analysis.now.view board.now analysis.now.graph analysis.now.code analysis.now.regions analysis.now.pieces.items input.now (plain_programme measured.programme) measured.profile) }
    ensures end { IfOk result (λ measured. EndsSo (plain_view analysis.now.view) board.now analysis.now.graph input.now measured.end) }
    ensures err { IfErr result (λ fault. ReportsCounts (plain_view analysis.now.view) board.now analysis.now.graph analysis.now.code analysis.now.regions input.now (Err fault)) }
{
    let objects = objects_of(alloc, analysis)?;
    let measured = full_of_run(alloc, analysis, board, input, &objects, progress)?;
    match select(alloc, &measured.full) {
        Ok(programme) => {
            let end = measured.end;
            let profile = measured.profile;
            Ok(MeasuredProgramme {
                programme,
                end,
                profile,
            })
        }
        Err(error) => Err(ProfileFault::from(error)),
    }
}
