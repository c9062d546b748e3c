ghost use Rattle.std.specs.Prelude.{ℕ, List, Ok, Err, IfOk, IfErr};
ghost use Rattle.elf_reader.specs.File.{plain_view};
ghost use Rattle.relink_core.specs.Choices.{IsAnalysisOf};
ghost use Rattle.relinking.specs.{Runs.{ReportsCounts}, MeasuredRuns.{EndsSo}};

use board_config::Board;
use object_machine::{Outcome, Source};
use profile_runner::{Parts, Profile, ProfileFault, profile};
use relink_core::Analysis;
use shelf_io::Progress;
use std::alloc::Global;

/// How a measured run ended.
#[derive(Clone, Copy, PartialEq, Eq)]
pub struct MeasuredEnd {
    /// How many steps the machine took.
    pub steps: u64,
    /// How it stood behind the last.
    pub outcome: Outcome,
    /// The address of the unit at which it stood then.
    pub at: u32,
}

/// A run that was measured.
#[derive(Drop)]
pub struct MeasuredRun {
    /// What happened, counted.
    pub profile: Profile,
    pub end: MeasuredEnd,
}

/// Runs an analysed program for the board's steps, and counts what happens.
///
/// The error is the address fault of the run. `Memory` comes only where no memory was left.
pub fn measured_run(
    alloc: Global,
    analysis: &Analysis<'_>,
    board: &Board,
    input: &[u8],
    progress: &dyn Progress,
) -> Result<MeasuredRun, ProfileFault>
    requires { (file : List ℕ) × IsAnalysisOf file board.now analysis.now }
    ensures ok { IfOk result (λ measured. ReportsCounts (plain_view analysis.now.view) board.now analysis.now.graph analysis.now.code analysis.now.regions input.now (Ok measured.profile)) }
    ensures end { IfOk result (λ measured. EndsSo (plain_view analysis.now.view) board.now analysis.now.graph input.now measured.end) }
    ensures err { IfErr result (λ fault. ReportsCounts (plain_view analysis.now.view) board.now analysis.now.graph analysis.now.code analysis.now.regions input.now (Err fault)) }
{
    let mut source = Source::new(
        alloc,
        &analysis.view,
        &analysis.graph,
        &analysis.code,
        board,
        input,
    )?;
    let parts = Parts {
        code: &analysis.code,
        graph: &analysis.graph,
        regions: &analysis.regions,
    };
    match profile(alloc, &mut source, &parts, board.steps, progress) {
        Ok(profile) => {
            let end = MeasuredEnd {
                steps: profile.steps,
                outcome: profile.outcome,
                at: source.at(),
            };
            Ok(MeasuredRun { profile, end })
        }
        Err(fault) => Err(fault),
    }
}
