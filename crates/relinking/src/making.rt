ghost use Rattle.std.specs.Prelude.{◌≡◌, ℕ, List, map, Err, IfOk, IfErr};
ghost use Rattle.elf_reader.specs.File.{plain_view};
ghost use Rattle.placement_programme.specs.Views.{plain_programme};
ghost use Rattle.relinking.specs.{Runs.{ReportsCounts}, MixOfRuns.{plain_input, AreSomeInputs, FaultsFirst}, Relink.{IsRelinkedFor, AreChoicesFor, RelinksBy, RelinksTogether}};
ghost use Rattle.relink_core.specs.Choices.{IsAnalysisOf};

use crate::finding::find_choice;
use crate::measuring::MeasuredEnd;
use crate::mixing::{WeightedBytes, programme_of_runs};
use crate::stating::programme_of_run;
use board_config::Board;
use branch_bound::Found;
use placement_programme::Programme;
use profile_runner::{Profile, ProfileFault};
use relink_core::{Analysis, Realised, realise};
use shelf_io::Progress;
use std::alloc::{AllocError, Global};

/// A file that was relinked.
#[derive(Drop)]
pub struct Relinked {
    /// The result, an ELF file, and what has moved in it.
    pub result: Realised,
    /// What the runs of the program state.
    pub programme: Programme,
    /// The choice that was found of it.
    pub found: Found,
    /// The text of the choice's certificate.
    pub certificate: Vec<u8>,
}

/// A file that was relinked by one run.
#[derive(Drop)]
pub struct RelinkedRun {
    pub relinked: Relinked,
    /// How the run ended.
    pub end: MeasuredEnd,
    /// What the run did, counted.
    pub profile: Profile,
}

/// Relinks a file that is analysed: what its run on the input makes worth while, found with the board's budget of nodes,
/// stands in the scratchpad. The program is run for the board's steps.
///
/// The error is the address fault of the run. `Memory` comes only where no memory was left.
pub fn relink_analysed(
    alloc: Global,
    analysis: &Analysis<'_>,
    board: &Board,
    input: &[u8],
    progress: &dyn Progress,
) -> Result<RelinkedRun, ProfileFault>
    requires { (file : List ℕ) × IsAnalysisOf file board.now analysis.now }
    ensures ok { IfOk result (λ r. (file : List ℕ) → IsAnalysisOf file board.now analysis.now → RelinksBy file board.now analysis.now.graph analysis.now.code analysis.now.regions analysis.now.pieces.items input.now r) }
    ensures err { IfErr result (λ fault. ReportsCounts (plain_view analysis.now.view) board.now analysis.now.graph analysis.now.code analysis.now.regions input.now (Err fault)) }
{
    let measured = programme_of_run(alloc, analysis, board, input, progress)?;
    match relink_programme(alloc, analysis, board, measured.programme, progress) {
        Ok(relinked) => {
            let end = measured.end;
            let profile = measured.profile;
            Ok(RelinkedRun {
                relinked,
                end,
                profile,
            })
        }
        Err(error) => Err(ProfileFault::from(error)),
    }
}

/// Relinks a file that is analysed by what its runs on 1 to 16 inputs state together, each for the board's steps.
///
/// The error is the address fault of the first run that meets one. `Memory` comes only where no memory was left.
pub fn relink_runs(
    alloc: Global,
    analysis: &Analysis<'_>,
    board: &Board,
    inputs: &[WeightedBytes<'_>],
    progress: &dyn Progress,
) -> Result<Relinked, ProfileFault>
    requires analysis { (file : List ℕ) × IsAnalysisOf file board.now analysis.now }
    requires inputs { AreSomeInputs (map plain_input inputs.now) }
    ensures ok { IfOk result (λ r. (file : List ℕ) → IsAnalysisOf file board.now analysis.now → RelinksTogether file board.now analysis.now.graph analysis.now.code analysis.now.regions analysis.now.pieces.items (map plain_input inputs.now) r) }
    ensures err { IfErr result (FaultsFirst (plain_view analysis.now.view) board.now analysis.now.graph analysis.now.code analysis.now.regions (map plain_input inputs.now)) }
{
    let programme = programme_of_runs(alloc, analysis, board, inputs, progress)?;
    match relink_programme(alloc, analysis, board, programme, progress) {
        Ok(relinked) => Ok(relinked),
        Err(error) => Err(ProfileFault::from(error)),
    }
}

/// Relinks a file that is analysed by a programme, each choice of which can be realised: a choice is searched with the
/// board's budget of nodes. It fails only where no memory was left.
fn relink_programme(
    alloc: Global,
    analysis: &Analysis<'_>,
    board: &Board,
    programme: Programme,
    progress: &dyn Progress,
) -> Result<Relinked, AllocError>
    requires analysis { (file : List ℕ) × IsAnalysisOf file board.now analysis.now }
    requires choices { AreChoicesFor board.now analysis.now.graph analysis.now.code analysis.now.regions analysis.now.pieces.items (plain_programme programme) }
    ensures programme { IfOk result (λ r. plain_programme r.programme ≡ plain_programme programme) }
    ensures made { IfOk result (λ r. (file : List ℕ) → IsAnalysisOf file board.now analysis.now → IsRelinkedFor file board.now analysis.now.graph analysis.now.code analysis.now.regions analysis.now.pieces.items r) }
{
    let solution = find_choice(alloc, &programme, board.nodes, progress)?;
    let result = realise(alloc, analysis, board, &programme, &solution.found.choice)?;
    Ok(Relinked {
        result,
        programme,
        found: solution.found,
        certificate: solution.certificate,
    })
}
