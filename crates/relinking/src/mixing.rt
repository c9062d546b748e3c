// Several runs of one program, each with a weight.
ghost use Rattle.std.specs.Prelude.{ℕ, List, map, take, Err, IfOk, IfErr};
ghost use Rattle.elf_reader.specs.File.{plain_view};
ghost use Rattle.placement_programme.specs.Views.{plain_programme};
ghost use Rattle.placement_candidates.specs.{FullViews.{plain_full}, Overlaid.{AreOverlaidObjects}, Parts.{plain_part}};
ghost use Rattle.relink_core.specs.Choices.{IsAnalysisOf};
ghost use Rattle.relinking.specs.{Runs.{ReportsCounts}, MixOfRuns.{plain_input, AreSomeInputs, IsPartOf, AreMixed, StatesTogether, FaultsFirst}};

use crate::stating::{full_of_run, objects_of};
use board_config::Board;
use placement_candidates::{Full, Part, mix, mix_more, select};
use placement_programme::Programme;
use profile_runner::ProfileFault;
use relink_core::Analysis;
use shelf_io::Progress;
use std::alloc::Global;
use std::slice;

/// An input of a program, and how much its run counts.
#[derive(Drop)]
pub struct WeightedBytes<'a> {
    /// From 1 to 1,000.
    pub weight: u32,
    pub bytes: &'a [u8],
}

/// What the run on an input states. The error is that of `full_of_run`.
fn part_of_run(
    alloc: Global,
    analysis: &Analysis<'_>,
    board: &Board,
    input: &WeightedBytes<'_>,
    objects: &[u32],
    progress: &dyn Progress,
) -> Result<Part, ProfileFault>
    requires analysis { (file : List ℕ) × IsAnalysisOf file board.now analysis.now }
    requires overlaid { AreOverlaidObjects analysis.now.code analysis.now.graph analysis.now.regions objects.now }
    ensures ok { IfOk result (λ part. IsPartOf analysis.now.view board.now analysis.now.graph analysis.now.code analysis.now.regions analysis.now.pieces.items objects.now (plain_input input.now) (plain_part part)) }
    ensures err { IfErr result (λ fault. ReportsCounts (plain_view analysis.now.view) board.now analysis.now.graph analysis.now.code analysis.now.regions input.now.bytes.now (Err fault)) }
{
    match full_of_run(alloc, analysis, board, input.bytes, objects, progress) {
        Ok(measured) => Ok(Part {
            weight: input.weight,
            full: measured.full,
        }),
        Err(fault) => Err(fault),
    }
}

/// What the run on the first input states, by its weight. The error is that of `part_of_run`.
fn mix_of_first(
    alloc: Global,
    analysis: &Analysis<'_>,
    board: &Board,
    inputs: &[WeightedBytes<'_>],
    objects: &[u32],
    progress: &dyn Progress,
) -> Result<Full, ProfileFault>
    requires analysis { (file : List ℕ) × IsAnalysisOf file board.now analysis.now }
    requires overlaid { AreOverlaidObjects analysis.now.code analysis.now.graph analysis.now.regions objects.now }
    requires inputs { AreSomeInputs (map plain_input inputs.now) }
    ensures ok { IfOk result (λ full. AreMixed analysis.now.view board.now analysis.now.graph analysis.now.code analysis.now.regions analysis.now.pieces.items objects.now (map plain_input (take 1 inputs.now)) (plain_full full)) }
    ensures err { IfErr result (FaultsFirst (plain_view analysis.now.view) board.now analysis.now.graph analysis.now.code analysis.now.regions (map plain_input inputs.now)) }
{
    let part = match part_of_run(alloc, analysis, board, &inputs[0], objects, progress) {
        Ok(part) => part,
        Err(fault) => return Err(fault),
    };
    match mix(alloc, slice::from_ref(&part)) {
        Ok(full) => Ok(full),
        Err(error) => Err(ProfileFault::from(error)),
    }
}

/// What the runs on inputs state together, one run after the other, so that no two are held at a time.
///
/// The error is the first address fault. `Memory` comes only where no memory was left.
fn mix_of_runs(
    alloc: Global,
    analysis: &Analysis<'_>,
    board: &Board,
    inputs: &[WeightedBytes<'_>],
    objects: &[u32],
    progress: &dyn Progress,
) -> Result<Full, ProfileFault>
    requires analysis { (file : List ℕ) × IsAnalysisOf file board.now analysis.now }
    requires overlaid { AreOverlaidObjects analysis.now.code analysis.now.graph analysis.now.regions objects.now }
    requires inputs { AreSomeInputs (map plain_input inputs.now) }
    ensures ok { IfOk result (λ full. AreMixed analysis.now.view board.now analysis.now.graph analysis.now.code analysis.now.regions analysis.now.pieces.items objects.now (map plain_input inputs.now) (plain_full full)) }
    ensures err { IfErr result (FaultsFirst (plain_view analysis.now.view) board.now analysis.now.graph analysis.now.code analysis.now.regions (map plain_input inputs.now)) }
{
    let mut total = match mix_of_first(alloc, analysis, board, inputs, objects, progress) {
        Ok(total) => total,
        Err(fault) => return Err(fault),
    };
    for k in 1..inputs.len() {
        let part = match part_of_run(alloc, analysis, board, &inputs[k], objects, progress) {
            Ok(part) => part,
            Err(fault) => return Err(fault),
        };
        total = mix_more(alloc, &total, &part)?;
    }
    Ok(total)
}

/// The programme of a placement that the runs of an analysed program on 1 to 16 inputs state together, each for the board's
/// steps: energies are sums over the runs, by their inputs' weights.
///
/// The error is the address fault of the first run that meets one. `Memory` comes only where no memory was left.
pub fn programme_of_runs(
    alloc: Global,
    analysis: &Analysis<'_>,
    board: &Board,
    inputs: &[WeightedBytes<'_>],
    progress: &dyn Progress,
) -> Result<Programme, ProfileFault>
    requires analysis { (file : List ℕ) × IsAnalysisOf file board.now analysis.now }
    requires inputs { AreSomeInputs (map plain_input inputs.now) }
    ensures ok { IfOk result (λ p. StatesTogether (plain_view analysis.now.view) board.now analysis.now.graph analysis.now.code analysis.now.regions analysis.now.pieces.items (map plain_input inputs.now) (plain_programme p)) }
    ensures err { IfErr result (FaultsFirst (plain_view analysis.now.view) board.now analysis.now.graph analysis.now.code analysis.now.regions (map plain_input inputs.now)) }
{
    let objects = objects_of(alloc, analysis)?;
    let full = mix_of_runs(alloc, analysis, board, inputs, &objects, progress)?;
    match select(alloc, &full) {
        Ok(programme) => Ok(programme),
        Err(error) => Err(ProfileFault::from(error)),
    }
}
