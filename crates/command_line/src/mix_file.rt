ghost use Rattle.std.specs.Prelude.{◌≡◌, None, IfOk, IfErr, map};
ghost use Rattle.relinking.specs.MixOfRuns.{plain_input, AreSomeInputs};
ghost use Rattle.printed_lines.specs.Texts.{text_of};
ghost use Rattle.command_line.specs.MixFile.{MixesTo, RejectsRuns};

use crate::opening::open;
use crate::relinked_file::{RelinkedFile, relinked_file};
use command_language::CommandFault;
use relinking::{WeightedBytes, relink_report, relink_runs};
use shelf_io::Progress;
use std::alloc::Global;

/// Relinks a file for a board and several inputs with weights. The program is run on each input to measure it, for the
/// board's steps.
///
/// The error is the first fault of the board's text, of the file, of where it lies, of its code, of its regions, or the
/// address fault of the first run that meets one. `Memory` comes only where no memory was left.
pub fn mix_file<'a>(
    alloc: Global,
    file: &'a [u8],
    board: &[u8],
    inputs: &[WeightedBytes<'_>],
    progress: &dyn Progress,
) -> Result<RelinkedFile<'a>, CommandFault>
    requires { AreSomeInputs (map plain_input inputs.now) }
    ensures ok { IfOk result (λ r. MixesTo file.now board.now (map plain_input inputs.now) r.certificate.items r.file.items (text_of r.report)) }
    ensures end { IfOk result (λ r. r.end ≡ None) }
    ensures err { IfErr result (RejectsRuns board.now file.now (map plain_input inputs.now)) }
{
    let opened = open(alloc, file, board)?;
    let relinked = relink_runs(alloc, &opened.analysis, &opened.board, inputs, progress)?;
    let report = relink_report(alloc, &opened.analysis, &opened.board, &relinked)?;
    Ok(relinked_file(opened, relinked, report, None, None))
}
