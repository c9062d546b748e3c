ghost use Rattle.std.specs.Prelude.{◌≡◌, Some, IfOk, IfErr};
ghost use Rattle.relinking.specs.declared.measuring.MeasuredEnd.{MeasuredEnd};
ghost use Rattle.printed_lines.specs.Texts.{text_of};
ghost use Rattle.command_line.specs.{ProgramRun.{RejectsProfiled}, RelinkFile.{RelinksTo}, Measured.{MeasuresTo}};

use crate::opening::open;
use crate::relinked_file::{RelinkedFile, relinked_file};
use command_language::CommandFault;
use relinking::{relink_analysed, relink_report};
use shelf_io::Progress;
use std::alloc::Global;

/// Relinks a file for a board. The program is run on the input to measure it, for the board's steps.
///
/// The error is the first fault of the board's text, of the file, of where it lies, of its code, of its regions, or the address fault
/// of the run. `Memory` comes only where no memory was left.
pub fn relink_file<'a>(
    alloc: Global,
    file: &'a [u8],
    board: &[u8],
    input: &[u8],
    progress: &dyn Progress,
) -> Result<RelinkedFile<'a>, CommandFault>
    ensures ok { IfOk result (λ r. RelinksTo file.now board.now input.now r.certificate.items r.file.items (text_of r.report)) }
    ensures end { IfOk result (λ r. (end : MeasuredEnd) × ((r.end ≡ Some end) × MeasuresTo file.now board.now input.now end)) }
    ensures err { IfErr result (RejectsProfiled board.now file.now input.now) }
{
    let opened = open(alloc, file, board)?;
    let made = relink_analysed(alloc, &opened.analysis, &opened.board, input, progress)?;
    let report = relink_report(alloc, &opened.analysis, &opened.board, &made.relinked)?;
    let profile = Some(made.profile);
    let end = Some(made.end);
    Ok(relinked_file(opened, made.relinked, report, profile, end))
}
