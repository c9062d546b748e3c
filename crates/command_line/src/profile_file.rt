ghost use Rattle.std.specs.Prelude.{IfOk, IfErr};
ghost use Rattle.printed_lines.specs.Texts.{text_of};
ghost use Rattle.command_line.specs.{ProgramRun.{RejectsProfiled}, ProfileFile.{ProfilesTo}, Measured.{MeasuresTo}};

use crate::measured_text::MeasuredText;
use crate::opening::open;
use command_language::CommandFault;
use printed_lines::profile_lines;
use relinking::measured_run;
use shelf_io::Progress;
use std::alloc::Global;

/// Runs the program of a file for the board's steps, and tells what happened in lines.
///
/// The error is the first fault of the board's text, of the file, of where it lies, of its code, of its regions, or the address fault
/// of the run. `Memory` comes only where no memory was left.
pub fn profile_file<'a>(
    alloc: Global,
    file: &'a [u8],
    board: &[u8],
    input: &[u8],
    progress: &dyn Progress,
) -> Result<MeasuredText<'a>, CommandFault>
    ensures ok { IfOk result (λ made. ProfilesTo file.now board.now input.now (text_of made.text)) }
    ensures end { IfOk result (λ made. MeasuresTo file.now board.now input.now made.end) }
    ensures err { IfErr result (RejectsProfiled board.now file.now input.now) }
{
    let opened = open(alloc, file, board)?;
    let measured = measured_run(alloc, &opened.analysis, &opened.board, input, progress)?;
    let text = profile_lines(
        alloc,
        &opened.analysis.view,
        &opened.analysis.graph,
        &opened.analysis.code,
        &measured.profile,
    )?;
    let end = measured.end;
    Ok(MeasuredText { text, end, opened })
}
