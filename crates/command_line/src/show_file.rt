ghost use Rattle.std.specs.Prelude.{IfOk, IfErr};
ghost use Rattle.printed_lines.specs.Texts.{text_of};
ghost use Rattle.command_line.specs.{Analysed.{RejectsAnalysed}, ShowFile.{ShowsTo}};

use crate::opened::Opened;
use crate::opening::open;
use command_language::CommandFault;
use printed_lines::{Text, show_lines};
use std::alloc::Global;

/// The result of a `show` command, before it is printed.
#[derive(Drop)]
pub struct ShownFile<'a> {
    pub text: Text<'a>,
    pub opened: Opened<'a>,
}

/// Tells in lines what of the program of a file may move on a board, and the regions of its functions.
///
/// The error is the first fault of the board's text, of the file, of where it lies, of its code, or of its regions.
/// `Memory` comes only where no memory was left.
pub fn show_file<'a>(
    alloc: Global,
    file: &'a [u8],
    board: &[u8],
) -> Result<ShownFile<'a>, CommandFault>
    ensures ok { IfOk result (λ shown. ShowsTo file.now board.now (text_of shown.text)) }
    ensures err { IfErr result (RejectsAnalysed board.now file.now) }
{
    let opened = open(alloc, file, board)?;
    let text = show_lines(
        alloc,
        &opened.analysis.view,
        &opened.analysis.graph,
        &opened.analysis.code,
        &opened.analysis.regions,
    )?;
    Ok(ShownFile { text, opened })
}
