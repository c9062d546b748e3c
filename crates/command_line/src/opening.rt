ghost use Rattle.std.specs.Prelude.{IfOk, IfErr};
ghost use Rattle.command_line.specs.Analysed.{IsOpened, RejectsAnalysed};

use crate::opened::Opened;
use board_config::read_board;
use command_language::CommandFault;
use relink_core::analyse;
use std::alloc::Global;

/// Reads a board, and analyses a file for it.
///
/// The error is the first fault of the board's text, of the file, of where it lies, of its code, or of its regions.
/// `Memory` comes only where no memory was left.
pub fn open<'a>(alloc: Global, file: &'a [u8], board: &[u8]) -> Result<Opened<'a>, CommandFault>
    ensures ok { IfOk result (IsOpened board.now file.now) }
    ensures err { IfErr result (RejectsAnalysed board.now file.now) }
{
    let board = read_board(alloc, board)?;
    let analysis = analyse(alloc, file, &board)?;
    Ok(Opened { board, analysis })
}
