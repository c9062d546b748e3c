ghost use Rattle.std.specs.Prelude.{◌≡◌, IfOk, IfErr};
ghost use Rattle.printed_lines.specs.Endings.{IsAddressFault};
ghost use Rattle.command_line.specs.CompareFiles.{ComparesTo, RejectsCompared, HasEnding, AnswersComparison, RejectsComparison, same_text};

use crate::opened::Opened;
use crate::opening::open;
use command_language::CommandFault;
use compare_runner::{Comparison, compare};
use object_machine::Outcome;
use printed_lines::ending_line;
use std::alloc::{AllocError, Global};

/// The result of a `compare` command, before it is printed.
#[derive(Drop)]
pub struct ComparedFiles<'a> {
    pub text: Vec<u8>,
    pub opened: Opened<'a>,
}

/// Runs the program of a file and a file that it was relinked to, each on its machine, on one input. Where they do the
/// same, it tells so in lines.
///
/// The error is the first fault of the board's text, of the file, of where it lies, of its code, of its regions, of the relinked file,
/// the address fault of the program's run, or a difference. `Memory` comes only where no memory was left.
pub fn compare_files<'a>(
    alloc: Global,
    file: &'a [u8],
    relinked: &[u8],
    board: &[u8],
    input: &[u8],
) -> Result<ComparedFiles<'a>, CommandFault>
    ensures ok { IfOk result (λ made. ComparesTo file.now relinked.now board.now input.now made.text.items) }
    ensures err { IfErr result (RejectsCompared board.now file.now relinked.now input.now) }
{
    let opened = open(alloc, file, board)?;
    let view = elf_reader::read(alloc, relinked)?;
    let comparison = compare(
        alloc,
        &opened.analysis,
        &view,
        &opened.board,
        input,
        opened.board.steps,
    )?;
    match answer(alloc, comparison) {
        Ok(text) => Ok(ComparedFiles { text, opened }),
        Err(fault) => Err(fault),
    }
}

/// What is printed of a comparison, or why it is rejected.
fn answer(alloc: Global, comparison: Comparison) -> Result<Vec<u8>, CommandFault>
    requires { HasEnding comparison }
    ensures ok { IfOk result (λ text. AnswersComparison comparison text.items) }
    ensures err { IfErr result (RejectsComparison comparison) }
{
    match comparison {
        Comparison::Same { outcome } => Ok(same_lines(alloc, outcome)?),
        Comparison::Differs { at } => Err(CommandFault::Differs { at }),
        Comparison::SourceFault { pc, why } => Err(CommandFault::SourceFault { pc, why }),
    }
}

/// The lines of a program and a result that do the same.
fn same_lines(alloc: Global, outcome: Outcome) -> Result<Vec<u8>, AllocError>
    requires { IsAddressFault outcome → ⊥ }
    ensures { IfOk result (λ text. text.items ≡ same_text outcome) }
{
    let ending = ending_line(alloc, outcome)?;
    let text = format!(in alloc; "same\n{ending}")?;
    Ok(text.into_bytes())
}
