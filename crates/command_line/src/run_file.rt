ghost use Rattle.std.specs.Prelude.{◌≡◌, IfOk, IfErr, map, string_bytes};
ghost use Rattle.elf_reader.specs.{File.{plain_segment}, Loadable.{AreLoadable}};
ghost use Rattle.board_config.specs.Board.{mapped_ranges};
ghost use Rattle.flat_machine.specs.Start.{start_of};
ghost use Rattle.command_line.specs.RunFile.{RunsFrom, RunsTo, IsFirstCommandFault};

use crate::outcomes::outcome_line;
use board_config::{Board, read_board};
use command_language::CommandFault;
use elf_reader::ElfView;
use flat_machine::Flat;
use paged_store::PageStore;
use std::alloc::{AllocError, Global};

/// The result of a `run` command, before any of it is written.
#[derive(Drop)]
pub struct RunResult {
    /// What the program wrote.
    pub output: Vec<u8>,
    /// How the machine stands at the end, as a line.
    pub line: String,
}

/// Runs a file on the flat machine for the board's steps.
pub fn run_file(
    alloc: Global,
    file: &[u8],
    board: &[u8],
    input: &[u8],
) -> Result<RunResult, CommandFault>
    ensures ok { IfOk result (λ r. RunsTo file.now board.now input.now r.output.items (string_bytes r.line)) }
    ensures err { IfErr result (IsFirstCommandFault board.now file.now) }
{
    let board = read_board(alloc, board)?;
    let view = elf_reader::read(alloc, file)?;
    Ok(run_view(alloc, &view, &board, input)?)
}

/// Runs the program of a view.
fn run_view(
    alloc: Global,
    view: &ElfView<'_>,
    board: &Board,
    input: &[u8],
) -> Result<RunResult, AllocError>
    requires { AreLoadable (map plain_segment view.now.segments.items) }
    ensures { IfOk result (λ r. RunsFrom
        (start_of view.now.entry (map plain_segment view.now.segments.items)
        (mapped_ranges board.now) input.now)
        board.now.steps r.output.items (string_bytes r.line)) }
{
    let mut machine = Flat::new(alloc, view, board, input, PageStore::new(alloc))?;
    let outcome = machine.run(board.steps)?;
    let line = outcome_line(alloc, outcome)?;
    let output = machine.output().to_vec(alloc)?;
    Ok(RunResult { output, line })
}
