ghost use Rattle.std.specs.Prelude.{◌≡◌, ◌+◌, ◌*◌, IfOk, true};
ghost use Rattle.elf_reader.specs.{File.{plain_view, segments_of}, Loadable.{AreLoadable}};
ghost use Rattle.board_config.specs.Board.{IsLawful, mapped_ranges};
ghost use Rattle.flat_machine.specs.Start as flat_start;
ghost use Rattle.loaded_file.specs.Read.{IsRead};
ghost use Rattle.object_graph.specs.Graphs.{IsGraph};
ghost use Rattle.code_blocks.specs.{Leaders.{is_leader}, Blocks.{IsCode}};
ghost use Rattle.object_machine.specs.{Program.{Program, program_of}, Start.{start_of}, State.{SourceState}, Machine.{IsProgram, state_of}};
ghost use Rattle.result_laws.specs.ResultLaws as laws;
ghost use Rattle.compare_runner.specs.Comparing.{Compares};

use crate::judging::judge;
use crate::running::{run_result, run_source};
use board_config::Board;
use elf_reader::ElfView;
use flat_machine::Flat;
use object_machine::{Outcome, Source};
use paged_store::PageStore;
use relink_core::Analysis;
use std::alloc::{AllocError, Global};

/// What a program and its result are beside each other.
#[derive(Clone, Copy, PartialEq, Eq)]
pub enum Comparison {
    /// The result wrote the bytes of the program and ended as it did: both exited with one code, or both
    /// trapped. Or the program goes on, and its bytes are the first of the result's. The outcome is the
    /// program's.
    Same { outcome: Outcome },
    /// They are not the same. Their bytes differ first at place `at`, from 0, or one of them ends there.
    Differs { at: u64 },
    /// The program met the address fault of the unit at `pc`, for the reason `why` of
    /// `Outcome::AddressFault`. Nothing is told of the result, which was not run.
    SourceFault { pc: u32, why: u32 },
}

/// Compares a program with its result on an input.
///
/// The program takes `n` steps on the machine whose objects have no addresses, or fewer where it ends. The
/// result takes steps on the flat machine until it ends, or the program goes on and the result has written as
/// many bytes, or `(k + 1) * (12 * size + 256)` steps were taken, where the program took `k` steps and `size`
/// is the scratchpad's.
///
/// It fails only where no memory was left.
pub fn compare(
    alloc: Global,
    source: &Analysis,
    relinked: &ElfView,
    board: &Board,
    input: &[u8],
    n: u64,
) -> Result<Comparison, AllocError>
    requires read { IsRead source.now.view }
    requires graph { IsGraph (plain_view source.now.view) board.now source.now.graph }
    requires code { IsCode (plain_view source.now.view) source.now.code }
    requires lawful { IsLawful board.now }
    requires entry { is_leader (plain_view source.now.view) source.now.view.entry ≡ true }
    requires loadable { AreLoadable (segments_of relinked.now) }
    ensures { let v = plain_view source.now.view in
        let p = program_of v board.now source.now.graph in
        let start = flat_start.start_of relinked.now.entry (segments_of relinked.now) (mapped_ranges board.now) input.now in
        IfOk result (Compares p board.now n (start_of v p source.now.graph input.now) start) }
{
    let mut program = Source::new(
        alloc,
        &source.view,
        &source.graph,
        &source.code,
        board,
        input,
    )?;
    match compare_from(alloc, &mut program, relinked, board, input, n) {
        Ok(comparison) => Ok(comparison),
        Err(error) => Err(error),
    }
}

/// Compares what a program does from where it is with what its result does.
fn compare_from(
    alloc: Global,
    program: &mut Source,
    relinked: &ElfView,
    board: &Board,
    input: &[u8],
    n: u64,
) -> Result<Comparison, AllocError>
    requires { AreLoadable (segments_of relinked.now) }
    ensures { let start = flat_start.start_of relinked.now.entry (segments_of relinked.now) (mapped_ranges board.now) input.now in
        IfOk result (λ r. (p : Program) → IsProgram p program.old → (s : SourceState) → state_of p program.old ≡ s
        → Compares p board.now n s start r) }
{
    let taken = run_source(program, n)?;
    let outcome = program.outcome();
    if let Outcome::AddressFault { pc, why } = outcome {
        return Ok(Comparison::SourceFault { pc, why });
    }
    let mut machine = Flat::new(alloc, relinked, board, input, PageStore::new(alloc))?;
    let most = most_steps(board, taken);
    let written = program.output();
    let other = run_result(&mut machine, outcome, written.len(), most)?;
    Ok(judge(outcome, written, other, machine.output()))
}

/// How many steps the result of a program that took so many may take.
fn most_steps(board: &Board, taken: u64) -> u128
    ensures { result ≡ (taken + 1) * laws.most_steps board.now }
{
    let size = board.spm.size;
    (u128::from(taken) + 1) * (12 * u128::from(size) + 256)
}
