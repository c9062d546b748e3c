ghost use Rattle.std.specs.Prelude.{◌≡◌, ℕ, List, min, IfOk, IfErr, string_bytes};
ghost use Rattle.std.specs.List.{AllPairs};
ghost use Rattle.elf_reader.specs.{File.{plain_view, segments_of}, Loadable.{AreLoadable}};
ghost use Rattle.placement_programme.specs.{Programme.{IsFeasible}, Views.{plain_programme, plain_choice}};
ghost use Rattle.relink_core.specs.{Choices.{IsAnalysisOf}, UnitMaps.{StandsBefore}};
ghost use Rattle.command_line.specs.{Analysed.{IsOpened}, Measured.{MeasuresTo}, PaidFile.{CountsFor, RejectsMade, RejectsPaid}, TraceFile.{TracesTo, MakesTrace, StartsIn, TellsLines, traced_line}};

use crate::accepting::accepted_choice;
use crate::opened::Opened;
use crate::opening::open;
use board_config::Board;
use command_language::CommandFault;
use compare_runner::{TracedResult, moved_is_traced, results_start, trace, unmoved_is_traced};
use elf_reader::ElfView;
use placement_programme::Choice;
use relink_core::{UnitAt, realise_units};
use relinking::{MeasuredEnd, MeasuredProgramme, programme_of_run};
use shelf_io::NoProgress;
use std::alloc::{AllocError, Global};

/// The result of a `trace` command, before any of it is written.
#[derive(Drop)]
pub struct TracedFile<'a> {
    /// The steps of both runs, in lines.
    pub text: Vec<u8>,
    /// How many steps of the program are traced, as a line.
    pub line: String,
    /// How the measured run ended.
    pub end: MeasuredEnd,
    pub opened: Opened<'a>,
}

/// A trace, with the line on it.
#[derive(Drop)]
struct TraceLines {
    text: Vec<u8>,
    line: String,
}

/// Checks a certificate as `check` does, and runs the file's program beside the file that realises its choice: at most `count`
/// steps of the program, and at most the board's.
///
/// The error is that of `paid`. `Memory` comes only where no memory was left.
pub fn trace_file<'a>(
    alloc: Global,
    file: &'a [u8],
    board: &[u8],
    input: &[u8],
    cert: &[u8],
    count: u32,
) -> Result<TracedFile<'a>, CommandFault>
    ensures ok { IfOk result (λ r. TracesTo file.now board.now input.now cert.now count r.text.items (string_bytes r.line)) }
    ensures end { IfOk result (λ r. MeasuresTo file.now board.now input.now r.end) }
    ensures err { IfErr result (RejectsPaid board.now file.now input.now cert.now) }
{
    let opened = open(alloc, file, board)?;
    let measured = programme_of_run(alloc, &opened.analysis, &opened.board, input, &NoProgress)?;
    match choice_trace(alloc, &opened, &measured, input, cert, count) {
        Ok(lines) => Ok(TracedFile {
            text: lines.text,
            line: lines.line,
            end: measured.end,
            opened,
        }),
        Err(fault) => Err(fault),
    }
}

/// The trace for the choice of a certificate for the programme of a run.
fn choice_trace(
    alloc: Global,
    opened: &Opened<'_>,
    measured: &MeasuredProgramme,
    input: &[u8],
    cert: &[u8],
    count: u32,
) -> Result<TraceLines, CommandFault>
    requires opened { (board_text : List ℕ) × ((file : List ℕ) × IsOpened board_text file opened.now) }
    requires counts { CountsFor opened.now input.now measured.now }
    ensures ok { IfOk result (λ lines. (board_text file : List ℕ) → IsOpened board_text file opened.now → TracesTo file board_text input.now cert.now count lines.text.items (string_bytes lines.line)) }
    ensures err { IfErr result (λ fault. (board_text file : List ℕ) → IsOpened board_text file opened.now → RejectsPaid board_text file input.now cert.now fault) }
{
    moved_is_traced();
    unmoved_is_traced();
    match accepted_choice(alloc, &measured.programme, cert) {
        Ok(accepted) => {
            match made_trace(alloc, opened, measured, &accepted.choice, input, count) {
                Ok(lines) => Ok(lines),
                Err(fault) => Err(fault),
            }
        }
        Err(fault) => Err(fault),
    }
}

/// The trace for a choice: of the program beside the file that realises it.
fn made_trace(
    alloc: Global,
    opened: &Opened<'_>,
    measured: &MeasuredProgramme,
    choice: &Choice,
    input: &[u8],
    count: u32,
) -> Result<TraceLines, CommandFault>
    requires opened { (file : List ℕ) × IsAnalysisOf file opened.now.board opened.now.analysis }
    requires counts { CountsFor opened.now input.now measured.now }
    requires feasible { IsFeasible (plain_programme measured.now.programme) (plain_choice choice.now) }
    ensures ok { IfOk result (λ lines. (file : List ℕ) → IsAnalysisOf file opened.now.board opened.now.analysis → MakesTrace file opened.now (plain_programme measured.now.programme) (plain_choice choice.now) input.now count lines.text.items (string_bytes lines.line)) }
    ensures err { IfErr result (λ fault. (file : List ℕ) → IsAnalysisOf file opened.now.board opened.now.analysis → RejectsMade file opened.now (plain_programme measured.now.programme) (plain_choice choice.now) fault) }
{
    results_start();
    let programme = &measured.programme;
    let made = realise_units(alloc, &opened.analysis, &opened.board, programme, choice)?;
    let view = elf_reader::read(alloc, &made.bytes)?;
    match view_trace(alloc, opened, &view, &made.units, input, count) {
        Ok(lines) => Ok(lines),
        Err(error) => Err(CommandFault::from(error)),
    }
}

/// The same trace, where the file was made and read.
fn view_trace(
    alloc: Global,
    opened: &Opened<'_>,
    view: &ElfView<'_>,
    units: &[UnitAt],
    input: &[u8],
    count: u32,
) -> Result<TraceLines, AllocError>
    requires opened { (file : List ℕ) × IsAnalysisOf file opened.now.board opened.now.analysis }
    requires loadable { AreLoadable (segments_of view.now) }
    requires ordered { AllPairs StandsBefore units.now }
    requires starts { StartsIn (plain_view opened.now.analysis.view) (plain_view view.now) opened.now units.now input.now }
    ensures { IfOk result (λ lines. TellsLines opened.now (plain_view view.now) units.now input.now count lines.text.items (string_bytes lines.line)) }
{
    let relinked = TracedResult { view, units };
    let most = traced_steps(&opened.board, count);
    let traced = trace(
        alloc,
        &opened.analysis,
        &relinked,
        &opened.board,
        input,
        most,
    )?;
    let line = steps_line(alloc, traced.lost, traced.steps)?;
    Ok(TraceLines {
        text: traced.bytes,
        line,
    })
}

/// How many steps of the program are traced at most.
fn traced_steps(board: &Board, count: u32) -> u64
    ensures { result ≡ min count board.now.steps }
{
    u64::from(count).min(board.steps)
}

/// The line that tells how many steps are traced, and whether the next one can't be.
fn steps_line(alloc: Global, lost: bool, steps: u64) -> Result<String, AllocError>
    ensures { IfOk result (λ line. string_bytes line ≡ traced_line lost steps) }
{
    if lost {
        format!(in alloc; "lost {steps}\n")
    } else {
        format!(in alloc; "steps {steps}\n")
    }
}
