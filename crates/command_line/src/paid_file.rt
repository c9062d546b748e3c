ghost use Rattle.std.specs.Prelude.{◌≡◌, ℕ, ◌<◌, ◌^◌, ◌≤◌, ◌==◌, ◌&&◌, not, List, length, IfOk, IfErr, string_bytes};
ghost use Rattle.elf_reader.specs.{File.{segments_of}, Loadable.{AreLoadable}};
ghost use Rattle.board_config.specs.Board.{IsLawful, mapped_ranges};
ghost use Rattle.flat_machine.specs.Start.{start_of};
ghost use Rattle.placement_programme.specs.{Programme.{IsFeasible}, Views.{plain_programme, plain_choice}};
ghost use Rattle.printed_lines.specs.{Endings.{IsAddressFault}, Texts.{text_of}};
ghost use Rattle.relink_core.specs.Choices.{IsAnalysisOf};
ghost use Rattle.paid_energy.specs.Laws as walked;
ghost use Rattle.command_line.specs.{Analysed.{IsOpened}, Measured.{MeasuresTo}, PaidFile.{PaysTo, RejectsPaid, CountsFor, WhereExited, RunsMade, TellsRun, MakesLines, RejectsMade, modelled_text, paid_text}};

use crate::accepting::accepted_choice;
use crate::measured_text::MeasuredText;
use crate::opened::Opened;
use crate::opening::open;
use crate::outcomes::outcome_line;
use board_config::Board;
use command_language::CommandFault;
use elf_reader::ElfView;
use flat_machine::Flat;
use object_machine::Outcome;
use paged_store::PageStore;
use paid_energy::{PaidRun, inward, paid, results_pay};
use placement_programme::{Choice, energy};
use printed_lines::{Text, ending_line};
use relink_core::realise;
use relinking::{MeasuredProgramme, programme_of_run};
use shelf_io::Progress;
use std::alloc::{AllocError, Global};

/// Checks a certificate as `check` does, runs the file that realises its choice, and tells in lines what the run of the file's
/// program costs by the model, and what the file that was made pays.
///
/// The error is that of `check`, or behind these the first fault of the file that was made. `Memory` comes only where no memory
/// was left.
pub fn paid_file<'a>(
    alloc: Global,
    file: &'a [u8],
    board: &[u8],
    input: &[u8],
    cert: &[u8],
    progress: &dyn Progress,
) -> Result<MeasuredText<'a>, CommandFault>
    ensures ok { IfOk result (λ made. PaysTo file.now board.now input.now cert.now (text_of made.text)) }
    ensures end { IfOk result (λ made. MeasuresTo file.now board.now input.now made.end) }
    ensures err { IfErr result (RejectsPaid board.now file.now input.now cert.now) }
{
    let opened = open(alloc, file, board)?;
    let measured = programme_of_run(alloc, &opened.analysis, &opened.board, input, progress)?;
    match choice_lines(alloc, &opened, &measured, input, cert) {
        Ok(lines) => {
            let text = Text::plain(lines.into_bytes());
            let end = measured.end;
            Ok(MeasuredText { text, end, opened })
        }
        Err(fault) => Err(fault),
    }
}

/// The lines on the choice of a certificate for the programme of a run.
fn choice_lines(
    alloc: Global,
    opened: &Opened<'_>,
    measured: &MeasuredProgramme,
    input: &[u8],
    cert: &[u8],
) -> Result<String, CommandFault>
    requires opened { (board_text : List ℕ) × ((file : List ℕ) × IsOpened board_text file opened.now) }
    requires counts { CountsFor opened.now input.now measured.now }
    ensures ok { IfOk result (λ lines. (board_text file : List ℕ) → IsOpened board_text file opened.now → PaysTo file board_text input.now cert.now (string_bytes lines)) }
    ensures err { IfErr result (λ fault. (board_text file : List ℕ) → IsOpened board_text file opened.now → RejectsPaid board_text file input.now cert.now fault) }
{
    results_pay();
    match accepted_choice(alloc, &measured.programme, cert) {
        Ok(accepted) => match made_lines(alloc, opened, measured, &accepted.choice, input) {
            Ok(lines) => Ok(lines),
            Err(fault) => Err(fault),
        },
        Err(fault) => Err(fault),
    }
}

/// The lines on a choice: what is modelled, and what the file that realises it pays.
fn made_lines(
    alloc: Global,
    opened: &Opened<'_>,
    measured: &MeasuredProgramme,
    choice: &Choice,
    input: &[u8],
) -> Result<String, CommandFault>
    requires opened { (file : List ℕ) × IsAnalysisOf file opened.now.board opened.now.analysis }
    requires counts { CountsFor opened.now input.now measured.now }
    requires feasible { IsFeasible (plain_programme measured.now.programme) (plain_choice choice.now) }
    ensures ok { IfOk result (λ lines. (file : List ℕ) → IsAnalysisOf file opened.now.board opened.now.analysis → MakesLines file opened.now measured.now (plain_choice choice.now) input.now (string_bytes lines)) }
    ensures err { IfErr result (λ fault. (file : List ℕ) → IsAnalysisOf file opened.now.board opened.now.analysis → RejectsMade file opened.now (plain_programme measured.now.programme) (plain_choice choice.now) fault) }
{
    let made = realise(
        alloc,
        &opened.analysis,
        &opened.board,
        &measured.programme,
        choice,
    )?;
    let view = elf_reader::read(alloc, &made.bytes)?;
    match view_lines(alloc, opened, measured, choice, &view, input) {
        Ok(lines) => Ok(lines),
        Err(error) => Err(CommandFault::from(error)),
    }
}

/// The same lines, where the file was made and read.
fn view_lines(
    alloc: Global,
    opened: &Opened<'_>,
    measured: &MeasuredProgramme,
    choice: &Choice,
    view: &ElfView<'_>,
    input: &[u8],
) -> Result<String, AllocError>
    requires opened { (file : List ℕ) × IsAnalysisOf file opened.now.board opened.now.analysis }
    requires counts { CountsFor opened.now input.now measured.now }
    requires feasible { IsFeasible (plain_programme measured.now.programme) (plain_choice choice.now) }
    requires loadable { AreLoadable (segments_of view.now) }
    ensures { IfOk result (λ lines. TellsRun opened.now measured.now (plain_choice choice.now) (start_of view.now.entry (segments_of view.now) (mapped_ranges opened.now.board) input.now) (string_bytes lines)) }
{
    let outcome = measured.profile.outcome;
    let modelled = energy(&measured.programme, choice);
    let first = modelled_lines(alloc, outcome, modelled)?;
    let second = run_lines(alloc, opened, measured, choice, view, input)?;
    match format!(in alloc; "{first}{second}") {
        Ok(lines) => Ok(lines),
        Err(error) => Err(error),
    }
}

/// How the program ended, and what its run costs by the model.
fn modelled_lines(alloc: Global, outcome: Outcome, modelled: u128) -> Result<String, AllocError>
    requires { IsAddressFault outcome → ⊥ }
    ensures { IfOk result (λ text. string_bytes text ≡ modelled_text outcome modelled) }
{
    let ending = ending_line(alloc, outcome)?;
    format!(in alloc; "{ending}modelled {modelled}\n")
}

/// The lines on the file that was made, where the program exited, and else none.
fn run_lines(
    alloc: Global,
    opened: &Opened<'_>,
    measured: &MeasuredProgramme,
    choice: &Choice,
    view: &ElfView<'_>,
    input: &[u8],
) -> Result<String, AllocError>
    requires opened { (file : List ℕ) × IsAnalysisOf file opened.now.board opened.now.analysis }
    requires counts { CountsFor opened.now input.now measured.now }
    requires feasible { IsFeasible (plain_programme measured.now.programme) (plain_choice choice.now) }
    requires loadable { AreLoadable (segments_of view.now) }
    ensures { IfOk result (λ lines. WhereExited measured.now.profile.outcome (λ code. RunsMade opened.now measured.now (plain_choice choice.now) (start_of view.now.entry (segments_of view.now) (mapped_ranges opened.now.board) input.now)) (string_bytes lines)) }
{
    match measured.profile.outcome {
        Outcome::Exited(_) => match exited_lines(alloc, opened, measured, choice, view, input) {
            Ok(lines) => Ok(lines),
            Err(error) => Err(error),
        },
        Outcome::GoesOn => Ok(String::new(alloc)),
        Outcome::Trapped { .. } => Ok(String::new(alloc)),
        Outcome::AddressFault { .. } => Ok(String::new(alloc)),
    }
}

/// The same lines, of a program that exited.
fn exited_lines(
    alloc: Global,
    opened: &Opened<'_>,
    measured: &MeasuredProgramme,
    choice: &Choice,
    view: &ElfView<'_>,
    input: &[u8],
) -> Result<String, AllocError>
    requires opened { (file : List ℕ) × IsAnalysisOf file opened.now.board opened.now.analysis }
    requires counts { CountsFor opened.now input.now measured.now }
    requires feasible { IsFeasible (plain_programme measured.now.programme) (plain_choice choice.now) }
    requires loadable { AreLoadable (segments_of view.now) }
    ensures { IfOk result (λ lines. RunsMade opened.now measured.now (plain_choice choice.now) (start_of view.now.entry (segments_of view.now) (mapped_ranges opened.now.board) input.now) (string_bytes lines)) }
{
    let mut machine = Flat::new(alloc, view, &opened.board, input, PageStore::new(alloc))?;
    let nothing = takes_nothing(choice);
    let limit = enough_steps(&opened.board, nothing, measured.profile.steps);
    let run = paid(&mut machine, &opened.board, limit)?;
    let calls = inward(
        alloc,
        &measured.profile,
        &opened.analysis,
        &opened.board,
        &measured.programme,
        choice,
    )?;
    match paid_lines(alloc, &run, calls) {
        Ok(lines) => Ok(lines),
        Err(error) => Err(error),
    }
}

/// How a run of the flat machine ended, what it paid, and how many calls of the measured run were inward.
fn paid_lines(alloc: Global, run: &PaidRun, inward: u64) -> Result<String, AllocError>
    ensures { IfOk result (λ text. string_bytes text ≡ paid_text run.now.outcome run.now.energy inward) }
{
    let ending = outcome_line(alloc, run.outcome)?;
    let energy = run.energy;
    format!(in alloc; "{ending}paid {energy}\ninward {inward}\n")
}

/// Whether a choice takes nothing, without overlay: the file that realises it is the program's.
fn takes_nothing(choice: &Choice) -> bool
    ensures { result ≡ (not choice.now.on && (length choice.now.take.items == 0)) }
{
    !choice.on && choice.take.is_empty()
}

/// How many steps are enough for the file that is made of a program that takes so many.
fn enough_steps(board: &Board, nothing: bool, steps: u64) -> u128
    requires lawful { IsLawful board.now }
    requires few { steps ≤ 1000000000 }
    ensures is { result ≡ walked.enough_steps board.now nothing steps }
    ensures small { result < 2 ^ 63 }
{
    let steps = u128::from(steps);
    if nothing {
        2 * steps
    } else {
        (steps + 1) * (12 * u128::from(board.spm.size) + 256)
    }
}
