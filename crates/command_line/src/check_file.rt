ghost use Rattle.std.specs.Prelude.{ℤ, pos, ◌≤ℤ◌, IfOk, IfErr, string_bytes};
ghost use Rattle.placement_programme.specs.{Plain.{PlainChoice}, Programme.{IsFeasible, gain}, Views.{plain_programme}};
ghost use Rattle.command_line.specs.{Measured.{MeasuresTo}, CheckFile.{ChecksTo, RejectsChecked, ReportsText, RejectsText}};

use crate::accepting::accepted_choice;
use crate::chosen::ChosenPlacement;
use crate::opened::Opened;
use crate::opening::open;
use command_language::CommandFault;
use placement_programme::{Choice, Programme};
use printed_lines::choice_report;
use relinking::{MeasuredEnd, programme_of_run};
use shelf_io::Progress;
use std::alloc::Global;

/// The result of a `check` command, before it is printed.
#[derive(Drop)]
pub struct CheckedFile<'a> {
    /// How the certificate's choice was found, and what the run costs with it, in lines.
    pub report: String,
    /// How the measured run ended.
    pub end: MeasuredEnd,
    /// The certificate's choice.
    pub chosen: ChosenPlacement,
    pub opened: Opened<'a>,
}

/// A choice whose certificate holds.
#[derive(Drop)]
pub struct CheckedChoice {
    /// How it was found, and what the runs cost with it, in lines.
    pub report: String,
    pub choice: Choice,
}

/// Checks a certificate for the programme that the run of a file's program states, with nothing but the files, and tells
/// in lines how the certificate's choice was found and what the run costs with it.
///
/// The error is the first fault of the board's text, of the file, of where it lies, of its code, the address fault of the
/// run, the first byte at which the text breaks the grammar, or how its certificate fails. `Memory` comes only where no
/// memory was left.
pub fn check_file<'a>(
    alloc: Global,
    file: &'a [u8],
    board: &[u8],
    input: &[u8],
    cert: &[u8],
    progress: &dyn Progress,
) -> Result<CheckedFile<'a>, CommandFault>
    ensures ok { IfOk result (λ made. ChecksTo file.now board.now input.now cert.now (string_bytes made.report)) }
    ensures end { IfOk result (λ made. MeasuresTo file.now board.now input.now made.end) }
    ensures err { IfErr result (RejectsChecked board.now file.now input.now cert.now) }
{
    let opened = open(alloc, file, board)?;
    let measured = programme_of_run(alloc, &opened.analysis, &opened.board, input, progress)?;
    match checked(alloc, &measured.programme, opened.board.nodes, cert) {
        Ok(checked) => Ok(CheckedFile {
            report: checked.report,
            end: measured.end,
            chosen: ChosenPlacement {
                programme: measured.programme,
                choice: checked.choice,
                profile: Some(measured.profile),
            },
            opened,
        }),
        Err(fault) => Err(fault),
    }
}

/// Checks a certificate for a programme, and makes the report on its choice.
pub fn checked(
    alloc: Global,
    programme: &Programme,
    nodes: u64,
    cert: &[u8],
) -> Result<CheckedChoice, CommandFault>
    requires within { (c : PlainChoice) → IsFeasible (plain_programme programme.now) c → gain (plain_programme programme.now) c ≤ℤ pos programme.now.base }
    ensures ok { IfOk result (λ made. ReportsText (plain_programme programme.now) nodes cert.now (string_bytes made.report)) }
    ensures err { IfErr result (RejectsText (plain_programme programme.now) cert.now) }
{
    match accepted_choice(alloc, programme, cert) {
        Ok(accepted) => {
            let choice = accepted.choice;
            let report = choice_report(alloc, programme, &choice, accepted.optimal, nodes)?;
            Ok(CheckedChoice { report, choice })
        }
        Err(fault) => Err(fault),
    }
}
