ghost use Rattle.std.specs.Prelude.{IfOk, IfErr, map, string_bytes};
ghost use Rattle.relinking.specs.MixOfRuns.{plain_input, AreSomeInputs};
ghost use Rattle.command_line.specs.MixFile.{ChecksMixTo, RejectsCheckedRuns};

use crate::check_file::checked;
use crate::chosen::ChosenPlacement;
use crate::opened::Opened;
use crate::opening::open;
use command_language::CommandFault;
use relinking::{WeightedBytes, programme_of_runs};
use shelf_io::Progress;
use std::alloc::Global;

/// The result of a `checkmix` command, before it is printed.
#[derive(Drop)]
pub struct CheckedMix<'a> {
    /// How the certificate's choice was found, and what the runs cost with it by weight, in lines.
    pub report: String,
    /// The certificate's choice.
    pub chosen: ChosenPlacement,
    pub opened: Opened<'a>,
}

/// Checks a certificate for the programme that the runs of a file's program on several inputs state together, with
/// nothing but the files, and tells in lines how the certificate's choice was found and what the runs cost with it.
///
/// The error is the first fault of the board's text, of the file, of where it lies, of its code, of its regions, the
/// address fault of the first run that meets one, the first byte at which the text breaks the grammar, or how its
/// certificate fails. `Memory` comes only where no memory was left.
pub fn check_mix_file<'a>(
    alloc: Global,
    file: &'a [u8],
    board: &[u8],
    inputs: &[WeightedBytes<'_>],
    cert: &[u8],
    progress: &dyn Progress,
) -> Result<CheckedMix<'a>, CommandFault>
    requires { AreSomeInputs (map plain_input inputs.now) }
    ensures ok { IfOk result (λ made. ChecksMixTo file.now board.now (map plain_input inputs.now) cert.now (string_bytes made.report)) }
    ensures err { IfErr result (RejectsCheckedRuns board.now file.now (map plain_input inputs.now) cert.now) }
{
    let opened = open(alloc, file, board)?;
    let programme = programme_of_runs(alloc, &opened.analysis, &opened.board, inputs, progress)?;
    match checked(alloc, &programme, opened.board.nodes, cert) {
        Ok(checked) => Ok(CheckedMix {
            report: checked.report,
            chosen: ChosenPlacement {
                programme,
                choice: checked.choice,
                profile: None,
            },
            opened,
        }),
        Err(fault) => Err(fault),
    }
}
