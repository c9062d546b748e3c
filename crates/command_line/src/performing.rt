ghost use Rattle.std.specs.Prelude.{OnOk, IfOk, IfErr};
ghost use Rattle.command_language.specs.Command.{HasNumbers, plain_command};
ghost use Rattle.command_files.specs.Diagnostic.{IsDiagnosticOrMemory};
ghost use Rattle.command_line.specs.{InputTexts.{AreInputs}, Performing.{Performs, TellsEndOf, IsRejectedBy}};

use crate::delivery::deliver;
use crate::input_texts::InputTexts;
use crate::observing::Observer;
use crate::reading::read_inputs;
use crate::results::prepare_result;
use command_files::Diagnostic;
use command_language::{Command, CommandFault};
use relinking::MeasuredEnd;
use shelf_io::{Progress, Shelf, Sink};
use std::alloc::Global;

/// Does what a command asks for, and tells how the run ended that it measured, if it measured one. The observer is shown
/// what it read and made, before any of it is written.
pub fn perform_command<S: Shelf, K: Sink, O: Observer>(
    alloc: Global,
    command: &Command<'_>,
    shelf: &mut S,
    out: &mut K,
    observer: &mut O,
    progress: &dyn Progress,
) -> Result<Option<MeasuredEnd>, Diagnostic>
    requires { HasNumbers (plain_command command.now) }
    ensures ok { OnOk result (Performs (plain_command command.now)
        (S.view shelf.old) (S.view shelf.new)
        (K.view out.old) (K.view out.new)) }
    ensures end { IfOk result (λ measured. TellsEndOf (plain_command command.now) measured (S.view shelf.old)) }
    ensures err { IfErr result (IsRejectedBy (plain_command command.now)
        (S.view shelf.old) (S.view shelf.new)
        (K.view out.old) (K.view out.new)) }
{
    let mut texts = Vec::new(alloc);
    let mut listed = Vec::new(alloc);
    let read = read_inputs(alloc, command, &mut texts, &mut listed, shelf);
    let inputs = InputTexts {
        alloc,
        texts: &texts,
        listed: &listed,
    };
    match read {
        Ok(()) => match perform_read(command, &inputs, shelf, out, observer, progress) {
            Ok(measured) => Ok(measured),
            Err(diagnostic) => Err(diagnostic),
        },
        Err(fault) => Err(reject(alloc, &inputs, &fault, observer)),
    }
}

/// Does it with the texts under the names that it reads.
fn perform_read<S: Shelf, K: Sink, O: Observer>(
    command: &Command<'_>,
    inputs: &InputTexts<'_>,
    shelf: &mut S,
    out: &mut K,
    observer: &mut O,
    progress: &dyn Progress,
) -> Result<Option<MeasuredEnd>, Diagnostic>
    requires numbers { HasNumbers (plain_command command.now) }
    requires inputs { AreInputs (plain_command command.now) inputs.now (S.view shelf.old) }
    ensures ok { OnOk result (Performs (plain_command command.now)
        (S.view shelf.old) (S.view shelf.new)
        (K.view out.old) (K.view out.new)) }
    ensures end { IfOk result (λ measured. TellsEndOf (plain_command command.now) measured (S.view shelf.old)) }
    ensures err { IfErr result (IsRejectedBy (plain_command command.now)
        (S.view shelf.old) (S.view shelf.new)
        (K.view out.old) (K.view out.new)) }
{
    match prepare_result(inputs.alloc, command, inputs, progress) {
        Ok(prepared) => {
            observer.observe(inputs, Ok(&prepared));
            let measured = prepared.measured;
            match deliver(prepared, shelf, out) {
                Ok(()) => Ok(measured),
                Err(diagnostic) => Err(diagnostic),
            }
        }
        Err(fault) => Err(reject(inputs.alloc, inputs, &fault, observer)),
    }
}

/// Shows a fault to the observer, and makes its line.
fn reject<O: Observer>(
    alloc: Global,
    inputs: &InputTexts<'_>,
    fault: &CommandFault,
    observer: &mut O,
) -> Diagnostic
    ensures { IsDiagnosticOrMemory fault.now result }
{
    observer.observe(inputs, Err(fault));
    Diagnostic::new(alloc, fault)
}
