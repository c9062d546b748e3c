ghost use Rattle.std.specs.Prelude.{◌≡◌, ◌∷◌, [], OnOk, IfOk, IfErr};
ghost use Rattle.command_language.specs.Command.{named};
ghost use Rattle.command_files.specs.Writing.{ArePrepared};
ghost use Rattle.command_line.specs.Delivery.{DeliversAll, FailsToDeliver};

use crate::chosen::ChosenPlacement;
use crate::opened::Opened;
use crate::relinked_file::RelinkedFile;
use command_files::{Diagnostic, Output, put_text, write_all};
use command_language::{CommandFault, NamedWord};
use printed_lines::Text;
use relinking::MeasuredEnd;
use shelf_io::{Shelf, Sink};
use std::alloc::{AllocError, Global};

/// A result that is ready to be written and printed, with the faults of the steps that may still
/// fail.
#[derive(Drop)]
pub struct PreparedResult<'a> {
    /// What is written, in this order.
    pub outputs: Vec<Output<'a>>,
    /// What is printed. It may hold names as a file has them, which needn't be UTF-8.
    pub text: Text<'a>,
    pub print_fault: Diagnostic,
    /// How the run ended that the command measured, if it measured one.
    pub measured: Option<MeasuredEnd>,
    /// What the command chose, or whose certificate it checked.
    pub chosen: Option<ChosenPlacement>,
    /// What the command analysed. It is for those who explain the command: no clause speaks of it.
    pub opened: Option<Opened<'a>>,
}

impl<'a> PreparedResult<'a> {
    ghost use Rattle.std.specs.Prelude.{◌≡◌, ◌∷◌, [], IfOk};
    ghost use Rattle.command_language.specs.Command.{named, plain_named};
    ghost use Rattle.printed_lines.specs.Texts.{text_of};
    ghost use Rattle.command_files.specs.{Writing.{ArePrepared}, Diagnostic.{IsDiagnosticOf}};
    ghost use Rattle.command_language.specs.declared.faults.CommandFault.TheVariants as command_fault;

    /// A result that is only printed.
    pub fn printed(
        alloc: Global,
        text: Text<'a>,
        measured: Option<MeasuredEnd>,
        chosen: Option<ChosenPlacement>,
        opened: Option<Opened<'a>>,
    ) -> Result<PreparedResult<'a>, AllocError>
        ensures outputs { IfOk result (λ prepared. ArePrepared [] [] prepared.outputs.items) }
        ensures text { IfOk result (λ prepared. text_of prepared.text ≡ text_of text.entry) }
        ensures print_fault { IfOk result (λ prepared. IsDiagnosticOf (command_fault.Write 0) prepared.print_fault) }
        ensures measured { IfOk result (λ prepared. prepared.measured ≡ measured) }
    {
        let print_fault = Diagnostic::try_new(alloc, &CommandFault::Write { place: 0 })?;
        Ok(PreparedResult {
            outputs: Vec::new(alloc),
            text,
            print_fault,
            measured,
            chosen,
            opened,
        })
    }

    /// A result that is written under a name, with a line that is printed.
    pub fn written(
        alloc: Global,
        output: NamedWord<'a>,
        bytes: Vec<u8>,
        line: Vec<u8>,
        measured: Option<MeasuredEnd>,
        opened: Option<Opened<'a>>,
    ) -> Result<PreparedResult<'a>, AllocError>
        ensures outputs { IfOk result (λ prepared. ArePrepared (plain_named output.entry ∷ []) (bytes.items ∷ []) prepared.outputs.items) }
        ensures text { IfOk result (λ prepared. text_of prepared.text ≡ line.items) }
        ensures print_fault { IfOk result (λ prepared. IsDiagnosticOf (command_fault.Write 0) prepared.print_fault) }
        ensures measured { IfOk result (λ prepared. prepared.measured ≡ measured) }
    {
        let output = Output::new(alloc, output, bytes)?;
        let print_fault = Diagnostic::try_new(alloc, &CommandFault::Write { place: 0 })?;
        let outputs = vec![in alloc; output]?;
        Ok(PreparedResult {
            outputs,
            text: Text::plain(line),
            print_fault,
            measured,
            chosen: None,
            opened,
        })
    }

    /// A file that was relinked, which is written behind its certificate, and the report on it.
    pub fn relinked(
        alloc: Global,
        out: &'a str,
        cert: &'a str,
        made: RelinkedFile<'a>,
    ) -> Result<PreparedResult<'a>, AllocError>
        ensures outputs { IfOk result (λ prepared. ArePrepared (named 5 cert.now ∷ named 4 out.now ∷ []) (made.entry.certificate.items ∷ made.entry.file.items ∷ []) prepared.outputs.items) }
        ensures text { IfOk result (λ prepared. text_of prepared.text ≡ text_of made.entry.report) }
        ensures print_fault { IfOk result (λ prepared. IsDiagnosticOf (command_fault.Write 0) prepared.print_fault) }
        ensures measured { IfOk result (λ prepared. prepared.measured ≡ made.entry.end) }
    {
        let print_fault = Diagnostic::try_new(alloc, &CommandFault::Write { place: 0 })?;
        let outputs = relinked_outputs(alloc, out, cert, made.certificate, made.file)?;
        Ok(PreparedResult {
            outputs,
            text: made.report,
            print_fault,
            measured: made.end,
            chosen: Some(made.chosen),
            opened: Some(made.opened),
        })
    }
}

/// A certificate and a relinked file, each to be written under its name.
fn relinked_outputs<'a>(
    alloc: Global,
    out: &'a str,
    cert: &'a str,
    certificate: Vec<u8>,
    file: Vec<u8>,
) -> Result<Vec<Output<'a>>, AllocError>
    ensures { IfOk result (λ outputs. ArePrepared (named 5 cert.now ∷ named 4 out.now ∷ []) (certificate.items ∷ file.items ∷ []) outputs.items) }
{
    let cert = NamedWord {
        place: 5,
        name: cert,
    };
    let out = NamedWord {
        place: 4,
        name: out,
    };
    let first = Output::new(alloc, cert, certificate)?;
    let second = Output::new(alloc, out, file)?;
    Ok(vec![in alloc; first, second]?)
}

/// Writes the outputs, and then prints the text.
pub fn deliver<S: Shelf, K: Sink>(
    prepared: PreparedResult<'_>,
    shelf: &mut S,
    out: &mut K,
) -> Result<(), Diagnostic>
    ensures ok { OnOk result (DeliversAll prepared.entry
        (S.view shelf.old) (S.view shelf.new)
        (K.view out.old) (K.view out.new)) }
    ensures err { IfErr result (FailsToDeliver prepared.entry
        (S.view shelf.old) (S.view shelf.new)
        (K.view out.old) (K.view out.new)) }
{
    match write_all(prepared.outputs, shelf) {
        Ok(()) => match put_text(out, &prepared.text) {
            Ok(()) => Ok(()),
            Err(_) => Err(prepared.print_fault),
        },
        Err(diagnostic) => Err(diagnostic),
    }
}
