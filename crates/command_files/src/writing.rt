ghost use Rattle.std.specs.Prelude.{OnOk, IfErr};
ghost use Rattle.command_files.specs.Writing.{SetsPrepared, FailsToWrite, FailsOnce};
ghost use Rattle.shelf_io.specs.Shelf.{SetsName};

use crate::diagnostic::Diagnostic;
use command_language::{CommandFault, NamedWord};
use shelf_io::{Shelf, ShelfFault};
use std::alloc::{AllocError, Global};

/// What is to be written under a name, with the fault of the write, so that this takes no memory.
#[derive(Drop)]
pub struct Output<'a> {
    pub name: &'a str,
    pub bytes: Vec<u8>,
    pub fault: Diagnostic,
}

impl<'a> Output<'a> {
    ghost use Rattle.std.specs.Prelude.{IfOk};
    ghost use Rattle.command_language.specs.Command.{plain_named};
    ghost use Rattle.command_files.specs.Writing.{IsOutput};

    /// What is to be written under a name.
    pub fn new(
        alloc: Global,
        named: NamedWord<'a>,
        bytes: Vec<u8>,
    ) -> Result<Output<'a>, AllocError>
        ensures { IfOk result (IsOutput (plain_named named.entry) bytes.items) }
    {
        let place = named.place;
        let fault = Diagnostic::try_new(alloc, &CommandFault::Write { place })?;
        Ok(Output {
            name: named.name,
            bytes,
            fault,
        })
    }
}

/// Writes the outputs, up to the first whose write fails.
pub fn write_all<S: Shelf>(outputs: Vec<Output<'_>>, shelf: &mut S) -> Result<(), Diagnostic>
    ensures ok { OnOk result (SetsPrepared outputs.entry.items (S.view shelf.old) (S.view shelf.new)) }
    ensures err { IfErr result (FailsToWrite outputs.entry.items (S.view shelf.old) (S.view shelf.new)) }
{
    for output in outputs {
        match write_one(output, shelf) {
            Ok(()) => {}
            Err(diagnostic) => return Err(diagnostic),
        }
    }
    Ok(())
}

/// Writes one output.
fn write_one<S: Shelf>(output: Output<'_>, shelf: &mut S) -> Result<(), Diagnostic>
    ensures ok { OnOk result (SetsName output.entry.name.now output.entry.bytes.items (S.view shelf.old) (S.view shelf.new)) }
    ensures err { IfErr result (FailsOnce output.entry (S.view shelf.old) (S.view shelf.new)) }
{
    match shelf.write(output.name, output.bytes.as_slice()) {
        Ok(()) => Ok(()),
        Err(ShelfFault::Failed) => Err(output.fault),
        Err(ShelfFault::Memory) => Err(Diagnostic::Memory),
    }
}
