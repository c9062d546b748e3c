ghost use Rattle.std.specs.Prelude.{◌≡◌, [], length, IfErr, OnOk};
ghost use Rattle.command_language.specs.Command.{plain_command, reads};
ghost use Rattle.command_files.specs.Reading.{contents, HoldsAll};
ghost use Rattle.command_line.specs.{Listing.{further_reads}, Performing.{ReadsInputs, RejectsListedOf, RejectsPreparing}};

use crate::mix_inputs::listed_names;
use command_files::read_all;
use command_language::{Command, CommandFault};
use shelf_io::Shelf;
use std::alloc::Global;

/// Reads what stands under the names of a command, and then under those that its MIX lists.
///
/// The error is the first read that failed, or the first line of the MIX that breaks a rule. `Memory` comes only where no
/// memory was left.
pub fn read_inputs<S: Shelf>(
    alloc: Global,
    command: &Command<'_>,
    texts: &mut Vec<Vec<u8>>,
    listed: &mut Vec<Vec<u8>>,
    shelf: &mut S,
) -> Result<(), CommandFault>
    requires no_texts { texts.now.items ≡ [] }
    requires none_listed { listed.now.items ≡ [] }
    ensures ok { OnOk result (ReadsInputs (plain_command command.now) (contents texts.new.items) (contents listed.new.items) (S.view shelf.old) (S.view shelf.new)) }
    ensures err { IfErr result (RejectsPreparing (plain_command command.now) (S.view shelf.old) (S.view shelf.new)) }
{
    let names = command.reads(alloc)?;
    match read_all(alloc, &names, texts, shelf) {
        Ok(()) => match read_listed(alloc, command, texts, listed, shelf) {
            Ok(()) => Ok(()),
            Err(fault) => Err(fault),
        },
        Err(fault) => Err(fault),
    }
}

/// Reads what stands under the names that the MIX of a command lists, by the texts of its words.
fn read_listed<S: Shelf>(
    alloc: Global,
    command: &Command<'_>,
    texts: &[Vec<u8>],
    listed: &mut Vec<Vec<u8>>,
    shelf: &mut S,
) -> Result<(), CommandFault>
    requires sizes { length texts.now ≡ length (reads (plain_command command.now)) }
    requires none_listed { listed.now.items ≡ [] }
    ensures ok { OnOk result (HoldsAll (S.view shelf.old) (further_reads (plain_command command.now) (contents texts.now)) (contents listed.new.items)
        × (S.view shelf.new ≡ S.view shelf.old)) }
    ensures err { IfErr result (RejectsListedOf (plain_command command.now) (contents texts.now) (S.view shelf.old) (S.view shelf.new)) }
{
    match listed_names(alloc, command, texts) {
        Ok(names) => match read_all(alloc, &names, listed, shelf) {
            Ok(()) => Ok(()),
            Err(fault) => Err(fault),
        },
        Err(fault) => Err(fault),
    }
}
