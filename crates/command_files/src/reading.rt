ghost use Rattle.std.specs.Prelude.{◌≡◌, List, ◌++◌, ◌∷◌, [], map, IfOk, IfErr, OnOk};
ghost use Rattle.shelf_io.specs.Shelf.{Holds};
ghost use Rattle.command_language.specs.Command.{Named, plain_named};
ghost use Rattle.command_files.specs.Reading.{contents, HoldsAll, RejectsRead, RejectsReads};

use command_language::{CommandFault, NamedWord};
use shelf_io::{Shelf, ShelfFault};
use std::alloc::Global;

/// Reads the bytes under the names, in their order.
///
/// The error is the first read that failed. `Memory` comes only where no memory was left.
pub fn read_all<S: Shelf>(
    alloc: Global,
    names: &[NamedWord<'_>],
    texts: &mut Vec<Vec<u8>>,
    shelf: &mut S,
) -> Result<(), CommandFault>
    requires { texts.now.items ≡ [] }
    ensures ok { OnOk result (HoldsAll (S.view shelf.old) (map plain_named names.now) (contents texts.new.items)
        × (S.view shelf.new ≡ S.view shelf.old)) }
    ensures err { IfErr result (RejectsReads (map plain_named names.now) (S.view shelf.old) (S.view shelf.new)) }
{
    for named in names {
        match push_text(alloc, texts, named, shelf) {
            Ok(()) => {}
            Err(fault) => return Err(fault),
        }
    }
    Ok(())
}

/// Reads the bytes under a name, and adds them to those of earlier names.
fn push_text<S: Shelf>(
    alloc: Global,
    texts: &mut Vec<Vec<u8>>,
    named: &NamedWord<'_>,
    shelf: &mut S,
) -> Result<(), CommandFault>
    ensures ok { OnOk result ((names : List Named) → HoldsAll (S.view shelf.old) names (contents texts.old.items)
        → HoldsAll (S.view shelf.old) (names ++ plain_named named.now ∷ []) (contents texts.new.items)) }
    ensures same { OnOk result (S.view shelf.new ≡ S.view shelf.old) }
    ensures err { IfErr result (RejectsRead (plain_named named.now) (S.view shelf.old) (S.view shelf.new)) }
{
    let text = read_name(alloc, named, shelf)?;
    texts.push(text)?;
    Ok(())
}

/// Reads the bytes under a name.
fn read_name<S: Shelf>(
    alloc: Global,
    named: &NamedWord<'_>,
    shelf: &mut S,
) -> Result<Vec<u8>, CommandFault>
    ensures ok { IfOk result (λ bytes. Holds (S.view shelf.old) named.now.name.now bytes.items
        × (S.view shelf.new ≡ S.view shelf.old)) }
    ensures err { IfErr result (RejectsRead (plain_named named.now) (S.view shelf.old) (S.view shelf.new)) }
{
    match shelf.read(alloc, named.name) {
        Ok(bytes) => Ok(bytes),
        Err(ShelfFault::Failed) => Err(CommandFault::Read { place: named.place }),
        Err(ShelfFault::Memory) => Err(CommandFault::Memory),
    }
}
