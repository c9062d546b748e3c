ghost use Rattle.std.specs.Prelude.{◌≡◌, ◌≢◌, ◌⊎◌, true, false, codes, IfOk, IfErr};
ghost use Rattle.elf_reader.specs.File.{plain_view, view_in};
ghost use Rattle.result_laws.specs.Absolute.{IsAbsolute};
ghost use Rattle.compare_runner.specs.Relative.{HasRelative};
ghost use Rattle.command_line.specs.{CompareFiles.{ComparesTo, RejectsCompared}, Promise.{IsSafeOn}};

use crate::compare_files::compare_files;
use crate::laws::compared_runs_safely;
use command_language::CommandFault;
use compare_runner::is_absolute;
use elf_reader::ElfView;
use loaded_file::LoadedFile;
use std::alloc::{AllocError, Global};

/// What `compare` prints of a program that goes on at the end of the board's steps.
const RUNNING: &str = "same\nrunning\n";

/// Whether a program is seen to run safely on an input: it exits or traps within the board's steps, it meets no address fault,
/// and its code makes addresses by absolute relocations alone. Then the promise of `relink` holds for that input. It is false
/// only where the program goes on at the end of the board's steps, or makes an address relative to the pc.
///
/// The error is that of `compare`, of the file with itself.
pub fn is_seen_safe(
    alloc: Global,
    file: &[u8],
    board: &[u8],
    input: &[u8],
) -> Result<bool, CommandFault>
    ensures safe { IfOk result (λ safe. safe ≡ true → IsSafeOn file.now board.now input.now) }
    ensures unseen { IfOk result (λ safe. safe ≡ false → ComparesTo file.now file.now board.now input.now (codes "same\nrunning\n") ⊎ HasRelative (view_in file.now)) }
    ensures err { IfErr result (RejectsCompared board.now file.now file.now input.now) }
{
    let compared = compare_files(alloc, file, file, board, input)?;
    if tells_running(&compared.text) {
        return Ok(false);
    }
    let view = elf_reader::read(alloc, file)?;
    let absolute = has_absolute_code(alloc, &view)?;
    compared_runs_safely();
    Ok(absolute)
}

/// Whether a text is that of a program which goes on.
fn tells_running(text: &[u8]) -> bool
    ensures running { result ≡ true → text.now ≡ codes "same\nrunning\n" }
    ensures ended { result ≡ false → text.now ≢ codes "same\nrunning\n" }
{
    text == RUNNING.as_bytes()
}

/// Whether the code of a file makes addresses by absolute relocations alone.
fn has_absolute_code(alloc: Global, view: &ElfView<'_>) -> Result<bool, AllocError>
    ensures absolute { IfOk result (λ absolute. absolute ≡ true → IsAbsolute (plain_view view.now)) }
    ensures relative { IfOk result (λ absolute. absolute ≡ false → HasRelative (plain_view view.now)) }
{
    let loaded = LoadedFile::of(alloc, view)?;
    Ok(is_absolute(&loaded))
}
