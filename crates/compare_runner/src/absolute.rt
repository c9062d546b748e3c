ghost use Rattle.std.specs.Prelude.{◌≡◌, ◌<◌, true, false, length};
ghost use Rattle.elf_reader.specs.File.{plain_view};
ghost use Rattle.loaded_file.specs.Records.{reloc_at};
ghost use Rattle.result_laws.specs.Absolute.{IsAbsolute};
ghost use Rattle.compare_runner.specs.Relative.{is_relative, HasRelative};

use elf_reader::{R_RISCV_PCREL_HI20, R_RISCV_PCREL_LO12_I, R_RISCV_PCREL_LO12_S};
use loaded_file::{LoadedFile, counts};

/// Whether no relocation of a file makes an address relative to the pc. Then its code makes addresses by absolute relocations
/// alone, and each of its runs without an address fault is paired.
pub fn is_absolute(file: &LoadedFile<'_>) -> bool
    ensures absolute { result ≡ true → IsAbsolute (plain_view file.now.view.now) }
    ensures relative { result ≡ false → HasRelative (plain_view file.now.view.now) }
{
    for i in 0..file.view.relocs.len() {
        if is_relative(file, i) {
            return false;
        }
    }
    true
}

/// Whether relocation `i` counts, and makes an address relative to the pc (RISC-V psABI, "Relocations").
fn is_relative(file: &LoadedFile<'_>, i: usize) -> bool
    requires below { i < length file.now.view.now.relocs.items }
    ensures { result ≡ is_relative (plain_view file.now.view.now) (reloc_at (plain_view file.now.view.now) i) }
{
    let reloc = &file.view.relocs[i];
    counts(file, reloc)
        && (reloc.kind == R_RISCV_PCREL_HI20
            || reloc.kind == R_RISCV_PCREL_LO12_I
            || reloc.kind == R_RISCV_PCREL_LO12_S)
}
