ghost use Rattle.std.specs.Prelude.{◌≡◌};
ghost use Rattle.elf_reader.specs.File.{plain_view};
ghost use Rattle.loaded_file.specs.Records.{symbol_at, counts, target};

use crate::file::LoadedFile;
use elf_reader::{ElfView, Reloc};

/// A relocation counts: the section that it changes is loaded.
pub fn counts(file: &LoadedFile, reloc: &Reloc) -> bool
    ensures { result ≡ counts (plain_view file.now.view.now) reloc.now }
{
    let section = reloc.section as usize;
    section < file.view.sections.len() && file.is_loaded(section)
}

/// The address that a relocation leads to: S + A, the value of its symbol and its addend (RISC-V psABI,
/// "Relocations").
pub fn target(view: &ElfView, reloc: &Reloc) -> u32
    ensures { result ≡ target (plain_view view.now) reloc.now }
{
    symbol_value(view, reloc.symbol as usize).wrapping_add_signed(reloc.addend)
}

/// The value of symbol `k`, and 0 behind the last.
pub fn symbol_value(view: &ElfView, k: usize) -> u32
    ensures { result ≡ (symbol_at (plain_view view.now) k).value }
{
    match view.symbols.get(k) {
        Some(symbol) => symbol.value,
        None => 0,
    }
}
