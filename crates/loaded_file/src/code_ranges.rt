ghost use Rattle.std.specs.Prelude.{◌≡◌, ◌<◌, length};
ghost use Rattle.list_checks.specs.Tests.{any_below};
ghost use Rattle.elf_reader.specs.{File.{plain_view}, Loaded.{is_loaded}};
ghost use Rattle.loaded_file.specs.Code.{is_code_range, holds_code, is_code_word};

use crate::file::LoadedFile;
use crate::reaches::SectionKind;
use elf_reader::{EXECUTABLE_BIT, SHT_PROGBITS};

/// Whether section `k` is a code range: it is loaded, has content, and is executable.
pub fn is_code_range(file: &LoadedFile, k: usize) -> bool
    requires below { k < length file.now.view.now.sections.items }
    ensures { result ≡ is_code_range (plain_view file.now.view.now) k }
{
    let section = &file.view.sections[k];
    file.is_loaded(k) && section.kind == SHT_PROGBITS && (section.flags >> EXECUTABLE_BIT) & 1 == 1
}

/// Whether an instruction may stand at `address`: it is a multiple of 4, inside one code range.
pub fn is_code_word(file: &LoadedFile, address: u32) -> bool
    ensures { result ≡ is_code_word (plain_view file.now.view.now) address }
{
    address % 4 == 0 && is_in_code(file, address)
}

/// Some code range holds the word at `address`.
fn is_in_code(file: &LoadedFile, address: u32) -> bool
    ensures { result ≡ any_below (holds_code (plain_view file.now.view.now) address) (length (plain_view file.now.view.now).sections) }
{
    match file.section_over(SectionKind::Code, address, 4) {
        Some(_) => true,
        None => false,
    }
}
