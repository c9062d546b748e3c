ghost use Rattle.std.specs.Prelude.{◌≡◌, ◌+◌, ◌*◌, ◌/◌, ◌<◌, length};
ghost use Rattle.list_checks.specs.Tests.{lies_in};
ghost use Rattle.elf_reader.specs.File.{plain_view};
ghost use Rattle.code_blocks.specs.{Words.{passes_in, any_code_word}, Blocks.{is_any}};

use elf_reader::Section;
use loaded_file::{LoadedFile, is_code_range};

/// Whether some code range has a word.
pub(crate) fn has_text(file: &LoadedFile) -> bool
    ensures { result ≡ any_code_word (plain_view file.now.view.now) is_any }
{
    for k in 0..file.view.sections.len() {
        if range_has_text(file, k) {
            return true;
        }
    }
    false
}

/// Section `k` is a code range, and has a word.
fn range_has_text(file: &LoadedFile, k: usize) -> bool
    requires below { k < length file.now.view.now.sections.items }
    ensures { result ≡ passes_in (plain_view file.now.view.now) is_any k }
{
    is_code_range(file, k) && has_word(&file.view.sections[k])
}

/// The first word of a section lies inside it: words begin at multiples of 4.
fn has_word(section: &Section) -> bool
    ensures { result ≡ lies_in section.now.addr section.now.size ((section.now.addr + 3) / 4 * 4) 4 }
{
    let start = u64::from(section.addr);
    let first = (start + 3) / 4 * 4;
    start <= first && first + 4 <= start + u64::from(section.size)
}
