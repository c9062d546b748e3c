ghost use Rattle.std.specs.Prelude.{◌≡◌, ◌<◌, true, false, length, MatchOption};
ghost use Rattle.list_checks.specs.Tests.{any_below};
ghost use Rattle.elf_reader.specs.File.{plain_view};
ghost use Rattle.loaded_file.specs.{Code.{image_word}, Read.{IsRead}};
ghost use Rattle.object_graph.specs.Rewritable.{holds_data};

use loaded_file::{LoadedFile, SectionKind, content_word};

/// The word of data at `address`, if a section holds it.
pub(crate) fn data_word(file: &LoadedFile, address: u32) -> Option<u32>
    requires read { IsRead file.now.view.now }
    ensures { MatchOption result (any_below (holds_data (plain_view file.now.view.now) address) (length (plain_view file.now.view.now).sections) ≡ false) (λ word. (any_below (holds_data (plain_view file.now.view.now) address) (length (plain_view file.now.view.now).sections) ≡ true) × (word ≡ image_word (plain_view file.now.view.now) address)) }
{
    match file.section_over(SectionKind::Data, address, 4) {
        Some(k) => Some(content_word(file.view, k, address)),
        None => None,
    }
}
