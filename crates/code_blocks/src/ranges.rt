ghost use Rattle.std.specs.Prelude.{◌≡◌, ℕ, ◌+◌, ◌-◌, ◌/◌, true, false, length, MatchOption};
ghost use Rattle.list_checks.specs.{Tests.{any_below}, First.{first_below}};
ghost use Rattle.elf_reader.specs.{File.{plain_view}, Loaded.{section_at}};
ghost use Rattle.loaded_file.specs.{Code.{holds_code}, Read.{IsRead}};
ghost use Rattle.code_blocks.specs.Ends.{range_at};

use elf_reader::ElfView;
use loaded_file::{LoadedFile, SectionKind};

/// The lowest code range that holds the word at `address`: the only one, for they share no byte.
pub(crate) fn lowest_range(file: &LoadedFile, address: u32) -> Option<usize>
    requires read { IsRead file.now.view.now }
    ensures first { result ≡ first_below (range_at (plain_view file.now.view.now) address) (length (plain_view file.now.view.now).sections) }
    ensures holds { MatchOption result (any_below (holds_code (plain_view file.now.view.now) address) (length (plain_view file.now.view.now).sections) ≡ false) (λ k. holds_code (plain_view file.now.view.now) address k ≡ true) }
{
    match file.section_over(SectionKind::Code, address, 4) {
        Some(k) => Some(k),
        None => None,
    }
}

/// How many words code range `k` has from `address` on, where it holds one.
pub(crate) fn words_from(view: &ElfView, k: usize, address: u32) -> u32
    requires read { IsRead view.now }
    requires holds { holds_code (plain_view view.now) address k ≡ true }
    ensures { result ≡ ((section_at (plain_view view.now) k).addr + (section_at (plain_view view.now) k).size - address) / 4 }
{
    let section = &view.sections[k];
    (section.addr + section.size - address) / 4
}
