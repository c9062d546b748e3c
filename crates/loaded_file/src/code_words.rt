ghost use Rattle.std.specs.Prelude.{◌≡◌, ◌+◌, ◌^◌, ◌<◌, true, false, length, MatchOption};
ghost use Rattle.list_checks.specs.Tests.{any_below};
ghost use Rattle.elf_reader.specs.File.{plain_view};
ghost use Rattle.loaded_file.specs.{Code.{holds_code, has_content, is_code_word, image_word}, Read.{IsRead}};

use crate::file::LoadedFile;
use crate::reaches::SectionKind;
use elf_reader::ElfView;

/// The word of code at `address` when the program starts, if one stands there.
///
/// The time grows with the logarithm of the number of sections.
pub fn code_word(file: &LoadedFile, address: u32) -> Option<u32>
    requires read { IsRead file.now.view.now }
    ensures { MatchOption result (is_code_word (plain_view file.now.view.now) address ≡ false) (λ word. (is_code_word (plain_view file.now.view.now) address ≡ true) × (word ≡ image_word (plain_view file.now.view.now) address) × (address + 4 < 2 ^ 32)) }
{
    if address % 4 != 0 {
        return None;
    }
    word_in_code(file, address)
}

/// The word at `address` when the program starts, which is one of code.
pub fn word_of_code(file: &LoadedFile, address: u32) -> u32
    requires read { IsRead file.now.view.now }
    requires code { is_code_word (plain_view file.now.view.now) address ≡ true }
    ensures { result ≡ image_word (plain_view file.now.view.now) address }
{
    match code_word(file, address) {
        Some(word) => word,
        None => 0,
    }
}

/// The four bytes from `address`, where a code range holds them.
fn word_in_code(file: &LoadedFile, address: u32) -> Option<u32>
    requires read { IsRead file.now.view.now }
    ensures { MatchOption result (any_below (holds_code (plain_view file.now.view.now) address) (length (plain_view file.now.view.now).sections) ≡ false) (λ word. (any_below (holds_code (plain_view file.now.view.now) address) (length (plain_view file.now.view.now).sections) ≡ true) × (word ≡ image_word (plain_view file.now.view.now) address) × (address + 4 < 2 ^ 32)) }
{
    match file.section_over(SectionKind::Code, address, 4) {
        Some(k) => Some(word_in(file.view, k, address)),
        None => None,
    }
}

/// The word at `address` when the program starts, which code range `k` holds.
pub fn word_in(view: &ElfView, k: usize, address: u32) -> u32
    requires read { IsRead view.now }
    requires holds { holds_code (plain_view view.now) address k ≡ true }
    ensures { result ≡ image_word (plain_view view.now) address }
{
    content_word(view, k, address)
}

/// The word at `address` when the program starts, which the content of section `k` has.
pub fn content_word(view: &ElfView, k: usize, address: u32) -> u32
    requires read { IsRead view.now }
    requires has { has_content (plain_view view.now) address k ≡ true }
    ensures { result ≡ image_word (plain_view view.now) address }
{
    let section = &view.sections[k];
    let at = (address - section.addr) as usize;
    u32::from_le_bytes([
        section.bytes[at],
        section.bytes[at + 1],
        section.bytes[at + 2],
        section.bytes[at + 3],
    ])
}
