ghost use Rattle.std.specs.Prelude.{◌≡◌, ◌<◌, ◌==◌, not, ◌&&◌, if◌then◌else◌, length};
ghost use Rattle.list_checks.specs.Tests.{any_below};
ghost use Rattle.elf_reader.specs.File.{plain_view};
ghost use Rattle.loaded_file.specs.{Records.{reloc_at}, Read.{IsRead}};
ghost use Rattle.object_graph.specs.{Rewritable.{holds_target, cuts_range, changes_word, is_rewritable_word}, Lists.{is_changing, AreListsOf}};

use crate::listing::{change_start, is_changing};
use crate::lists::RelocationLists;
use crate::standing::data_word;
use elf_reader::{ElfView, R_RISCV_32, Reloc};
use list_checks::{count_under, has_inside};
use loaded_file::{LoadedFile, target};

/// Relocation `i` is of a word of data that holds its target, and that nothing else changes.
pub(crate) fn is_rewritable_word(file: &LoadedFile, lists: &RelocationLists, i: usize) -> bool
    requires read { IsRead file.now.view.now }
    requires lists { AreListsOf (plain_view file.now.view.now) lists.now }
    requires below { i < length file.now.view.now.relocs.items }
    ensures { result ≡ is_rewritable_word (plain_view file.now.view.now) i (reloc_at (plain_view file.now.view.now) i) }
{
    let reloc = &file.view.relocs[i];
    is_held(file, reloc) && stands_alone(file, lists, i)
}

/// A relocation is of a word of data that holds its target.
fn is_held(file: &LoadedFile, reloc: &Reloc) -> bool
    requires read { IsRead file.now.view.now }
    ensures { result ≡ (reloc.now.kind == 1) && holds_target (plain_view file.now.view.now) reloc.now }
{
    reloc.kind == R_RISCV_32 && holds_target(file, reloc)
}

/// The word of data that a relocation changes holds its target.
fn holds_target(file: &LoadedFile, reloc: &Reloc) -> bool
    requires read { IsRead file.now.view.now }
    ensures { result ≡ holds_target (plain_view file.now.view.now) reloc.now }
{
    match data_word(file, reloc.at) {
        Some(word) => word == target(file.view, reloc),
        None => false,
    }
}

/// The word of relocation `i` is cut by no range of an object, and no other relocation changes it.
fn stands_alone(file: &LoadedFile, lists: &RelocationLists, i: usize) -> bool
    requires lists { AreListsOf (plain_view file.now.view.now) lists.now }
    requires below { i < length file.now.view.now.relocs.items }
    ensures { result ≡ not (any_below (cuts_range (plain_view file.now.view.now) (reloc_at (plain_view file.now.view.now) i).at) (length (plain_view file.now.view.now).symbols)) && not (any_below (changes_word (plain_view file.now.view.now) i (reloc_at (plain_view file.now.view.now) i).at) (length (plain_view file.now.view.now).relocs)) }
{
    !cuts_range(file.view, lists, i) && !is_shared(file, lists, i)
}

/// The word of relocation `i` lies partly in the range of an object: one begins or ends inside it.
fn cuts_range(view: &ElfView, lists: &RelocationLists, i: usize) -> bool
    requires lists { AreListsOf (plain_view view.now) lists.now }
    requires below { i < length view.now.relocs.items }
    ensures { result ≡ any_below (cuts_range (plain_view view.now) (reloc_at (plain_view view.now) i).at) (length (plain_view view.now).symbols) }
{
    let second = change_start(view, i) + 1;
    has_inside(&lists.range_starts, second, 3) || has_inside(&lists.range_ends, second, 3)
}

/// Another relocation changes the word of relocation `i`: of those that begin before the word's end, more
/// than itself end behind its start.
fn is_shared(file: &LoadedFile, lists: &RelocationLists, i: usize) -> bool
    requires lists { AreListsOf (plain_view file.now.view.now) lists.now }
    requires below { i < length file.now.view.now.relocs.items }
    ensures { result ≡ any_below (changes_word (plain_view file.now.view.now) i (reloc_at (plain_view file.now.view.now) i).at) (length (plain_view file.now.view.now).relocs) }
{
    let at = change_start(file.view, i);
    let itself = own_changes(file, i);
    count_under(&lists.ends, at + 1) + itself < count_under(&lists.starts, at + 4)
}

/// How many of the relocations that change the word of relocation `i` are itself.
fn own_changes(file: &LoadedFile, i: usize) -> usize
    requires below { i < length file.now.view.now.relocs.items }
    ensures { result ≡ (if is_changing (plain_view file.now.view.now) i then 1 else 0) }
{
    if is_changing(file, i) { 1 } else { 0 }
}
