ghost use Rattle.std.specs.Prelude.{◌≡◌, ◌<◌, ◌||◌, length, IfOk};
ghost use Rattle.elf_reader.specs.File.{plain_view};
ghost use Rattle.loaded_file.specs.Read.{IsRead};
ghost use Rattle.object_graph.specs.{Rewritable.{is_rewritable_high, is_rewritable_low, is_rewritable_absolute, is_rewritable_kind}, Marks.{all_rewritable}, Lists.{AreListsOf}};

use crate::listing::relocation_lists;
use crate::lists::RelocationLists;
use crate::pairs::{is_rewritable_high, is_rewritable_low, is_rewritable_pair};
use crate::rewritable_words::is_rewritable_word;
use elf_reader::{ElfView, Reloc};
use loaded_file::LoadedFile;
use std::alloc::{AllocError, Global};

/// Whether each relocation of a view tells all that is to be known of how its address is made, in the order
/// of the relocations: a word of data that holds it, the instructions of its upper and its lower part, and
/// pairs relative to an AUIPC (RISC-V psABI, "Absolute Addresses" and "PC-Relative Symbol Addresses").
/// It fails only where no memory was left.
///
/// The time grows with (s + r) log (s + r), where s and r are the numbers of symbols and relocations.
pub fn rewritable_kinds(alloc: Global, file: &LoadedFile) -> Result<Vec<bool>, AllocError>
    requires read { IsRead file.now.view.now }
    ensures { IfOk result (λ marks. marks.items ≡ all_rewritable (plain_view file.now.view.now)) }
{
    let lists = relocation_lists(alloc, file)?;
    let mut marks = Vec::new(alloc);
    for i in 0..file.view.relocs.len() {
        marks.push(is_rewritable_kind(file, &lists, i))?;
    }
    Ok(marks)
}

/// By these marks, relocation `i` is of a rewritable kind.
pub fn is_rewritable(view: &ElfView, rewritable: &[bool], i: usize) -> bool
    requires rewritable { rewritable.now ≡ all_rewritable (plain_view view.now) }
    requires below { i < length view.now.relocs.items }
    ensures { result ≡ is_rewritable_kind (plain_view view.now) i }
{
    rewritable[i]
}

/// Relocation `i` is of a rewritable kind.
fn is_rewritable_kind(file: &LoadedFile, lists: &RelocationLists, i: usize) -> bool
    requires read { IsRead file.now.view.now }
    requires lists { AreListsOf (plain_view file.now.view.now) lists.now }
    requires below { i < length file.now.view.now.relocs.items }
    ensures { result ≡ is_rewritable_kind (plain_view file.now.view.now) i }
{
    is_rewritable_absolute(file, lists, i) || is_rewritable_pair(file, lists, i)
}

/// It is of one that makes an address by itself.
fn is_rewritable_absolute(file: &LoadedFile, lists: &RelocationLists, i: usize) -> bool
    requires read { IsRead file.now.view.now }
    requires lists { AreListsOf (plain_view file.now.view.now) lists.now }
    requires below { i < length file.now.view.now.relocs.items }
    ensures { result ≡ is_rewritable_absolute (plain_view file.now.view.now) i }
{
    let reloc = &file.view.relocs[i];
    is_rewritable_word(file, lists, i) || is_rewritable_half(file, reloc)
}

/// A relocation is of the upper or of the lower part of its target.
fn is_rewritable_half(file: &LoadedFile, reloc: &Reloc) -> bool
    requires { IsRead file.now.view.now }
    ensures { result ≡ is_rewritable_high (plain_view file.now.view.now) reloc.now || is_rewritable_low (plain_view file.now.view.now) reloc.now }
{
    is_rewritable_high(file, reloc) || is_rewritable_low(file, reloc)
}
