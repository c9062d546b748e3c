ghost use Rattle.std.specs.Prelude.{◌≡◌, ◌<◌, ◌≤◌, length, IfOk};
ghost use Rattle.elf_reader.specs.File.{plain_view};
ghost use Rattle.object_graph.specs.{Marks.{all_rewritable}, declared.parts.DataWord.{DataWord}, Graphs.{same_word}, Gathered.{GivesJust, AreMovable, is_word_in, AreWords}};

use crate::leads::lead_of;
use crate::parts::DataWord;
use crate::placed::{push_some, sort_placed};
use crate::rewritable_marks::is_rewritable;
use elf_reader::R_RISCV_32;
use loaded_file::{ByteRange, LoadedFile};
use std::alloc::{AllocError, Global};

/// The words of data that lead to the objects of these ranges, by address. `rewritable` are the marks
/// of the relocations of a rewritable kind. It fails only where no memory was left.
///
/// The time grows with n log n, where n is the number of relocations.
pub(crate) fn data_words(
    alloc: Global,
    file: &LoadedFile,
    ranges: &[ByteRange],
    rewritable: &[bool],
) -> Result<Vec<DataWord>, AllocError>
    requires rewritable { rewritable.now ≡ all_rewritable (plain_view file.now.view.now) }
    requires movable { AreMovable (plain_view file.now.view.now) ranges.now }
    requires few { length ranges.now ≤ 4096 }
    ensures { IfOk result (λ words. AreWords (plain_view file.now.view.now) ranges.now words.items) }
{
    let mut words = Vec::new(alloc);
    for i in 0..file.view.relocs.len() {
        let word = word_of(file, ranges, rewritable, i);
        push_some(&mut words, word)?;
    }
    sort_placed(&mut words);
    Ok(words)
}

/// The word of data that relocation `i` gives, if it gives one.
fn word_of(
    file: &LoadedFile,
    ranges: &[ByteRange],
    rewritable: &[bool],
    i: usize,
) -> Option<DataWord>
    requires rewritable { rewritable.now ≡ all_rewritable (plain_view file.now.view.now) }
    requires movable { AreMovable (plain_view file.now.view.now) ranges.now }
    requires few { length ranges.now ≤ 4096 }
    requires below { i < length file.now.view.now.relocs.items }
    ensures { GivesJust same_word (is_word_in (plain_view file.now.view.now) ranges.now) result i }
{
    let reloc = &file.view.relocs[i];
    if reloc.kind != R_RISCV_32 {
        return None;
    }
    if !is_rewritable(file.view, rewritable, i) {
        return None;
    }
    match lead_of(file, ranges, i) {
        Some(lead) => Some(DataWord {
            at: reloc.at,
            object: lead.object,
            offset: lead.offset,
        }),
        None => None,
    }
}
