ghost use Rattle.std.specs.Prelude.{◌≡◌, ℕ, ◌<◌, ◌&&◌, length};
ghost use Rattle.elf_reader.specs.File.{plain_view};
ghost use Rattle.loaded_file.specs.Records.{reloc_at, counts};
ghost use Rattle.object_graph.specs.{Marks.{all_rewritable}, Disjoint.{AreApart, IsBelow, Finds, AddsRule}, Shares.{shares_from, is_shared_from, shares_a_word, AreSharedWords}};

use crate::range_marks::mark;
use crate::shared_words::SharedWords;
use crate::soundness::{is_direct, is_pair, leading_place};
use elf_reader::ElfView;
use list_checks::{has, repeats};
use loaded_file::{ByteRange, LoadedFile, counts};

/// Marks the ranges with a site that shares its word.
pub(crate) fn mark_shared(
    marks: &mut [bool],
    file: &LoadedFile,
    rewritable: &[bool],
    words: &SharedWords,
    ranges: &[ByteRange],
)
    requires rewritable { rewritable.now ≡ all_rewritable (plain_view file.now.view.now) }
    requires words { AreSharedWords (plain_view file.now.view.now) words.now }
    requires ranges { AreApart ranges.now }
    requires len { length marks.old ≡ length ranges.now }
    ensures adds { AddsRule (shares_a_word (plain_view file.now.view.now)) ranges.now marks.old marks.new }
    ensures len { length marks.new ≡ length marks.old }
{
    for i in 0..file.view.relocs.len() {
        mark(marks, shared_place(file, rewritable, words, ranges, i));
    }
}

/// The range that relocation `i` leads to, if it gives a site that shares its word, or one of which a low
/// part does.
fn shared_place(
    file: &LoadedFile,
    rewritable: &[bool],
    words: &SharedWords,
    ranges: &[ByteRange],
    i: usize,
) -> Option<usize>
    requires rewritable { rewritable.now ≡ all_rewritable (plain_view file.now.view.now) }
    requires words { AreSharedWords (plain_view file.now.view.now) words.now }
    requires ranges { AreApart ranges.now }
    requires below { i < length file.now.view.now.relocs.items }
    ensures found { Finds (λ home n. is_shared_from (plain_view file.now.view.now) home n i) ranges.now result }
    ensures below { IsBelow (length ranges.now) result }
{
    if is_sharing(file, rewritable, words, i) {
        leading_place(file, ranges, &file.view.relocs[i])
    } else {
        None
    }
}

/// Relocation `i` counts, and gives such a site, if it leads to an object.
fn is_sharing(file: &LoadedFile, rewritable: &[bool], words: &SharedWords, i: usize) -> bool
    requires rewritable { rewritable.now ≡ all_rewritable (plain_view file.now.view.now) }
    requires words { AreSharedWords (plain_view file.now.view.now) words.now }
    requires below { i < length file.now.view.now.relocs.items }
    ensures { result ≡ counts (plain_view file.now.view.now) (reloc_at (plain_view file.now.view.now) i) && shares_from (plain_view file.now.view.now) i }
{
    counts(file, &file.view.relocs[i]) && shares_from(file.view, rewritable, words, i)
}

/// Relocation `i` gives a site that shares its word, or one of which a low part does, if it leads to an
/// object.
fn shares_from(view: &ElfView, rewritable: &[bool], words: &SharedWords, i: usize) -> bool
    requires rewritable { rewritable.now ≡ all_rewritable (plain_view view.now) }
    requires words { AreSharedWords (plain_view view.now) words.now }
    requires below { i < length view.now.relocs.items }
    ensures { result ≡ shares_from (plain_view view.now) i }
{
    let at = u64::from(view.relocs[i].at);
    is_direct(view, rewritable, i) && repeats(&words.sites, at)
        || is_pair(view, rewritable, i) && has(&words.highs, at)
}
