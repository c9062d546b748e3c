ghost use Rattle.std.specs.Prelude.{◌≡◌, ◌<◌, ◌&&◌, not, nat_le, length};
ghost use Rattle.elf_reader.specs.File.{plain_view};
ghost use Rattle.loaded_file.specs.Records.{reloc_at};
ghost use Rattle.object_graph.specs.{Marks.{all_rewritable}, Rewritable.{displacement, is_meant, is_rewritable_pair}, Fixed.{is_unrewritable_by, is_unrewritable}, Disjoint.{AreApart, IsBelow, Finds, AddsRule}, Meant.{is_direct, is_site_kind, leads_inside}};

use crate::listing::is_changing;
use crate::meaning::place_meant;
use crate::range_marks::mark;
use crate::rewritable_marks::is_rewritable;
use elf_reader::{ElfView, R_RISCV_PCREL_HI20, Reloc};
use loaded_file::{ByteRange, LoadedFile, target};

/// Marks the ranges that a relocation means that isn't rewritable.
pub(crate) fn mark_unrewritable(
    marks: &mut [bool],
    file: &LoadedFile,
    rewritable: &[bool],
    ranges: &[ByteRange],
)
    requires rewritable { rewritable.now ≡ all_rewritable (plain_view file.now.view.now) }
    requires ranges { AreApart ranges.now }
    requires len { length marks.old ≡ length ranges.now }
    ensures adds { AddsRule (is_unrewritable (plain_view file.now.view.now)) ranges.now marks.old marks.new }
    ensures len { length marks.new ≡ length marks.old }
{
    for i in 0..file.view.relocs.len() {
        mark(marks, unrewritable_place(file, rewritable, ranges, i));
    }
}

/// The range that relocation `i` means, if it isn't rewritable.
fn unrewritable_place(
    file: &LoadedFile,
    rewritable: &[bool],
    ranges: &[ByteRange],
    i: usize,
) -> Option<usize>
    requires rewritable { rewritable.now ≡ all_rewritable (plain_view file.now.view.now) }
    requires ranges { AreApart ranges.now }
    requires below { i < length file.now.view.now.relocs.items }
    ensures found { Finds (λ home n. is_unrewritable_by (plain_view file.now.view.now) home n i) ranges.now result }
    ensures below { IsBelow (length ranges.now) result }
{
    let reloc = &file.view.relocs[i];
    if is_changing(file, i) {
        misled_place(file, ranges, reloc, is_rewritable(file.view, rewritable, i))
    } else {
        None
    }
}

/// The range that a relocation means, but for one into which or to whose end it leads by a rewritable kind.
fn misled_place(
    file: &LoadedFile,
    ranges: &[ByteRange],
    reloc: &Reloc,
    is_rewritable: bool,
) -> Option<usize>
    requires ranges { AreApart ranges.now }
    ensures found { Finds (λ home n. is_meant (plain_view file.now.view.now) home n reloc.now && not (nat_le (displacement (plain_view file.now.view.now) home reloc.now) n && is_rewritable)) ranges.now result }
    ensures below { IsBelow (length ranges.now) result }
{
    match place_meant(file, ranges, reloc) {
        Some(k) if !(leads_into(file.view, &ranges[k], reloc) && is_rewritable) => Some(k),
        _ => None,
    }
}

/// The range that a relocation means, if it leads into it or to its end.
pub(crate) fn leading_place(file: &LoadedFile, ranges: &[ByteRange], reloc: &Reloc) -> Option<usize>
    requires ranges { AreApart ranges.now }
    ensures found { Finds (leads_inside (plain_view file.now.view.now) reloc.now) ranges.now result }
    ensures below { IsBelow (length ranges.now) result }
{
    match place_meant(file, ranges, reloc) {
        Some(k) if leads_into(file.view, &ranges[k], reloc) => Some(k),
        _ => None,
    }
}

/// A relocation leads into a range that it means, or to its end.
fn leads_into(view: &ElfView, range: &ByteRange, reloc: &Reloc) -> bool
    ensures { result ≡ nat_le (displacement (plain_view view.now) range.now.home reloc.now) range.now.size }
{
    target(view, reloc).wrapping_sub(range.home) <= range.size
}

/// Relocation `i` is of a rewritable kind, and gives a site at the instruction that it changes.
pub(crate) fn is_direct(view: &ElfView, rewritable: &[bool], i: usize) -> bool
    requires rewritable { rewritable.now ≡ all_rewritable (plain_view view.now) }
    requires below { i < length view.now.relocs.items }
    ensures { result ≡ is_direct (plain_view view.now) i }
{
    is_rewritable(view, rewritable, i) && is_site_kind(view.relocs[i].kind)
}

/// The kinds that do: PCREL_HI20, HI20, LO12_I and LO12_S.
fn is_site_kind(kind: u32) -> bool
    ensures { result ≡ is_site_kind kind }
{
    matches!(kind, R_RISCV_PCREL_HI20 | 26..=28)
}

/// It is of a rewritable kind, and it changes an AUIPC.
pub(crate) fn is_pair(view: &ElfView, rewritable: &[bool], i: usize) -> bool
    requires rewritable { rewritable.now ≡ all_rewritable (plain_view view.now) }
    requires below { i < length view.now.relocs.items }
    ensures { result ≡ is_rewritable_pair (plain_view view.now) (reloc_at (plain_view view.now) i) }
{
    is_rewritable(view, rewritable, i) && view.relocs[i].kind == R_RISCV_PCREL_HI20
}
