ghost use Rattle.std.specs.Prelude.{◌≡◌, ℕ, ◌<◌, ◌==◌, ◌||◌, length, IfOk};
ghost use Rattle.list_checks.specs.Tests.{any_below};
ghost use Rattle.elf_reader.specs.File.{plain_symbol, plain_view};
ghost use Rattle.loaded_file.specs.Ranges.{owner_of};
ghost use Rattle.object_graph.specs.{Fixed.{stands_in_zeros, is_in_zeros}, Disjoint.{AreApart, IsBelow, Finds, AddsRule}, Names.{has_name, is_named, is_named_by, AreListedNames}};

use crate::meaning::place_of_symbol;
use crate::range_marks::mark;
use board_config::Board;
use elf_reader::{ElfView, SHT_NOBITS, Symbol};
use loaded_file::{ByteRange, LoadedFile};
use std::alloc::{AllocError, Global};
use std::collections::BTreeSet;

/// Marks the ranges in sections without content, if the board doesn't let these move.
pub(crate) fn mark_zeros(marks: &mut [bool], file: &LoadedFile, board: &Board, ranges: &[ByteRange])
    requires ranges { AreApart ranges.now }
    requires len { length marks.old ≡ length ranges.now }
    ensures adds { AddsRule (is_in_zeros (plain_view file.now.view.now) board.now) ranges.now marks.old marks.new }
    ensures len { length marks.new ≡ length marks.old }
{
    if !board.bss_movable {
        mark_all_zeros(marks, file, ranges);
    }
}

/// Marks the ranges in sections without content.
fn mark_all_zeros(marks: &mut [bool], file: &LoadedFile, ranges: &[ByteRange])
    requires ranges { AreApart ranges.now }
    requires len { length marks.old ≡ length ranges.now }
    ensures adds { AddsRule (λ home n. any_below (stands_in_zeros (plain_view file.now.view.now) home n) (length (plain_view file.now.view.now).symbols)) ranges.now marks.old marks.new }
    ensures len { length marks.new ≡ length marks.old }
{
    for k in 0..file.view.symbols.len() {
        mark(marks, place_in_zeros(file, ranges, k));
    }
}

/// The range of symbol `k`, if it stands in a section without content.
fn place_in_zeros(file: &LoadedFile, ranges: &[ByteRange], k: usize) -> Option<usize>
    requires ranges { AreApart ranges.now }
    requires below { k < length file.now.view.now.symbols.items }
    ensures found { Finds (λ home n. stands_in_zeros (plain_view file.now.view.now) home n k) ranges.now result }
    ensures below { IsBelow (length ranges.now) result }
{
    let symbol = &file.view.symbols[k];
    if owner_has_no_content(file.view, symbol) {
        place_of_symbol(file, ranges, symbol)
    } else {
        None
    }
}

/// The section of a symbol has no content.
fn owner_has_no_content(view: &ElfView, symbol: &Symbol) -> bool
    ensures { result ≡ ((owner_of (plain_view view.now) (plain_symbol symbol.now)).kind == 8) }
{
    match view.sections.get(symbol.section as usize) {
        Some(section) => section.kind == SHT_NOBITS,
        None => false,
    }
}

/// Marks the ranges of which a name is one of these, or that of their section.
pub(crate) fn mark_named(
    marks: &mut [bool],
    file: &LoadedFile,
    names: &BTreeSet<&[u8]>,
    ranges: &[ByteRange],
)
    requires ranges { AreApart ranges.now }
    requires len { length marks.old ≡ length ranges.now }
    ensures adds { AddsRule (is_named (plain_view file.now.view.now) (has_name names.now)) ranges.now marks.old marks.new }
    ensures len { length marks.new ≡ length marks.old }
{
    for k in 0..file.view.symbols.len() {
        mark(marks, named_place(file, names, ranges, k));
    }
}

/// The range of symbol `k`, if its name or that of its section is one of these.
fn named_place(
    file: &LoadedFile,
    names: &BTreeSet<&[u8]>,
    ranges: &[ByteRange],
    k: usize,
) -> Option<usize>
    requires ranges { AreApart ranges.now }
    requires below { k < length file.now.view.now.symbols.items }
    ensures found { Finds (λ home n. is_named_by (plain_view file.now.view.now) (has_name names.now) home n k) ranges.now result }
    ensures below { IsBelow (length ranges.now) result }
{
    let symbol = &file.view.symbols[k];
    if has_name_among(file.view, names, symbol) {
        place_of_symbol(file, ranges, symbol)
    } else {
        None
    }
}

/// The name of a symbol is one of these, or that of its section.
fn has_name_among(view: &ElfView, names: &BTreeSet<&[u8]>, symbol: &Symbol) -> bool
    ensures { result ≡ (has_name names.now symbol.now.name.now || has_name names.now (owner_of (plain_view view.now) (plain_symbol symbol.now)).name) }
{
    is_one_of(names, symbol.name) || is_one_of(names, owner_name(view, symbol))
}

/// The name of the section of a symbol; empty where it has none.
fn owner_name<'a>(view: &ElfView<'a>, symbol: &Symbol) -> &'a [u8]
    ensures { result.now ≡ (owner_of (plain_view view.now) (plain_symbol symbol.now)).name }
{
    match view.sections.get(symbol.section as usize) {
        Some(section) => section.name,
        None => &[],
    }
}

/// The names in the board's list.
pub(crate) fn listed_names<'a>(
    alloc: Global,
    board: &'a Board,
) -> Result<BTreeSet<&'a [u8]>, AllocError>
    ensures { IfOk result (λ names. AreListedNames board.now names) }
{
    let mut names = BTreeSet::new(alloc);
    for listed in &board.fix {
        names.insert(listed.as_bytes())?;
    }
    Ok(names)
}

/// A name is one of these. The time grows with the logarithm of their number.
fn is_one_of(names: &BTreeSet<&[u8]>, name: &[u8]) -> bool
    ensures { result ≡ has_name names.now name.now }
{
    names.contains(name)
}
