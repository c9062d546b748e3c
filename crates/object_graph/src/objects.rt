ghost use Rattle.std.specs.Prelude.{◌≡◌, ℕ, ◌<◌, true, length, map, slice_index_or, IfOk, None};
ghost use Rattle.std.specs.List.{All};
ghost use Rattle.list_checks.specs.First.{◌or_else◌};
ghost use Rattle.elf_reader.specs.File.{plain_view};
ghost use Rattle.loaded_file.specs.{Read.{IsRead}, Ranges.{is_range}, ByteRanges.{byte_range_at}};
ghost use Rattle.object_graph.specs.{Graphs.{is_writable, IsNamed}, Gathered.{AreMovable, range_of, symbol_if, first_symbol}};

use crate::meaning::place_of_symbol;
use crate::parts::Object;
use elf_reader::ElfView;
use loaded_file::{ByteRange, LoadedFile};
use std::alloc::{AllocError, Global};

/// The objects of these ranges, in their order. It fails only
/// where no memory was left.
///
/// The time grows with n log m, where n is the number of symbols and m that of the ranges.
pub(crate) fn objects(
    alloc: Global,
    file: &LoadedFile,
    ranges: &[ByteRange],
) -> Result<Vec<Object>, AllocError>
    requires read { IsRead file.now.view.now }
    requires movable { AreMovable (plain_view file.now.view.now) ranges.now }
    ensures ranges { IfOk result (λ objects. map range_of objects.items ≡ ranges.now) }
    ensures named { IfOk result (λ objects. All (IsNamed (plain_view file.now.view.now)) objects.items) }
{
    let names = first_symbols(alloc, file, ranges)?;
    let mut objects = Vec::new(alloc);
    for k in 0..ranges.len() {
        objects.push(object_of(file.view, &ranges[k], names[k]))?;
    }
    Ok(objects)
}

/// The object of a range whose first symbol is `name`.
fn object_of(view: &ElfView, range: &ByteRange, name: Option<usize>) -> Object
    requires read { IsRead view.now }
    requires first { name ≡ first_symbol (plain_view view.now) range.now.home range.now.size (length (plain_view view.now).symbols) }
    requires range { is_range (plain_view view.now) range.now.home range.now.size ≡ true }
    ensures range { range_of result ≡ range.now }
    ensures named { IsNamed (plain_view view.now) result }
{
    match name {
        Some(symbol) => Object {
            name: symbol as u32,
            home: range.home,
            size: range.size,
            writable: is_writable(view, symbol),
        },
        None => Object {
            name: 0,
            home: range.home,
            size: range.size,
            writable: false,
        },
    }
}

/// The section of symbol `k` is writable (`SHF_WRITE`).
fn is_writable(view: &ElfView, k: usize) -> bool
    requires { k < length view.now.symbols.items }
    ensures { result ≡ is_writable (plain_view view.now) k }
{
    match view.sections.get(view.symbols[k].section as usize) {
        Some(section) => section.flags & 1 == 1,
        None => false,
    }
}

/// The first symbol of each of these ranges.
fn first_symbols(
    alloc: Global,
    file: &LoadedFile,
    ranges: &[ByteRange],
) -> Result<Vec<Option<usize>>, AllocError>
    requires movable { AreMovable (plain_view file.now.view.now) ranges.now }
    ensures len { IfOk result (λ names. length names.items ≡ length ranges.now) }
    ensures first { IfOk result (λ names. (k : ℕ) → k < length ranges.now → slice_index_or names.items k None ≡ first_symbol (plain_view file.now.view.now) (byte_range_at ranges.now k).home (byte_range_at ranges.now k).size (length (plain_view file.now.view.now).symbols)) }
{
    let mut names = vec![in alloc; None; ranges.len()]?;
    for i in 0..file.view.symbols.len() {
        note_symbol(&mut names, file, ranges, i);
    }
    Ok(names)
}

/// Notes symbol `i` as the first of its range, if it is one of these ranges and has no symbol yet.
fn note_symbol(names: &mut [Option<usize>], file: &LoadedFile, ranges: &[ByteRange], i: usize)
    requires movable { AreMovable (plain_view file.now.view.now) ranges.now }
    requires below { i < length file.now.view.now.symbols.items }
    requires long { length names.old ≡ length ranges.now }
    ensures len { length names.new ≡ length names.old }
    ensures noted { (k : ℕ) → k < length ranges.now → slice_index_or names.new k None ≡ slice_index_or names.old k None or_else symbol_if (plain_view file.now.view.now) (byte_range_at ranges.now k).home (byte_range_at ranges.now k).size i }
{
    if let Some(place) = place_of_symbol(file, ranges, &file.view.symbols[i]) {
        if names[place].is_none() {
            names[place] = Some(i);
        }
    }
}
