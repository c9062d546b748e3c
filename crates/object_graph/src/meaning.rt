ghost use Rattle.std.specs.Prelude.{◌≡◌, ℕ, ◌<◌, true, false, length, MatchOption};
ghost use Rattle.elf_reader.specs.File.{plain_symbol, plain_view};
ghost use Rattle.loaded_file.specs.{Records.{reloc_at, target}, Ranges.{is_of}, ByteRanges.{byte_range_at}};
ghost use Rattle.object_graph.specs.{Rewritable.{is_meant}, Disjoint.{AreApart, IsBelow, Finds}, Meant.{means_by}};

use crate::disjoint::{place_holding, place_of};
use elf_reader::{Reloc, STT_SECTION, Symbol};
use loaded_file::{ByteRange, LoadedFile, has_range, target};

/// The range of a list that relocation `i` means, if it means one of them: the range of its symbol, or that
/// in which its target lies if its symbol is that of a section. The ranges
/// ascend, share no byte, and have bytes.
///
/// The time grows with the logarithm of the number of ranges.
pub fn meant_range(file: &LoadedFile, ranges: &[ByteRange], i: usize) -> Option<usize>
    requires ranges { AreApart ranges.now }
    requires below { i < length file.now.view.now.relocs.items }
    ensures { MatchOption result ((k : ℕ) → k < length ranges.now → is_meant (plain_view file.now.view.now) (byte_range_at ranges.now k).home (byte_range_at ranges.now k).size (reloc_at (plain_view file.now.view.now) i) ≡ false) (λ k. (k < length ranges.now) × (is_meant (plain_view file.now.view.now) (byte_range_at ranges.now k).home (byte_range_at ranges.now k).size (reloc_at (plain_view file.now.view.now) i) ≡ true)) }
{
    match place_meant(file, ranges, &file.view.relocs[i]) {
        Some(k) => Some(k),
        None => None,
    }
}

/// The range that a relocation means.
pub(crate) fn place_meant(file: &LoadedFile, ranges: &[ByteRange], reloc: &Reloc) -> Option<usize>
    requires ranges { AreApart ranges.now }
    ensures found { Finds (λ home n. is_meant (plain_view file.now.view.now) home n reloc.now) ranges.now result }
    ensures below { IsBelow (length ranges.now) result }
{
    match file.view.symbols.get(reloc.symbol as usize) {
        Some(symbol) => place_by_symbol(file, ranges, reloc, symbol),
        None => None,
    }
}

/// The range that a relocation with this symbol means.
fn place_by_symbol(
    file: &LoadedFile,
    ranges: &[ByteRange],
    reloc: &Reloc,
    symbol: &Symbol,
) -> Option<usize>
    requires ranges { AreApart ranges.now }
    ensures found { Finds (means_by (plain_view file.now.view.now) (plain_symbol symbol.now) (target (plain_view file.now.view.now) reloc.now)) ranges.now result }
    ensures below { IsBelow (length ranges.now) result }
{
    if symbol.kind == STT_SECTION {
        place_holding(ranges, target(file.view, reloc))
    } else {
        place_of_symbol(file, ranges, symbol)
    }
}

/// The place of a symbol's range in such a list, if it stands there.
///
/// The time grows with the logarithm of the number of ranges.
pub fn place_of_symbol(file: &LoadedFile, ranges: &[ByteRange], symbol: &Symbol) -> Option<usize>
    requires ranges { AreApart ranges.now }
    ensures found { Finds (λ home n. is_of (plain_view file.now.view.now) home n (plain_symbol symbol.now)) ranges.now result }
    ensures below { IsBelow (length ranges.now) result }
{
    if has_range(file, symbol) {
        place_of(ranges, symbol.value, symbol.size)
    } else {
        None
    }
}
