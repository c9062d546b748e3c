ghost use Rattle.std.specs.Prelude.{◌≡◌, ℕ, ◌<◌, ◌&&◌, ◌||◌, Bool, length, IfOk};
ghost use Rattle.std.specs.List.{list_any};
ghost use Rattle.list_checks.specs.{Tests.{any_below}, Sorted.{IsSorted}};
ghost use Rattle.elf_reader.specs.File.{plain_symbol, plain_view};
ghost use Rattle.loaded_file.specs.{Records.{symbol_at}, Ranges.{has_range, inside}};
ghost use Rattle.object_graph.specs.{Fixed.{is_alias, aliases_into, has_aliased_section, is_aliased}, Disjoint.{AreApart, IsBelow, Finds, is_place, mark_at, AddsRule}, Aliases.{aliases_by, is_hit, is_hit_in}};

use crate::meaning::place_of_symbol;
use crate::range_marks::{is_marked, mark, no_marks};
use elf_reader::{STT_SECTION, Symbol};
use list_checks::{arrange, has_inside};
use loaded_file::{ByteRange, LoadedFile, counts, has_range, symbol_value, target};
use std::alloc::{AllocError, Global};

/// The symbol to which the global pointer is set (RISC-V psABI, "Global-pointer").
const GLOBAL_POINTER: &[u8] = b"__global_pointer$";

/// Whether a relocation aliases an object of each section: it leads into the object by a symbol that
/// tells of none. It fails only where no memory was left.
pub(crate) fn aliased_sections(alloc: Global, file: &LoadedFile) -> Result<Vec<bool>, AllocError>
    ensures { IfOk result (λ aliased. (s : ℕ) → mark_at aliased.items s ≡ any_below (aliases_into (plain_view file.now.view.now) s) (length (plain_view file.now.view.now).relocs)) }
{
    let mut aliases = alias_addresses(alloc, file)?;
    arrange(&mut aliases);
    let mut aliased = no_marks(alloc, file.view.sections.len())?;
    mark_hits(&mut aliased, file, &aliases);
    Ok(aliased)
}

/// Where the relocations that alias lead: their symbols and their targets.
fn alias_addresses(alloc: Global, file: &LoadedFile) -> Result<Vec<u64>, AllocError>
    ensures { IfOk result (λ aliases. (test : ℕ → Bool) → list_any test aliases.items ≡ any_below (aliases_by (plain_view file.now.view.now) test) (length (plain_view file.now.view.now).relocs)) }
{
    let mut aliases = Vec::new(alloc);
    for i in 0..file.view.relocs.len() {
        push_alias(&mut aliases, file, i)?;
    }
    Ok(aliases)
}

/// Adds where relocation `i` leads, if it aliases.
fn push_alias(aliases: &mut Vec<u64>, file: &LoadedFile, i: usize) -> Result<(), AllocError>
    requires below { i < length file.now.view.now.relocs.items }
    ensures { IfOk result (λ _. (test : ℕ → Bool) → list_any test aliases.new.items ≡ (list_any test aliases.old.items || aliases_by (plain_view file.now.view.now) test i)) }
{
    let reloc = &file.view.relocs[i];
    let number = reloc.symbol as usize;
    if counts(file, reloc) && is_alias(file, number) {
        aliases.push(u64::from(symbol_value(file.view, number)))?;
        aliases.push(u64::from(target(file.view, reloc)))?;
    }
    Ok(())
}

/// Whether symbol `k` tells of no object: it is neither that of one, nor of a section, nor the global pointer. A
/// relocation that leads into an object by such a symbol keeps all objects of the section.
pub fn is_alias(file: &LoadedFile, k: usize) -> bool
    ensures { result ≡ is_alias (plain_view file.now.view.now) (symbol_at (plain_view file.now.view.now) k) }
{
    match file.view.symbols.get(k) {
        Some(symbol) => tells_of_none(file, symbol),
        None => true,
    }
}

fn tells_of_none(file: &LoadedFile, symbol: &Symbol) -> bool
    ensures { result ≡ is_alias (plain_view file.now.view.now) (plain_symbol symbol.now) }
{
    !has_range(file, symbol) && symbol.kind != STT_SECTION && symbol.name != GLOBAL_POINTER
}

/// Marks the section of each object into which one aliases.
fn mark_hits(aliased: &mut [bool], file: &LoadedFile, aliases: &[u64])
    requires sorted { IsSorted aliases.now }
    requires exact { (test : ℕ → Bool) → list_any test aliases.now ≡ any_below (aliases_by (plain_view file.now.view.now) test) (length (plain_view file.now.view.now).relocs) }
    requires len { length aliased.old ≡ length file.now.view.now.sections.items }
    ensures adds { (s : ℕ) → mark_at aliased.new s ≡ (mark_at aliased.old s || any_below (is_hit_in (plain_view file.now.view.now) s) (length (plain_view file.now.view.now).symbols)) }
    ensures len { length aliased.new ≡ length aliased.old }
{
    for k in 0..file.view.symbols.len() {
        mark(aliased, hit_section(file, aliases, k));
    }
}

/// The section of symbol `k`, if that is of an object into which one aliases.
fn hit_section(file: &LoadedFile, aliases: &[u64], k: usize) -> Option<usize>
    requires sorted { IsSorted aliases.now }
    requires exact { (test : ℕ → Bool) → list_any test aliases.now ≡ any_below (aliases_by (plain_view file.now.view.now) test) (length (plain_view file.now.view.now).relocs) }
    requires below { k < length file.now.view.now.symbols.items }
    ensures found { (s : ℕ) → is_hit_in (plain_view file.now.view.now) s k ≡ is_place s result }
    ensures below { IsBelow (length file.now.view.now.sections.items) result }
{
    let symbol = &file.view.symbols[k];
    if has_range(file, symbol) && is_hit(aliases, symbol) {
        Some(symbol.section as usize)
    } else {
        None
    }
}

/// One of the addresses lies in the range of a symbol.
fn is_hit(aliases: &[u64], symbol: &Symbol) -> bool
    requires { IsSorted aliases.now }
    ensures { result ≡ list_any (inside symbol.now.value symbol.now.size) aliases.now }
{
    has_inside(aliases, u64::from(symbol.value), u64::from(symbol.size))
}

/// The range of symbol `k`, if a relocation aliases an object of its section.
fn aliased_place(
    file: &LoadedFile,
    k: usize,
    aliased: &[bool],
    ranges: &[ByteRange],
) -> Option<usize>
    requires aliased { (s : ℕ) → mark_at aliased.now s ≡ any_below (aliases_into (plain_view file.now.view.now) s) (length (plain_view file.now.view.now).relocs) }
    requires ranges { AreApart ranges.now }
    requires below { k < length file.now.view.now.symbols.items }
    ensures found { Finds (λ home n. has_aliased_section (plain_view file.now.view.now) home n k) ranges.now result }
    ensures below { IsBelow (length ranges.now) result }
{
    let symbol = &file.view.symbols[k];
    if is_marked(aliased, symbol.section as usize) {
        place_of_symbol(file, ranges, symbol)
    } else {
        None
    }
}

/// Marks the ranges in sections into whose objects a relocation aliases.
pub(crate) fn mark_aliased(
    marks: &mut [bool],
    file: &LoadedFile,
    aliased: &[bool],
    ranges: &[ByteRange],
)
    requires aliased { (s : ℕ) → mark_at aliased.now s ≡ any_below (aliases_into (plain_view file.now.view.now) s) (length (plain_view file.now.view.now).relocs) }
    requires len { length marks.old ≡ length ranges.now }
    requires ranges { AreApart ranges.now }
    ensures len { length marks.new ≡ length marks.old }
    ensures adds { AddsRule (is_aliased (plain_view file.now.view.now)) ranges.now marks.old marks.new }
{
    for k in 0..file.view.symbols.len() {
        mark(marks, aliased_place(file, k, aliased, ranges));
    }
}
