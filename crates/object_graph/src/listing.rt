ghost use Rattle.std.specs.Prelude.{◌≡◌, ◌^◌, ◌<◌, ◌∷◌, [], ◌++◌, if◌then◌else◌, length, IfOk};
ghost use Rattle.elf_reader.specs.File.{plain_view};
ghost use Rattle.loaded_file.specs.{Read.{IsRead}, Listed.{IsListOf}};
ghost use Rattle.object_graph.specs.Lists.{AreListsOf, count_of, is_listed, number_of, is_ranged, range_start, range_end, is_changing, change_start, change_end, is_calling, is_lower, low_part, low_key};

use crate::fields::{NO_PART, form_part};
use crate::kinds::{is_call_kind, is_hint, is_pair_low, width_of};
use crate::lists::{Listed, RelocationLists};
use elf_reader::{ElfView, Reloc};
use list_checks::arrange;
use loaded_file::{LoadedFile, code_word, counts, has_range, symbol_value};
use std::alloc::{AllocError, Global};

/// How many numbers a key has for each AUIPC.
pub(crate) const KEYS: u64 = 8192;

/// The lists of a view. It fails only where no memory was left.
pub(crate) fn relocation_lists(
    alloc: Global,
    file: &LoadedFile,
) -> Result<RelocationLists, AllocError>
    requires read { IsRead file.now.view.now }
    ensures { IfOk result (λ lists. AreListsOf (plain_view file.now.view.now) lists) }
{
    let range_starts = number_list(alloc, file, Listed::RangeStart)?;
    let range_ends = number_list(alloc, file, Listed::RangeEnd)?;
    let starts = number_list(alloc, file, Listed::ChangeStart)?;
    let ends = number_list(alloc, file, Listed::ChangeEnd)?;
    let calls = number_list(alloc, file, Listed::Call)?;
    let low_keys = number_list(alloc, file, Listed::LowKey)?;
    Ok(RelocationLists {
        range_starts,
        range_ends,
        starts,
        ends,
        calls,
        low_keys,
    })
}

/// One of the lists.
fn number_list(alloc: Global, file: &LoadedFile, listed: Listed) -> Result<Vec<u64>, AllocError>
    requires read { IsRead file.now.view.now }
    ensures { IfOk result (λ list. IsListOf (is_listed listed (plain_view file.now.view.now)) (number_of listed (plain_view file.now.view.now)) (count_of listed (plain_view file.now.view.now)) list.items) }
{
    let mut list = Vec::new(alloc);
    for k in 0..count_of(file.view, listed) {
        push_number(&mut list, file, listed, k)?;
    }
    arrange(&mut list);
    Ok(list)
}

/// Adds the number of symbol or relocation `k`, if the list has one of it.
fn push_number(
    list: &mut Vec<u64>,
    file: &LoadedFile,
    listed: Listed,
    k: usize,
) -> Result<(), AllocError>
    requires below { k < count_of listed (plain_view file.now.view.now) }
    requires read { IsRead file.now.view.now }
    ensures { IfOk result (λ _. list.new.items ≡ list.old.items ++ (if is_listed listed (plain_view file.now.view.now) k then number_of listed (plain_view file.now.view.now) k ∷ [] else [])) }
{
    if is_listed(file, listed, k) {
        list.push(number_of(file, listed, k))?;
    }
    Ok(())
}

/// How many symbols or relocations may be in a list.
fn count_of(view: &ElfView, listed: Listed) -> usize
    ensures { result ≡ count_of listed (plain_view view.now) }
{
    match listed {
        Listed::RangeStart | Listed::RangeEnd => view.symbols.len(),
        Listed::ChangeStart | Listed::ChangeEnd | Listed::Call | Listed::LowKey => view
            .relocs
            .len(),
    }
}

/// The list has a number of symbol or relocation `k`.
fn is_listed(file: &LoadedFile, listed: Listed, k: usize) -> bool
    requires below { k < count_of listed (plain_view file.now.view.now) }
    ensures { result ≡ is_listed listed (plain_view file.now.view.now) k }
{
    match listed {
        Listed::RangeStart | Listed::RangeEnd => is_ranged(file, k),
        Listed::ChangeStart | Listed::ChangeEnd => is_changing(file, k),
        Listed::Call => is_calling(file, k),
        Listed::LowKey => is_lower(file, k),
    }
}

/// The number of symbol or relocation `k` in the list.
fn number_of(file: &LoadedFile, listed: Listed, k: usize) -> u64
    requires read { IsRead file.now.view.now }
    requires below { k < count_of listed (plain_view file.now.view.now) }
    ensures { result ≡ number_of listed (plain_view file.now.view.now) k }
{
    match listed {
        Listed::RangeStart => range_start(file.view, k),
        Listed::RangeEnd => range_end(file.view, k),
        Listed::ChangeStart | Listed::Call => change_start(file.view, k),
        Listed::ChangeEnd => change_end(file.view, k),
        Listed::LowKey => low_key(file, k),
    }
}

/// Symbol `k` is that of an object.
fn is_ranged(file: &LoadedFile, k: usize) -> bool
    requires below { k < length file.now.view.now.symbols.items }
    ensures { result ≡ is_ranged (plain_view file.now.view.now) k }
{
    has_range(file, &file.view.symbols[k])
}

/// The address of symbol `k`.
fn range_start(view: &ElfView, k: usize) -> u64
    requires { k < length view.now.symbols.items }
    ensures { result ≡ range_start (plain_view view.now) k }
{
    u64::from(view.symbols[k].value)
}

/// The address behind symbol `k`.
fn range_end(view: &ElfView, k: usize) -> u64
    requires { k < length view.now.symbols.items }
    ensures { result ≡ range_end (plain_view view.now) k }
{
    let symbol = &view.symbols[k];
    u64::from(symbol.value) + u64::from(symbol.size)
}

/// Relocation `j` changes bytes.
pub(crate) fn is_changing(file: &LoadedFile, j: usize) -> bool
    requires below { j < length file.now.view.now.relocs.items }
    ensures { result ≡ is_changing (plain_view file.now.view.now) j }
{
    let reloc = &file.view.relocs[j];
    counts(file, reloc) && !is_hint(reloc.kind)
}

/// The first address that relocation `j` changes.
pub(crate) fn change_start(view: &ElfView, j: usize) -> u64
    requires { j < length view.now.relocs.items }
    ensures value { result ≡ change_start (plain_view view.now) j }
    ensures within { result < 2 ^ 32 }
{
    u64::from(view.relocs[j].at)
}

/// The address behind the bytes that relocation `j` changes.
fn change_end(view: &ElfView, j: usize) -> u64
    requires { j < length view.now.relocs.items }
    ensures { result ≡ change_end (plain_view view.now) j }
{
    let reloc = &view.relocs[j];
    u64::from(reloc.at) + u64::from(width_of(reloc.kind))
}

/// Relocation `j` is of a call.
fn is_calling(file: &LoadedFile, j: usize) -> bool
    requires below { j < length file.now.view.now.relocs.items }
    ensures { result ≡ is_calling (plain_view file.now.view.now) j }
{
    let reloc = &file.view.relocs[j];
    counts(file, reloc) && is_call_kind(reloc.kind)
}

/// Relocation `j` is of the low part of a pair.
fn is_lower(file: &LoadedFile, j: usize) -> bool
    requires below { j < length file.now.view.now.relocs.items }
    ensures { result ≡ is_lower (plain_view file.now.view.now) j }
{
    let reloc = &file.view.relocs[j];
    counts(file, reloc) && is_pair_low(reloc.kind)
}

/// The address that the low relocation `j` names, and the low part that it has, as one number.
fn low_key(file: &LoadedFile, j: usize) -> u64
    requires read { IsRead file.now.view.now }
    requires below { j < length file.now.view.now.relocs.items }
    ensures { result ≡ low_key (plain_view file.now.view.now) j }
{
    let reloc = &file.view.relocs[j];
    let named = symbol_value(file.view, reloc.symbol as usize);
    u64::from(named) * KEYS + u64::from(low_part(file, reloc))
}

/// The twelve bits that the instruction of a pair's low relocation takes, if it takes them without more.
fn low_part(file: &LoadedFile, reloc: &Reloc) -> u32
    requires read { IsRead file.now.view.now }
    ensures { result ≡ low_part (plain_view file.now.view.now) reloc.now }
{
    if reloc.addend.cast_unsigned() != 0 {
        return NO_PART;
    }
    match code_word(file, reloc.at) {
        Some(word) => form_part(word, reloc.kind),
        None => NO_PART,
    }
}
