ghost use Rattle.std.specs.Prelude.{◌≡◌, ℕ, ◌+◌, ◌<◌, Bool, ◌&&◌, ◌||◌, length, if◌then◌else◌, IfOk};
ghost use Rattle.std.specs.List.{count_by, list_any};
ghost use Rattle.list_checks.specs.{Tests.{any_below}, Sorted.{IsSorted, count_below}};
ghost use Rattle.elf_reader.specs.File.{plain_symbol, plain_view};
ghost use Rattle.loaded_file.specs.Records.{reloc_at, counts, symbol_of};
ghost use Rattle.object_graph.specs.{Marks.{all_rewritable}, Rewritable.{is_pair_low}, Shares.{IsCover, leads_some, leads_by, is_high_by, is_low_of_some, gives_some, gives_by, repeats_at, is_low_shared, is_shared_low, AreSharedWords}};

use crate::cover::{Cover, is_covered, object_cover};
use crate::kinds::is_pair_low;
use crate::soundness::{is_direct, is_pair};
use elf_reader::{ElfView, Reloc, STT_SECTION, Symbol};
use list_checks::{arrange, has, repeats};
use loaded_file::{LoadedFile, counts, has_range, symbol_value, target};
use std::alloc::{AllocError, Global};

/// Where the sites of a program are, those of all its objects.
#[derive(Drop)]
pub(crate) struct SharedWords {
    /// The addresses of the sites, ascending, each as often as there are sites.
    pub(crate) sites: Vec<u64>,
    /// The addresses of the AUIPCs of which a low part shares its word, ascending.
    pub(crate) highs: Vec<u64>,
}

/// The shared words of a program. It fails only where no memory was left.
pub(crate) fn shared_words(
    alloc: Global,
    file: &LoadedFile,
    rewritable: &[bool],
) -> Result<SharedWords, AllocError>
    requires rewritable { rewritable.now ≡ all_rewritable (plain_view file.now.view.now) }
    ensures { IfOk result (AreSharedWords (plain_view file.now.view.now)) }
{
    let cover = object_cover(alloc, file)?;
    let mut pairs = pair_addresses(alloc, file, rewritable, &cover)?;
    arrange(&mut pairs);
    let mut sites = site_addresses(alloc, file, rewritable, &cover, &pairs)?;
    arrange(&mut sites);
    let mut highs = shared_highs(alloc, file, &sites)?;
    arrange(&mut highs);
    Ok(SharedWords { sites, highs })
}

/// The addresses of the AUIPCs of some object.
fn pair_addresses(
    alloc: Global,
    file: &LoadedFile,
    rewritable: &[bool],
    cover: &Cover,
) -> Result<Vec<u64>, AllocError>
    requires rewritable { rewritable.now ≡ all_rewritable (plain_view file.now.view.now) }
    requires cover { IsCover (plain_view file.now.view.now) cover.now }
    ensures { IfOk result (λ pairs. (test : ℕ → Bool) → list_any test pairs.items ≡ any_below (is_high_by (plain_view file.now.view.now) test) (length (plain_view file.now.view.now).relocs)) }
{
    let mut pairs = Vec::new(alloc);
    for i in 0..file.view.relocs.len() {
        push_pair(&mut pairs, file, rewritable, cover, i)?;
    }
    Ok(pairs)
}

/// Adds the address of relocation `i`, if it is of one.
fn push_pair(
    pairs: &mut Vec<u64>,
    file: &LoadedFile,
    rewritable: &[bool],
    cover: &Cover,
    i: usize,
) -> Result<(), AllocError>
    requires rewritable { rewritable.now ≡ all_rewritable (plain_view file.now.view.now) }
    requires cover { IsCover (plain_view file.now.view.now) cover.now }
    requires below { i < length file.now.view.now.relocs.items }
    ensures { IfOk result (λ _. (test : ℕ → Bool) → list_any test pairs.new.items ≡ (list_any test pairs.old.items || is_high_by (plain_view file.now.view.now) test i)) }
{
    if is_pair(file.view, rewritable, i) && leads_some(file, cover, i) {
        pairs.push(u64::from(file.view.relocs[i].at))?;
    }
    Ok(())
}

/// Relocation `i` leads to some object.
fn leads_some(file: &LoadedFile, cover: &Cover, i: usize) -> bool
    requires cover { IsCover (plain_view file.now.view.now) cover.now }
    requires below { i < length file.now.view.now.relocs.items }
    ensures { result ≡ leads_some (plain_view file.now.view.now) i }
{
    let reloc = &file.view.relocs[i];
    counts(file, reloc) && leads_by_number(file, cover, reloc)
}

/// A relocation leads to some object, if it counts.
fn leads_by_number(file: &LoadedFile, cover: &Cover, reloc: &Reloc) -> bool
    requires cover { IsCover (plain_view file.now.view.now) cover.now }
    ensures { result ≡ leads_by (plain_view file.now.view.now) reloc.now (symbol_of (plain_view file.now.view.now) reloc.now) }
{
    match file.view.symbols.get(reloc.symbol as usize) {
        Some(symbol) => leads_by(file, cover, reloc, symbol),
        None => false,
    }
}

/// A relocation with this symbol does.
fn leads_by(file: &LoadedFile, cover: &Cover, reloc: &Reloc, symbol: &Symbol) -> bool
    requires cover { IsCover (plain_view file.now.view.now) cover.now }
    ensures { result ≡ leads_by (plain_view file.now.view.now) reloc.now (plain_symbol symbol.now) }
{
    has_range(file, symbol) && target(file.view, reloc).wrapping_sub(symbol.value) <= symbol.size
        || symbol.kind == STT_SECTION && is_covered(file.view, cover, reloc)
}

/// The addresses of all sites.
fn site_addresses(
    alloc: Global,
    file: &LoadedFile,
    rewritable: &[bool],
    cover: &Cover,
    pairs: &[u64],
) -> Result<Vec<u64>, AllocError>
    requires rewritable { rewritable.now ≡ all_rewritable (plain_view file.now.view.now) }
    requires cover { IsCover (plain_view file.now.view.now) cover.now }
    requires sorted { IsSorted pairs.now }
    requires pairs { (test : ℕ → Bool) → list_any test pairs.now ≡ any_below (is_high_by (plain_view file.now.view.now) test) (length (plain_view file.now.view.now).relocs) }
    ensures { IfOk result (λ sites. (test : ℕ → Bool) → count_by test sites.items ≡ count_below (gives_by (plain_view file.now.view.now) test) (length (plain_view file.now.view.now).relocs)) }
{
    let mut sites = Vec::new(alloc);
    for j in 0..file.view.relocs.len() {
        push_site(&mut sites, file, rewritable, cover, pairs, j)?;
    }
    Ok(sites)
}

/// Adds the address of relocation `j`, if it gives a site.
fn push_site(
    sites: &mut Vec<u64>,
    file: &LoadedFile,
    rewritable: &[bool],
    cover: &Cover,
    pairs: &[u64],
    j: usize,
) -> Result<(), AllocError>
    requires rewritable { rewritable.now ≡ all_rewritable (plain_view file.now.view.now) }
    requires cover { IsCover (plain_view file.now.view.now) cover.now }
    requires sorted { IsSorted pairs.now }
    requires pairs { (test : ℕ → Bool) → list_any test pairs.now ≡ any_below (is_high_by (plain_view file.now.view.now) test) (length (plain_view file.now.view.now).relocs) }
    requires below { j < length file.now.view.now.relocs.items }
    ensures { IfOk result (λ _. (test : ℕ → Bool) → count_by test sites.new.items ≡ count_by test sites.old.items + (if gives_by (plain_view file.now.view.now) test j then 1 else 0)) }
{
    if gives_some(file, rewritable, cover, pairs, j) {
        sites.push(u64::from(file.view.relocs[j].at))?;
    }
    Ok(())
}

/// Relocation `j` gives a site of some object.
fn gives_some(
    file: &LoadedFile,
    rewritable: &[bool],
    cover: &Cover,
    pairs: &[u64],
    j: usize,
) -> bool
    requires rewritable { rewritable.now ≡ all_rewritable (plain_view file.now.view.now) }
    requires cover { IsCover (plain_view file.now.view.now) cover.now }
    requires sorted { IsSorted pairs.now }
    requires pairs { (test : ℕ → Bool) → list_any test pairs.now ≡ any_below (is_high_by (plain_view file.now.view.now) test) (length (plain_view file.now.view.now).relocs) }
    requires below { j < length file.now.view.now.relocs.items }
    ensures { result ≡ gives_some (plain_view file.now.view.now) j }
{
    is_direct(file.view, rewritable, j) && leads_some(file, cover, j)
        || is_low_of_some(file, pairs, j)
}

/// Relocation `j` is of the low part of an AUIPC of some object.
fn is_low_of_some(file: &LoadedFile, pairs: &[u64], j: usize) -> bool
    requires sorted { IsSorted pairs.now }
    requires pairs { (test : ℕ → Bool) → list_any test pairs.now ≡ any_below (is_high_by (plain_view file.now.view.now) test) (length (plain_view file.now.view.now).relocs) }
    requires below { j < length file.now.view.now.relocs.items }
    ensures { result ≡ is_low_of_some (plain_view file.now.view.now) j }
{
    let reloc = &file.view.relocs[j];
    counts_as_low(file, reloc) && has(pairs, high_address(file.view, reloc))
}

/// A relocation counts, and is of the low part of a pair.
fn counts_as_low(file: &LoadedFile, reloc: &Reloc) -> bool
    ensures { result ≡ counts (plain_view file.now.view.now) reloc.now && is_pair_low reloc.now.kind }
{
    counts(file, reloc) && is_pair_low(reloc.kind)
}

/// Where the AUIPC of a low part stands: at its symbol.
fn high_address(view: &ElfView, reloc: &Reloc) -> u64
    ensures { result ≡ (symbol_of (plain_view view.now) reloc.now).value }
{
    u64::from(symbol_value(view, reloc.symbol as usize))
}

/// The addresses of the AUIPCs of which a low part shares its word.
fn shared_highs(alloc: Global, file: &LoadedFile, sites: &[u64]) -> Result<Vec<u64>, AllocError>
    requires sorted { IsSorted sites.now }
    requires sites { (test : ℕ → Bool) → count_by test sites.now ≡ count_below (gives_by (plain_view file.now.view.now) test) (length (plain_view file.now.view.now).relocs) }
    ensures { IfOk result (λ highs. (test : ℕ → Bool) → list_any test highs.items ≡ any_below (is_shared_low (plain_view file.now.view.now) test) (length (plain_view file.now.view.now).relocs)) }
{
    let mut highs = Vec::new(alloc);
    for j in 0..file.view.relocs.len() {
        push_shared_high(&mut highs, file, sites, j)?;
    }
    Ok(highs)
}

/// Adds that of relocation `j`, if it is of a low part that shares its word.
fn push_shared_high(
    highs: &mut Vec<u64>,
    file: &LoadedFile,
    sites: &[u64],
    j: usize,
) -> Result<(), AllocError>
    requires sorted { IsSorted sites.now }
    requires sites { (test : ℕ → Bool) → count_by test sites.now ≡ count_below (gives_by (plain_view file.now.view.now) test) (length (plain_view file.now.view.now).relocs) }
    requires below { j < length file.now.view.now.relocs.items }
    ensures { IfOk result (λ _. (test : ℕ → Bool) → list_any test highs.new.items ≡ (list_any test highs.old.items || is_shared_low (plain_view file.now.view.now) test j)) }
{
    if is_low_shared(file, sites, j) {
        highs.push(high_address(file.view, &file.view.relocs[j]))?;
    }
    Ok(())
}

/// Relocation `j` is of a low part that shares its word.
fn is_low_shared(file: &LoadedFile, sites: &[u64], j: usize) -> bool
    requires sorted { IsSorted sites.now }
    requires sites { (test : ℕ → Bool) → count_by test sites.now ≡ count_below (gives_by (plain_view file.now.view.now) test) (length (plain_view file.now.view.now).relocs) }
    requires below { j < length file.now.view.now.relocs.items }
    ensures { result ≡ is_low_shared (plain_view file.now.view.now) j }
{
    counts_as_low(file, &file.view.relocs[j]) && is_shared(file.view, sites, j)
}

/// There are two sites at the address of relocation `j`.
fn is_shared(view: &ElfView, sites: &[u64], j: usize) -> bool
    requires sorted { IsSorted sites.now }
    requires sites { (test : ℕ → Bool) → count_by test sites.now ≡ count_below (gives_by (plain_view view.now) test) (length (plain_view view.now).relocs) }
    requires below { j < length view.now.relocs.items }
    ensures { result ≡ repeats_at (plain_view view.now) (reloc_at (plain_view view.now) j).at }
{
    let reloc = &view.relocs[j];
    repeats(sites, u64::from(reloc.at))
}
