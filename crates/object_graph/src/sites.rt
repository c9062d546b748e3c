ghost use Rattle.std.specs.Prelude.{◌≡◌, ◌<◌, ◌≤◌, ◌==◌, true, ◌||◌, length, IfOk};
ghost use Rattle.elf_reader.specs.File.{plain_view};
ghost use Rattle.loaded_file.specs.Records.{reloc_at};
ghost use Rattle.object_graph.specs.{Rewritable.{is_pair_low}, Marks.{all_rewritable}, declared.parts.SiteKind.{SiteKind}, declared.parts.Site.{Site}, Graphs.{makes_part, same_part, same_site}, Gathered.{gives, GivesJust, AreMovable, gives_alone, gives_high, gives_low, is_site_in, AreHighs, AreSites}};

use crate::kinds::is_pair_low;
use crate::leads::lead_of;
use crate::lookups::find_site;
use crate::parts::{Site, SiteKind};
use crate::placed::{push_some, sort_placed};
use crate::rewritable_marks::is_rewritable;
use elf_reader::R_RISCV_PCREL_HI20;
use loaded_file::{ByteRange, LoadedFile, counts, symbol_value};
use std::alloc::{AllocError, Global};

/// The sites of the objects of these ranges, by address. `rewritable` are the marks of the relocations of a rewritable kind. It fails only where no memory was left.
///
/// The time grows with n log n, where n is the number of relocations.
pub(crate) fn sites(
    alloc: Global,
    file: &LoadedFile,
    ranges: &[ByteRange],
    rewritable: &[bool],
) -> Result<Vec<Site>, AllocError>
    requires rewritable { rewritable.now ≡ all_rewritable (plain_view file.now.view.now) }
    requires movable { AreMovable (plain_view file.now.view.now) ranges.now }
    requires few { length ranges.now ≤ 4096 }
    ensures { IfOk result (λ sites. AreSites (plain_view file.now.view.now) ranges.now sites.items) }
{
    let highs = high_sites(alloc, file, ranges, rewritable)?;
    let mut sites = Vec::new(alloc);
    for i in 0..file.view.relocs.len() {
        let site = site_of(file, ranges, rewritable, &highs, i);
        push_some(&mut sites, site)?;
    }
    sort_placed(&mut sites);
    Ok(sites)
}

/// The sites of the AUIPCs of pairs, by address.
fn high_sites(
    alloc: Global,
    file: &LoadedFile,
    ranges: &[ByteRange],
    rewritable: &[bool],
) -> Result<Vec<Site>, AllocError>
    requires rewritable { rewritable.now ≡ all_rewritable (plain_view file.now.view.now) }
    requires movable { AreMovable (plain_view file.now.view.now) ranges.now }
    requires few { length ranges.now ≤ 4096 }
    ensures { IfOk result (λ sites. AreHighs (plain_view file.now.view.now) ranges.now sites.items) }
{
    let mut sites = Vec::new(alloc);
    for i in 0..file.view.relocs.len() {
        let site = high_site(file, ranges, rewritable, i);
        push_some(&mut sites, site)?;
    }
    sort_placed(&mut sites);
    Ok(sites)
}

/// The site that relocation `i` gives, if it gives one.
fn site_of(
    file: &LoadedFile,
    ranges: &[ByteRange],
    rewritable: &[bool],
    highs: &[Site],
    i: usize,
) -> Option<Site>
    requires rewritable { rewritable.now ≡ all_rewritable (plain_view file.now.view.now) }
    requires movable { AreMovable (plain_view file.now.view.now) ranges.now }
    requires few { length ranges.now ≤ 4096 }
    requires highs { AreHighs (plain_view file.now.view.now) ranges.now highs.now }
    requires below { i < length file.now.view.now.relocs.items }
    ensures { GivesJust same_site (is_site_in (plain_view file.now.view.now) ranges.now) result i }
{
    if is_pair_low(file.view.relocs[i].kind) {
        low_site(file, ranges, highs, i)
    } else {
        direct_site(file, ranges, rewritable, i)
    }
}

/// The site that relocation `i` gives as the AUIPC of a pair.
fn high_site(file: &LoadedFile, ranges: &[ByteRange], rewritable: &[bool], i: usize) -> Option<Site>
    requires rewritable { rewritable.now ≡ all_rewritable (plain_view file.now.view.now) }
    requires movable { AreMovable (plain_view file.now.view.now) ranges.now }
    requires few { length ranges.now ≤ 4096 }
    requires below { i < length file.now.view.now.relocs.items }
    ensures { GivesJust same_site (gives_high (plain_view file.now.view.now) ranges.now) result i }
{
    if file.view.relocs[i].kind == R_RISCV_PCREL_HI20 {
        direct_site(file, ranges, rewritable, i)
    } else {
        None
    }
}

/// The site that relocation `i` gives by itself.
fn direct_site(
    file: &LoadedFile,
    ranges: &[ByteRange],
    rewritable: &[bool],
    i: usize,
) -> Option<Site>
    requires rewritable { rewritable.now ≡ all_rewritable (plain_view file.now.view.now) }
    requires movable { AreMovable (plain_view file.now.view.now) ranges.now }
    requires few { length ranges.now ≤ 4096 }
    requires below { i < length file.now.view.now.relocs.items }
    ensures { GivesJust same_site (gives_alone (plain_view file.now.view.now) ranges.now) result i }
{
    let reloc = &file.view.relocs[i];
    let Some(kind) = part_of(reloc.kind) else {
        return None;
    };
    if !is_rewritable(file.view, rewritable, i) {
        return None;
    }
    match lead_of(file, ranges, i) {
        Some(lead) => Some(Site {
            at: reloc.at,
            kind,
            object: lead.object,
            offset: lead.offset,
        }),
        None => None,
    }
}

/// The site that relocation `i` gives as the lower part of a pair, of which `highs` are the AUIPCs.
fn low_site(file: &LoadedFile, ranges: &[ByteRange], highs: &[Site], i: usize) -> Option<Site>
    requires highs { AreHighs (plain_view file.now.view.now) ranges.now highs.now }
    requires below { i < length file.now.view.now.relocs.items }
    requires low { is_pair_low (reloc_at (plain_view file.now.view.now) i).kind ≡ true }
    ensures { GivesJust same_site (gives_low (plain_view file.now.view.now) ranges.now) result i }
{
    let reloc = &file.view.relocs[i];
    let Some(kind) = part_of(reloc.kind) else {
        return None;
    };
    if !counts(file, reloc) {
        return None;
    }
    match find_site(highs, symbol_value(file.view, reloc.symbol as usize)) {
        Some(high) => Some(Site {
            at: reloc.at,
            kind,
            object: high.object,
            offset: high.offset,
        }),
        None => None,
    }
}

/// Which part of an address a relocation of this kind makes, if it makes one.
fn part_of(kind: u32) -> Option<SiteKind>
    ensures { (part : SiteKind) → gives same_part part result ≡ makes_part part kind }
{
    if is_upper(kind) {
        Some(SiteKind::Hi)
    } else if is_lower(kind) {
        Some(SiteKind::LowI)
    } else if is_stored(kind) {
        Some(SiteKind::LowS)
    } else {
        None
    }
}

/// The upper part: PCREL_HI20 and HI20.
fn is_upper(kind: u32) -> bool
    ensures { result ≡ (kind == 26) || (kind == 23) }
{
    matches!(kind, 23 | 26)
}

/// The lower part in an ADDI or a load: PCREL_LO12_I and LO12_I.
fn is_lower(kind: u32) -> bool
    ensures { result ≡ (kind == 27) || (kind == 24) }
{
    matches!(kind, 24 | 27)
}

/// The lower part in a store: PCREL_LO12_S and LO12_S.
fn is_stored(kind: u32) -> bool
    ensures { result ≡ (kind == 28) || (kind == 25) }
{
    matches!(kind, 25 | 28)
}
