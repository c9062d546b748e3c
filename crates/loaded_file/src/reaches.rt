// Sections of a kind by address, and a search among them.
ghost use Rattle.std.specs.Prelude.{◌≡◌, ℕ, Bool, ◌<◌, ◌≤◌, true, false, ◌==◌, ◌&&◌, ◌||◌, ◌++◌, length, slice_index_or, IfOk, OnOk, MatchOption};
ghost use Rattle.std.specs.List.{list_any};
ghost use Rattle.list_checks.specs.Tests.{any_below};
ghost use Rattle.elf_reader.specs.{File.{plain_section, plain_view, PlainView}, Loaded.{section_at, is_loaded}};
ghost use Rattle.loaded_file.specs.{Marks.{all_loaded}, Reaches.{is_of_kind, holds_range, own_reach, passes_own, AreOwnReaches, further, reaches_below, reach_at, AreReaches}};

use crate::symbol_ranges::is_executable;
use elf_reader::{ElfView, SHT_PROGBITS};
use std::alloc::{AllocError, Global};

/// How far sections reach that begin at an address or before.
#[derive(Clone, Copy)]
pub struct Reach {
    /// The address.
    pub start: u32,
    /// The greatest of their ends.
    pub furthest_end: u64,
    /// The number of a section that ends there.
    pub section: usize,
}

/// Which loaded sections with content.
#[derive(Clone, Copy)]
pub enum SectionKind {
    /// Those that are executable.
    Code,
    /// The others.
    Data,
}

/// How far the sections of a kind reach, by where they begin. It fails only where no memory was left.
///
/// The time grows with n log n, where n is the number of sections.
pub(crate) fn reaches(
    alloc: Global,
    view: &ElfView,
    loaded: &[bool],
    kind: SectionKind,
) -> Result<Vec<Reach>, AllocError>
    requires marks { loaded.now ≡ all_loaded (plain_view view.now) }
    ensures { IfOk result (λ reaches. AreReaches kind (plain_view view.now) reaches.items) }
{
    let own = own_reaches(alloc, view, kind, loaded)?;
    match joined(alloc, &own) {
        Ok(reaches) => Ok(reaches),
        Err(error) => Err(error),
    }
}

/// The reaches of the sections of a kind, each by itself.
fn own_reaches(
    alloc: Global,
    view: &ElfView,
    kind: SectionKind,
    loaded: &[bool],
) -> Result<Vec<Reach>, AllocError>
    requires marks { loaded.now ≡ all_loaded (plain_view view.now) }
    ensures { IfOk result (λ reaches. AreOwnReaches kind (plain_view view.now) reaches.items) }
{
    let mut reaches = Vec::new(alloc);
    for k in 0..view.sections.len() {
        push_section(&mut reaches, view, loaded, kind, k)?;
    }
    reaches.sort_unstable_by_key(|reach| reach.start);
    Ok(reaches)
}

/// Adds the reach of section `k`, if it is of the kind.
fn push_section(
    reaches: &mut Vec<Reach>,
    view: &ElfView,
    loaded: &[bool],
    kind: SectionKind,
    k: usize,
) -> Result<(), AllocError>
    requires marks { loaded.now ≡ all_loaded (plain_view view.now) }
    requires below { k < length view.now.sections.items }
    ensures { OnOk result ((asked : Reach → Bool) → list_any asked reaches.new.items ≡ (list_any asked reaches.old.items || passes_own kind (plain_view view.now) asked k)) }
{
    if is_of_kind(view, loaded, kind, k) {
        reaches.push(own_reach(view, k))?;
    }
    Ok(())
}

/// Section `k` is of the kind.
fn is_of_kind(view: &ElfView, loaded: &[bool], kind: SectionKind, k: usize) -> bool
    requires marks { loaded.now ≡ all_loaded (plain_view view.now) }
    requires below { k < length view.now.sections.items }
    ensures { result ≡ is_of_kind kind (plain_view view.now) k }
{
    let section = &view.sections[k];
    match kind {
        SectionKind::Code => has_content(view, loaded, k) && is_executable(section),
        SectionKind::Data => has_content(view, loaded, k) && !is_executable(section),
    }
}

/// Section `k` is loaded and has content.
fn has_content(view: &ElfView, loaded: &[bool], k: usize) -> bool
    requires marks { loaded.now ≡ all_loaded (plain_view view.now) }
    requires below { k < length view.now.sections.items }
    ensures { result ≡ is_loaded (plain_view view.now) k && ((section_at (plain_view view.now) k).kind == 1) }
{
    is_marked(view, loaded, k) && view.sections[k].kind == SHT_PROGBITS
}

/// By these marks, section `k` is loaded.
fn is_marked(view: &ElfView, loaded: &[bool], k: usize) -> bool
    requires marks { loaded.now ≡ all_loaded (plain_view view.now) }
    requires below { k < length view.now.sections.items }
    ensures { result ≡ is_loaded (plain_view view.now) k }
{
    loaded[k]
}

/// How far section `k` reaches.
fn own_reach(view: &ElfView, k: usize) -> Reach
    requires { k < length view.now.sections.items }
    ensures { result ≡ own_reach (plain_view view.now) k }
{
    let section = &view.sections[k];
    Reach {
        start: section.addr,
        furthest_end: u64::from(section.addr) + u64::from(section.size),
        section: k,
    }
}

/// Of each reach and those before it the furthest.
fn joined(alloc: Global, own: &[Reach]) -> Result<Vec<Reach>, AllocError>
    ensures { IfOk result (λ reaches. reaches.items ≡ reaches_below own.now (length own.now)) }
{
    let mut reaches = Vec::new(alloc);
    let mut last = Reach {
        start: 0,
        furthest_end: 0,
        section: 0,
    };
    for k in 0..own.len() {
        last = further(&last, &own[k]);
        reaches.push(last)?;
    }
    Ok(reaches)
}

/// The further of two reaches, from the beginning of the second.
fn further(last: &Reach, reach: &Reach) -> Reach
    ensures { result ≡ further last.now reach.now }
{
    if last.furthest_end <= reach.furthest_end {
        *reach
    } else {
        Reach {
            start: reach.start,
            furthest_end: last.furthest_end,
            section: last.section,
        }
    }
}

/// The number of a section that has the `size` bytes from `address`, if one has.
///
/// The time grows with the logarithm of the number of sections.
pub(crate) fn section_over(reaches: &[Reach], address: u32, size: u32) -> Option<usize>
    ensures { (kind : SectionKind) (v : PlainView) → AreReaches kind v reaches.now → MatchOption result (any_below (holds_range kind v address size) (length v.sections) ≡ false) (λ k. (k < length v.sections) × (holds_range kind v address size k ≡ true)) }
{
    let begun = reaches.partition_point(|reach| reach.start <= address);
    if begun == 0 {
        return None;
    }
    let last = &reaches[begun - 1];
    if u64::from(address) + u64::from(size) <= last.furthest_end {
        Some(last.section)
    } else {
        None
    }
}
