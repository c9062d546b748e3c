//! Which sections share bytes of the file with others.
ghost use Rattle.std.specs.Prelude.{◌≡◌, ◌<◌, ◌∷◌, [], ◌++◌, if◌then◌else◌, true, length, IfOk, OnOk};
ghost use Rattle.list_checks.specs.Tests.{any_below};
ghost use Rattle.elf_reader.specs.{File.{plain_view}, Sections.{stands_in_file}, Loaded.{section_at, overlaps_section}};
ghost use Rattle.loaded_file.specs.Contents.{has_content, content_start, content_end, AreContentBounds};

use elf_reader::{ElfView, SHT_NOBITS, SHT_NULL};
use list_checks::{arrange, count_under};
use std::alloc::{AllocError, Global};

/// Where the contents of sections begin and end in the file, each list in ascending order.
#[derive(Drop)]
pub(crate) struct ContentBounds {
    /// The offsets of the first bytes.
    pub(crate) starts: Vec<u64>,
    /// The offsets behind the last bytes.
    pub(crate) ends: Vec<u64>,
}

/// The bounds of the sections of a view that have bytes in the file. It fails only where no memory was left.
///
/// The time grows with n log n, where n is the number of sections.
pub(crate) fn content_bounds(alloc: Global, view: &ElfView) -> Result<ContentBounds, AllocError>
    ensures { IfOk result (λ bounds. AreContentBounds (plain_view view.now) bounds) }
{
    let mut starts = Vec::new(alloc);
    let mut ends = Vec::new(alloc);
    for k in 0..view.sections.len() {
        push_bounds(&mut starts, &mut ends, view, k)?;
    }
    arrange(&mut starts);
    arrange(&mut ends);
    Ok(ContentBounds { starts, ends })
}

/// Adds the bounds of section `k`, if it has bytes in the file.
fn push_bounds(
    starts: &mut Vec<u64>,
    ends: &mut Vec<u64>,
    view: &ElfView,
    k: usize,
) -> Result<(), AllocError>
    requires { k < length view.now.sections.items }
    ensures starts { OnOk result (starts.new.items ≡ starts.old.items ++ (if has_content (plain_view view.now) k then content_start (plain_view view.now) k ∷ [] else [])) }
    ensures ends { OnOk result (ends.new.items ≡ ends.old.items ++ (if has_content (plain_view view.now) k then content_end (plain_view view.now) k ∷ [] else [])) }
{
    if has_content(view, k) {
        starts.push(content_start(view, k))?;
        ends.push(content_end(view, k))?;
    }
    Ok(())
}

/// Section `k` has bytes in the file.
fn has_content(view: &ElfView, k: usize) -> bool
    requires { k < length view.now.sections.items }
    ensures { result ≡ has_content (plain_view view.now) k }
{
    let section = &view.sections[k];
    !(section.kind == SHT_NULL || section.kind == SHT_NOBITS) && section.size > 0
}

/// The offset of the first byte of section `k`.
fn content_start(view: &ElfView, k: usize) -> u64
    requires { k < length view.now.sections.items }
    ensures { result ≡ content_start (plain_view view.now) k }
{
    u64::from(view.sections[k].offset)
}

/// The offset behind the last byte of section `k`.
fn content_end(view: &ElfView, k: usize) -> u64
    requires { k < length view.now.sections.items }
    ensures { result ≡ content_end (plain_view view.now) k }
{
    let section = &view.sections[k];
    u64::from(section.offset) + u64::from(section.size)
}

/// The content of some other section meets that of section `k`, which stands in the file. More than one of those
/// that begin before its end, itself among them, then end behind its beginning.
///
/// The time grows with the logarithm of the number of sections.
pub(crate) fn overlaps_some_section(view: &ElfView, bounds: &ContentBounds, k: usize) -> bool
    requires bounds { AreContentBounds (plain_view view.now) bounds.now }
    requires below { k < length view.now.sections.items }
    requires stands { stands_in_file (section_at (plain_view view.now) k).kind ≡ true }
    ensures { result ≡ any_below (overlaps_section (plain_view view.now) k (section_at (plain_view view.now) k).offset (section_at (plain_view view.now) k).size) (length (plain_view view.now).sections) }
{
    if !has_content(view, k) {
        return false;
    }
    let begun = count_under(&bounds.starts, content_end(view, k));
    let ended = count_under(&bounds.ends, content_start(view, k) + 1);
    ended + 1 < begun
}
