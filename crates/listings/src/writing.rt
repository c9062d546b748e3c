ghost use Rattle.std.specs.Prelude.{◌≡◌, ℕ, ◌<◌, ◌≤◌, ◌*◌, ◌∷◌, [], true, false, None, Some, map, length, All};
ghost use Rattle.elf_reader.specs.{File.{IsFile, plain_view}, Faults.{first_fault}};
ghost use Rattle.list_checks.specs.Tests.{lies_in, ranges_overlap};
ghost use Rattle.elf_writer.specs.{Parts.{new_segment}, Conditions.{is_loaded_word, IsAddable, IsWritable}};

use crate::cases::Case;
use crate::listing::Listing;
use crate::texts::numbers;
use anyhow::{Result, bail};
use elf_reader::{ElfView, Section, Segment, read};
use elf_writer::{Patch, SegmentBytes, SymbolMove, write};
use loaded_file::LoadedFile;
use std::alloc::Global;

/// The most bytes of a new segment that these tests let pass.
const SEGMENT_LIMIT: usize = 0x1000_0000;

/// The word at `at` lies in the file bytes of a section.
fn holds_word(section: &Section, at: u32) -> bool
    ensures { result ≡ true → lies_in section.now.offset section.now.size at 4 ≡ true }
{
    let (start, at) = (u64::from(section.offset), u64::from(at));
    start <= at && at + 4 <= start + u64::from(section.size)
}

/// The word at `at` lies in the file bytes of section `k`, which is loaded.
#[tactic(auto, using(crate::proofs::AllowedLemmas::word_found))]
fn has_word(file: &LoadedFile, at: u32, k: usize) -> bool
    requires below { k < length file.now.view.now.sections.items }
    ensures { result ≡ true → is_loaded_word (plain_view file.now.view.now) at ≡ true }
{
    let section = &file.view.sections[k];
    if !file.is_loaded(k) || section.kind != 1 {
        return false;
    }
    holds_word(section, at)
}

/// Two ranges share no byte.
fn are_disjoint(start: u32, size: u32, other: u32, other_size: u32) -> bool
    ensures { result ≡ true → ranges_overlap start size other other_size ≡ false }
{
    let (end, other_end) = (
        u64::from(start) + u64::from(size),
        u64::from(other) + u64::from(other_size),
    );
    end <= u64::from(other) || other_end <= u64::from(start)
}

/// No segment shares an address with a new one of `size` bytes.
fn is_clear(base: u32, size: u32, segments: &[Segment]) -> bool
    ensures { result ≡ true → All (λ s. ranges_overlap s.vaddr s.memsz base size ≡ false) segments.now }
{
    for segment in segments {
        if !are_disjoint(segment.vaddr, segment.memsz, base, size) {
            return false;
        }
    }
    true
}

/// A segment can be added.
fn is_addable(view: &ElfView, new: &SegmentBytes) -> bool
    ensures { result ≡ true → IsAddable (plain_view view.now) (new_segment new.now) × (length new.now.bytes.items ≤ 268435456) }
{
    let size = new.bytes.len();
    if size == 0 || size > SEGMENT_LIMIT {
        return false;
    }
    if u64::from(new.base) + size as u64 >= 0x1_0000_0000 {
        return false;
    }
    if view.ph_count == 0 || view.ph_count > 63 {
        return false;
    }
    is_clear(new.base, size as u32, &view.segments)
}

/// The patch, the segment and the moved symbol may be written, the patch into section `k`.
fn may_add(
    file: &LoadedFile,
    k: usize,
    patch: Patch,
    segment: &SegmentBytes,
    change: SymbolMove,
) -> bool
    requires file { IsFile file.now.view.now.bytes.now file.now.view.now }
    requires sound { first_fault file.now.view.now.bytes.now ≡ None }
    ensures { result ≡ true → IsWritable (plain_view file.now.view.now) (patch ∷ []) (Some (new_segment segment.now)) (change ∷ []) }
{
    if !may_patch(file, k, patch) || change.symbol as usize >= file.view.symbols.len() {
        return false;
    }
    is_addable(file.view, segment)
}

/// The patch may be written without a segment, into section `k`.
fn may_patch(file: &LoadedFile, k: usize, patch: Patch) -> bool
    requires file { IsFile file.now.view.now.bytes.now file.now.view.now }
    requires sound { first_fault file.now.view.now.bytes.now ≡ None }
    ensures { result ≡ true → IsWritable (plain_view file.now.view.now) (patch ∷ []) None [] }
{
    if k >= file.view.sections.len() {
        return false;
    }
    has_word(file, patch.offset, k)
}

/// What is to be written: a patch in section `k`, and where one is given a segment of these bytes and a moved symbol.
#[derive(Drop)]
struct Change {
    k: usize,
    patch: Patch,
    segment: Option<(SegmentBytes, SymbolMove)>,
}

/// The bytes of a new segment.
const NEW: [u8; 8] = [0x6f, 0x00, 0x40, 0x00, 0x13, 0x00, 0x00, 0x00];

/// `SECTION OFFSET WORD`, and behind it `BASE SYMBOL VALUE` where there is a new segment, which is entered at its base.
fn read_change(alloc: Global, text: &str) -> Result<Change> {
    let numbers = numbers(alloc, text)?;
    let (k, offset, word, segment) = match numbers.as_slice() {
        &[k, offset, word] => (k, offset, word, None),
        &[k, offset, word, base, symbol, value] => {
            let bytes = NEW.to_vec(alloc)?;
            let new = SegmentBytes {
                base,
                entry: base,
                bytes,
            };
            (k, offset, word, Some((new, SymbolMove { symbol, value })))
        }
        _ => bail!("a change has three or six numbers"),
    };
    Ok(Change {
        k: k as usize,
        patch: Patch { offset, word },
        segment,
    })
}

/// The file with the change, if it may be written.
fn changed(alloc: Global, bytes: &[u8], change: &Change) -> Result<Option<Vec<u8>>> {
    let view = read(alloc, bytes)?;
    changed_view(alloc, &view, change)
}

/// A file that was read with the change, if it may be written.
fn changed_view(alloc: Global, view: &ElfView, change: &Change) -> Result<Option<Vec<u8>>>
    requires file { IsFile view.now.bytes.now view.now }
    requires sound { first_fault view.now.bytes.now ≡ None }
{
    let file = LoadedFile::of(alloc, view)?;
    let patch = change.patch;
    match &change.segment {
        Some((new, moved)) if may_add(&file, change.k, patch, new, *moved) => {
            Ok(Some(write(alloc, view, &[patch], Some(new), &[*moved])?))
        }
        None if may_patch(&file, change.k, patch) => {
            Ok(Some(write(alloc, view, &[patch], None, &[])?))
        }
        _ => Ok(None),
    }
}

/// Tells the bytes of a file that another file has changed.
fn tell_changes(listing: &mut Listing, old: &[u8], new: &[u8]) {
    for (place, (before, after)) in old.iter().zip(new).enumerate() {
        if before != after {
            tell_byte(listing, place as u64, *before, *after);
        }
    }
}

/// A line with a byte of a file, and what it becomes.
fn tell_byte(listing: &mut Listing, place: u64, before: u8, after: u8) {
    listing.number("  byte ", place);
    listing.byte(": ", before);
    listing.byte(" to ", after);
    listing.end_line();
}

/// Tells the segments and symbols of a file.
fn tell_parts(listing: &mut Listing, bytes: &[u8]) -> Result<()> {
    let view = read(listing.alloc(), bytes)?;
    listing.hex("  entry ", view.entry);
    listing.number(", ", u64::from(view.ph_count));
    listing.number_line(" program headers at ", u64::from(view.ph_at));
    for segment in &view.segments {
        listing.value_line("  ", segment);
    }
    for symbol in &view.symbols {
        listing.value_line("  ", symbol);
    }
    Ok(())
}

/// Tells what the writer makes of a file with a change.
pub(crate) fn tell_written(listing: &mut Listing, case: &Case, text: &str) -> Result<()> {
    let file = case.built(listing.alloc())?;
    listing.text("write ");
    listing.text(text);
    match changed(listing.alloc(), &file, &read_change(listing.alloc(), text)?)? {
        Some(out) => {
            listing.number(": ", file.len() as u64);
            listing.number(" bytes become ", out.len() as u64);
            listing.end_line();
            tell_changes(listing, &file, &out);
            tell_parts(listing, &out)?;
        }
        None => listing.line(": is not to be written"),
    }
    Ok(())
}
