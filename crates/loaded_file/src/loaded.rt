ghost use Rattle.std.specs.Prelude.{◌≡◌, ℕ, ◌+◌, ◌*◌, ◌^◌, ◌<◌, length, slice_index, IfOk};
ghost use Rattle.list_checks.specs.{Tests.{any_below, lies_in}, Tests.{ranges_overlap}};
ghost use Rattle.elf_reader.specs.{Layout.{file_header}, File.{plain_segment, plain_section, plain_view}, Loaded.{section_at, segment_at, overlaps_headers, overlaps_segment, has_own_bytes, is_filled, is_zeroed, loads, is_loaded}, Sections.{bit_of}};
ghost use Rattle.loaded_file.specs.{Marks.{all_loaded}, Contents.{AreContentBounds}};

use crate::contents::{ContentBounds, content_bounds, overlaps_some_section};
use elf_reader::{ElfView, SHT_NOBITS, SHT_PROGBITS, Section, Segment};
use std::alloc::{AllocError, Global};

/// The bytes of a program header and of a section header.
const PROGRAM_HEADER_SIZE: u128 = 32;

const SECTION_HEADER_SIZE: u128 = 40;

/// `SHF_ALLOC` in `sh_flags`.
const ALLOC: u32 = 2;

/// Whether each section of a view is loaded, in the order of the sections: it has memory, and some segment
/// puts its bytes, which no other section, no other segment and no table of headers shares, at its address.
/// It fails only where no memory was left.
///
/// The time grows with n log n, where n is the number of sections, and with n times the number of segments.
pub fn loaded_sections(alloc: Global, view: &ElfView) -> Result<Vec<bool>, AllocError>
    ensures { IfOk result (λ marks. marks.items ≡ all_loaded (plain_view view.now)) }
{
    let bounds = content_bounds(alloc, view)?;
    let mut marks = Vec::new(alloc);
    for k in 0..view.sections.len() {
        marks.push(is_loaded(view, &bounds, k))?;
    }
    Ok(marks)
}

/// Some segment loads section `k`.
fn is_loaded(view: &ElfView, bounds: &ContentBounds, k: usize) -> bool
    requires bounds { AreContentBounds (plain_view view.now) bounds.now }
    requires below { k < length view.now.sections.items }
    ensures { result ≡ is_loaded (plain_view view.now) k }
{
    for g in 0..view.segments.len() {
        if loads(view, bounds, k, g) {
            return true;
        }
    }
    false
}

/// Segment `g` loads section `k`.
fn loads(view: &ElfView, bounds: &ContentBounds, k: usize, g: usize) -> bool
    requires bounds { AreContentBounds (plain_view view.now) bounds.now }
    requires section { k < length view.now.sections.items }
    requires segment { g < length view.now.segments.items }
    ensures { result ≡ loads (plain_view view.now) k g }
{
    let (section, segment) = (&view.sections[k], &view.segments[g]);
    is_allocated(section)
        && lies_in(segment.vaddr, segment.memsz as usize, section)
        && (is_filled(view, bounds, k, g) || is_zeroed(section, segment))
}

/// A section has memory when the program runs.
fn is_allocated(section: &Section) -> bool
    ensures { result ≡ bit_of section.now.flags 1 }
{
    section.flags / ALLOC % 2 == 1
}

/// The memory of a section lies in that of `size` bytes from `base`, ends included.
fn lies_in(base: u32, size: usize, section: &Section) -> bool
    requires { size < 2 ^ 63 }
    ensures { result ≡ lies_in base size section.now.addr section.now.size }
{
    let end = section.addr as usize + section.size as usize;
    base <= section.addr && end <= base as usize + size
}

/// Section `k` has content, stands in the file bytes of segment `g` at its address, and has its bytes for itself.
fn is_filled(view: &ElfView, bounds: &ContentBounds, k: usize, g: usize) -> bool
    requires bounds { AreContentBounds (plain_view view.now) bounds.now }
    requires section { k < length view.now.sections.items }
    requires segment { g < length view.now.segments.items }
    ensures { result ≡ is_filled (plain_view view.now) k g (section_at (plain_view view.now) k) (segment_at (plain_view view.now) g) }
{
    let (section, segment) = (&view.sections[k], &view.segments[g]);
    let in_file = u64::from(section.offset) + u64::from(segment.vaddr);
    let in_memory = u64::from(section.addr) + u64::from(segment.offset);
    section.kind == SHT_PROGBITS
        && in_file == in_memory
        && lies_in(segment.vaddr, segment.bytes.len(), section)
        && has_own_bytes(view, bounds, k, g)
}

/// A section of zeros begins at or behind the end of a segment's file bytes.
fn is_zeroed(section: &Section, segment: &Segment) -> bool
    ensures { result ≡ is_zeroed (plain_section section.now) (plain_segment segment.now) }
{
    let end = segment.vaddr as usize + segment.bytes.len();
    section.kind == SHT_NOBITS && end <= section.addr as usize
}

/// Section `k`, which has content, shares no byte of the file with a table of headers, another section, or another
/// segment than `g`.
fn has_own_bytes(view: &ElfView, bounds: &ContentBounds, k: usize, g: usize) -> bool
    requires bounds { AreContentBounds (plain_view view.now) bounds.now }
    requires below { k < length view.now.sections.items }
    requires kind { (section_at (plain_view view.now) k).kind ≡ 1 }
    ensures { result ≡ has_own_bytes (plain_view view.now) k g (section_at (plain_view view.now) k) }
{
    let section = &view.sections[k];
    !overlaps_headers(view, section)
        && !overlaps_some_section(view, bounds, k)
        && !overlaps_some_segment(view, g, section)
}

/// The content of a section meets the program headers or the section headers.
fn overlaps_headers(view: &ElfView, section: &Section) -> bool
    ensures { result ≡ overlaps_headers (plain_view view.now) section.now.offset section.now.size }
{
    let (offset, size) = (section.offset, section.size);
    let program_headers = PROGRAM_HEADER_SIZE * view.ph_count as u128;
    let section_headers = SECTION_HEADER_SIZE * view.sections.len() as u128;
    overlap(offset, size, view.ph_at, program_headers)
        || overlap(
            offset,
            size,
            section_headers_at(view.bytes),
            section_headers,
        )
}

/// Where the section headers begin in a file (`e_shoff`); a byte behind its end reads as 0.
#[tactic(auto, unfolding(elf_reader::specs::Layout::file_header))]
fn section_headers_at(bytes: &[u8]) -> u32
    ensures { result ≡ (file_header bytes.now).e_shoff }
{
    u32::from_le_bytes([
        byte(bytes, 32),
        byte(bytes, 33),
        byte(bytes, 34),
        byte(bytes, 35),
    ])
}

/// The byte at `at`, and 0 behind the end.
fn byte(bytes: &[u8], at: usize) -> u8
    ensures { result ≡ slice_index bytes.now at }
{
    bytes.get(at).copied().unwrap_or(0)
}

/// The file bytes of some other segment than `g` meet those of `section`.
fn overlaps_some_segment(view: &ElfView, g: usize, section: &Section) -> bool
    ensures { result ≡ any_below (overlaps_segment (plain_view view.now) g section.now.offset section.now.size) (length (plain_view view.now).segments) }
{
    for h in 0..view.segments.len() {
        if overlaps_segment(view, g, section, h) {
            return true;
        }
    }
    false
}

/// Segment `h` is another one than `g`, and its file bytes meet those of `section`.
fn overlaps_segment(view: &ElfView, g: usize, section: &Section, h: usize) -> bool
    requires { h < length view.now.segments.items }
    ensures { result ≡ overlaps_segment (plain_view view.now) g section.now.offset section.now.size h }
{
    let other = &view.segments[h];
    h != g
        && overlap(
            section.offset,
            section.size,
            other.offset,
            other.bytes.len() as u128,
        )
}

/// Two ranges, each a first place and a size, share a place.
fn overlap(base: u32, size: u32, other_base: u32, other_size: u128) -> bool
    requires { other_size < 2 ^ 127 }
    ensures { result ≡ ranges_overlap base size other_base other_size }
{
    let (start, end) = (u128::from(base), u128::from(base) + u128::from(size));
    let (other_start, other_end) = (u128::from(other_base), u128::from(other_base) + other_size);
    size > 0 && other_size > 0 && start < other_end && other_start < end
}
