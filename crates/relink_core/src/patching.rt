//! The patches of a file: where words of memory stand in it.
ghost use Rattle.std.specs.Prelude.{◌≡◌, ◌-◌, true, map, IfOk};
ghost use Rattle.rv32im.specs.Words.{plus};
ghost use Rattle.elf_reader.specs.{File.{plain_segment, plain_view}, Image.{has_byte}};
ghost use Rattle.relink_core.specs.Making.{place_in, patch_of};

use elf_reader::{ElfView, Segment};
use elf_writer::Patch;
use std::alloc::{AllocError, Global};

/// Whether a segment has a byte of the file for an address.
fn has_byte(segment: &Segment, address: u32) -> bool
    ensures { result ≡ has_byte (plain_segment segment.now) address }
{
    segment.vaddr <= address && ((address - segment.vaddr) as usize) < segment.bytes.len()
}

/// Where the byte at an address stands in the file, by a segment that has it.
fn place_by(segment: &Segment, address: u32) -> u32
    requires { has_byte (plain_segment segment.now) address ≡ true }
    ensures { result ≡ plus segment.now.offset (address - segment.now.vaddr) }
{
    segment.offset.wrapping_add(address - segment.vaddr)
}

/// Where the byte at an address stands in the file, 0 where no segment has one.
fn place_in(segments: &[Segment], address: u32) -> u32
    ensures { result ≡ place_in (map plain_segment segments.now) address }
{
    for segment in segments {
        if has_byte(segment, address) {
            return place_by(segment, address);
        }
    }
    0
}

/// The patch that puts a word at an address.
fn patch_of(view: &ElfView, word: &(u32, u32)) -> Patch
    ensures { result ≡ patch_of (plain_view view.now) word.now }
{
    Patch {
        offset: place_in(&view.segments, word.0),
        word: word.1,
    }
}

/// The patches that put words at addresses. It fails only where no memory was left.
pub(crate) fn patches(
    alloc: Global,
    view: &ElfView,
    words: &[(u32, u32)],
) -> Result<Vec<Patch>, AllocError>
    ensures { IfOk result (λ patches. patches.items ≡ map (patch_of (plain_view view.now)) words.now) }
{
    let mut patches = Vec::new(alloc);
    for word in words {
        patches.push(patch_of(view, word))?;
    }
    Ok(patches)
}
