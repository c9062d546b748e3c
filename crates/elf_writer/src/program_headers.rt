//! The program headers of a file with one more segment.
ghost use Rattle.std.specs.Prelude.{◌≡◌, ℕ, ◌+◌, ◌*◌, ◌<◌, ◌≤◌, ◌++◌, ◌∷◌, [], map, length, OnOk};
ghost use Rattle.elf_reader.specs.File.{plain_segment, plain_view};
ghost use Rattle.elf_writer.specs.{Pieces.{words_bytes}, Parts.{new_segment, content_place}, Written.{place_among, new_number, new_record, new_table}};

use crate::parts::SegmentBytes;
use crate::pieces::push_words;
use elf_reader::{ElfView, PROGRAM_HEADER_SIZE, PT_LOAD, Segment};
use std::alloc::AllocError;

/// Readable, writable and executable (`PF_R`, `PF_W`, `PF_X`).
const FLAGS: u32 = 7;

/// How many bytes the segment's first address is aligned to.
const ALIGNMENT: u32 = 4;

/// The number of the program header before which a segment at `base` is put.
fn place_of(segments: &[Segment], count: u32, base: u32) -> u32
    ensures { result ≡ place_among (map plain_segment segments.now) count base }
{
    for segment in segments {
        if base < segment.vaddr {
            return segment.index;
        }
    }
    count
}

/// Appends the program header of the new segment, whose bytes stand at `content`.
fn push_record(out: &mut Vec<u8>, segment: &SegmentBytes, content: u32) -> Result<(), AllocError>
    requires { length segment.now.bytes.items < 2147483648 }
    ensures { OnOk result (out.new.items ≡ out.old.items ++ words_bytes (1 ∷ content ∷ segment.now.base ∷ segment.now.base ∷ length segment.now.bytes.items ∷ length segment.now.bytes.items ∷ 7 ∷ 4 ∷ [])) }
{
    let size = segment.bytes.len() as u32;
    push_words(
        out,
        &[
            PT_LOAD,
            content,
            segment.base,
            segment.base,
            size,
            size,
            FLAGS,
            ALIGNMENT,
        ],
    )
}

/// Appends the program headers of the input, with that of the new segment in its place.
pub(crate) fn push_table(
    out: &mut Vec<u8>,
    base: &ElfView,
    segment: &SegmentBytes,
    content: u32,
) -> Result<(), AllocError>
    requires place { content ≡ content_place (plain_view base.now) }
    requires number { new_number (plain_view base.now) (new_segment segment.now) ≤ base.now.ph_count }
    requires inside { base.now.ph_at + 32 * base.now.ph_count ≤ length base.now.bytes.now }
    requires size { length segment.now.bytes.items < 2147483648 }
    ensures { OnOk result (out.new.items ≡ out.old.items ++ new_table (plain_view base.now) (new_segment segment.now)) }
{
    let number = place_of(&base.segments, base.ph_count, segment.base);
    let start = base.ph_at as usize;
    let middle = start + PROGRAM_HEADER_SIZE * number as usize;
    let end = start + PROGRAM_HEADER_SIZE * base.ph_count as usize;
    out.extend_from_slice(&base.bytes[start..middle])?;
    push_record(out, segment, content)?;
    out.extend_from_slice(&base.bytes[middle..end])?;
    Ok(())
}
