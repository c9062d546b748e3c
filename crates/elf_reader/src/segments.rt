ghost use Rattle.std.specs.Prelude.{◌≡◌, ℕ, ◌+◌, ◌<◌, ◌++◌, ◌∷◌, [], map, length, if◌then◌else◌, IsTrue, IfOk, OnOk};
ghost use Rattle.elf_reader.specs.{File.{plain_segment, is_load, segment_of, load_segments}, Loadable.{HasProgramTable, HasSegment, HasSegments}};

use crate::kinds::PT_LOAD;
use crate::program_headers::program_header;
use crate::records::{FileHeader, ProgramHeader};
use crate::view::Segment;
use std::alloc::{AllocError, Global};

/// The segments to be loaded, in the order of their program headers.
pub(crate) fn read_segments<'a>(
    alloc: Global,
    bytes: &'a [u8],
    header: &FileHeader,
) -> Result<Vec<Segment<'a>>, AllocError>
    requires segments { HasSegments bytes.now }
    requires headers { HasProgramTable bytes.now header.now }
    ensures { IfOk result (λ segments. map plain_segment segments.items ≡ load_segments bytes.now) }
{
    let mut segments = Vec::new(alloc);
    for k in 0..header.e_phnum {
        push_segment(&mut segments, bytes, k, &program_header(bytes, header, k))?;
    }
    Ok(segments)
}

/// Adds the segment of program header `k`, if it is to be loaded.
fn push_segment<'a>(
    segments: &mut Vec<Segment<'a>>,
    bytes: &'a [u8],
    k: u16,
    program: &ProgramHeader,
) -> Result<(), AllocError>
    requires { IsTrue (is_load program.now) → HasSegment (length bytes.now) program.now }
    ensures { OnOk result (map plain_segment segments.new.items ≡ map plain_segment segments.old.items ++ (if is_load program.now then segment_of bytes.now k program.now ∷ [] else [])) }
{
    if program.p_type != PT_LOAD {
        return Ok(());
    }
    let start = program.p_offset as usize;
    segments.push(Segment {
        index: u32::from(k),
        offset: program.p_offset,
        vaddr: program.p_vaddr,
        memsz: program.p_memsz,
        flags: program.p_flags,
        bytes: &bytes[start..start + program.p_filesz as usize],
    })?;
    Ok(())
}
