//! The headers of a file that is to be built, and the contents of its sections.
ghost use Rattle.std.specs.Prelude.{◌≡◌, ℕ, ◌+◌, ◌^◌, ◌<◌, ◌++◌, ◌∷◌, map, length, IfOk, OnOk};
ghost use Rattle.workload_gen.specs.{Plan.{section_plan}, Built.{Planned, contents, section_header_bytes, section_headers, segment_flags, program_header_bytes, program_headers, file_header_bytes}, Planned.{plain_planned}};
ghost use Rattle.elf_writer.specs.Pieces.{padded, zero_bytes, half_bytes};

use crate::planned::{PlannedSection, name_size, size_in_memory};
use crate::spec::SectionSpec;
use crate::writing::{padded_size, push_half, push_padded, push_words};
use elf_writer::push_zeros;
use std::alloc::{AllocError, Global};

/// The bytes of an ELF header.
pub(crate) const FILE_HEADER_SIZE: u64 = 52;

/// The bytes of a program header.
pub(crate) const PROGRAM_HEADER_SIZE: u64 = 32;

/// The bytes of a section header.
pub(crate) const SECTION_HEADER_SIZE: u64 = 40;

/// The type of a segment that is to be loaded.
const PT_LOAD: u64 = 1;

/// The file type of an executable.
const ET_EXEC: u64 = 2;

/// The machine number of RISC-V.
const EM_RISCV: u64 = 243;

/// Appends the ELF header of a file with `programs` program headers, and with the null section and
/// `sections` sections, whose headers stand at `place` (ELF, "ELF Header": `Elf32_Ehdr`).
pub(crate) fn push_file_header(
    out: &mut Vec<u8>,
    entry: u64,
    programs: u64,
    place: u64,
    sections: u64,
) -> Result<(), AllocError>
    requires { sections < 2 ^ 63 }
    ensures { OnOk result (out.new.items ≡ out.old.items ++ file_header_bytes entry programs place sections) }
{
    push_identification(out)?;
    push_words(out, &[1, entry, FILE_HEADER_SIZE, place, 0])?;
    push_half(out, FILE_HEADER_SIZE)?;
    push_half(out, PROGRAM_HEADER_SIZE)?;
    push_half(out, programs)?;
    push_half(out, SECTION_HEADER_SIZE)?;
    push_half(out, sections + 1)?;
    push_half(out, sections)?;
    Ok(())
}

/// Appends what tells that a file is an executable of 32-bit RISC-V, in little-endian order.
fn push_identification(out: &mut Vec<u8>) -> Result<(), AllocError>
    ensures { OnOk result (out.new.items ≡ out.old.items ++ (127 ∷ 69 ∷ 76 ∷ 70 ∷ 1 ∷ 1 ∷ 1 ∷ zero_bytes 9 ++ half_bytes 2 ++ half_bytes 243)) }
{
    out.extend_from_slice(b"\x7fELF\x01\x01\x01")?;
    push_zeros(out, 9)?;
    push_half(out, ET_EXEC)?;
    push_half(out, EM_RISCV)
}

/// Appends a program header for each section, the first section standing at `first`.
pub(crate) fn push_program_headers(
    out: &mut Vec<u8>,
    first: u64,
    sections: &[SectionSpec],
) -> Result<(), AllocError>
    ensures { OnOk result (out.new.items ≡ out.old.items ++ program_headers first (map section_plan sections.now)) }
{
    let mut place = first;
    for section in sections {
        push_program_header(out, place, section)?;
        place = place.wrapping_add(padded_size(&section.bytes));
    }
    Ok(())
}

/// Appends the program header of a section that stands at `place` (ELF, "Program Header": `Elf32_Phdr`).
fn push_program_header(
    out: &mut Vec<u8>,
    place: u64,
    section: &SectionSpec,
) -> Result<(), AllocError>
    ensures { OnOk result (out.new.items ≡ out.old.items ++ program_header_bytes place (section_plan section.now)) }
{
    let addr = u64::from(section.addr);
    push_words(
        out,
        &[
            PT_LOAD,
            place,
            addr,
            addr,
            section.bytes.len() as u64,
            size_in_memory(section),
            u64::from(flags_of_segment(section.flags)),
            4,
        ],
    )
}

/// A segment's flags: readable, and writable and executable as its section is.
fn flags_of_segment(flags: u32) -> u32
    ensures { result ≡ segment_flags flags }
{
    4 + 2 * (flags & 1) + ((flags >> 2) & 1)
}

/// The contents of the sections, each with zeros up to a multiple of 4 bytes.
pub(crate) fn section_contents(
    alloc: Global,
    sections: &[PlannedSection],
) -> Result<Vec<u8>, AllocError>
    ensures { IfOk result (λ bytes. bytes.items ≡ contents (map plain_planned sections.now)) }
{
    let mut out = Vec::new(alloc);
    for section in sections {
        push_padded(&mut out, &section.content)?;
    }
    Ok(out)
}

/// Appends the section headers, the first section standing at `first`, and its name at byte 1 of the
/// section names.
pub(crate) fn push_section_headers(
    out: &mut Vec<u8>,
    first: u64,
    sections: &[PlannedSection],
) -> Result<(), AllocError>
    ensures { OnOk result (out.new.items ≡ out.old.items ++ section_headers first 1 (map plain_planned sections.now)) }
{
    let mut place = first;
    let mut name_at = 1u64;
    for section in sections {
        push_section_header(out, place, name_at, section)?;
        place = place.wrapping_add(padded_size(&section.content));
        name_at = name_at.wrapping_add(name_size(&section.name));
    }
    Ok(())
}

/// Appends the header of a section that stands at `place`, and whose name begins at byte `name_at` of the
/// section names (ELF, "Sections": `Elf32_Shdr`).
fn push_section_header(
    out: &mut Vec<u8>,
    place: u64,
    name_at: u64,
    section: &PlannedSection,
) -> Result<(), AllocError>
    ensures { OnOk result (out.new.items ≡ out.old.items ++ section_header_bytes place name_at (plain_planned section.now)) }
{
    push_words(
        out,
        &[
            name_at,
            u64::from(section.kind),
            u64::from(section.flags),
            u64::from(section.addr),
            place,
            section.size,
            section.link,
            section.info,
            u64::from(section.align),
            u64::from(section.entsize),
        ],
    )
}
