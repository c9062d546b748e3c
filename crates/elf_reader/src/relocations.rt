ghost use Rattle.std.specs.Prelude.{◌≡◌, ℕ, ◌+◌, ◌<◌, ◌++◌, IfOk, OnOk};
ghost use Rattle.elf_reader.specs.{Layout.{relocation_record}, Sections.{is_allocated, is_relocation_section, names_section, relocation_count_at}, File.{relocation_by, relocations_within, all_relocations}, Placed.{HasSectionTable, HasContents}};

use crate::kinds::SHT_RELA;
use crate::records::{FileHeader, RELOCATION_SIZE, RelocationRecord, SectionHeader};
use crate::sections::{is_allocated, section_header};
use crate::view::Reloc;
use std::alloc::{AllocError, Global};

/// The relocations that change allocated sections, in the order of their relocation sections.
pub(crate) fn read_relocations(
    alloc: Global,
    bytes: &[u8],
    header: &FileHeader,
) -> Result<Vec<Reloc>, AllocError>
    requires headers { HasSectionTable bytes.now header.now }
    requires contents { HasContents bytes.now }
    ensures { IfOk result (λ relocs. relocs.items ≡ all_relocations bytes.now) }
{
    let mut relocs = Vec::new(alloc);
    for k in 0..header.e_shnum {
        push_section(&mut relocs, bytes, header, k)?;
    }
    Ok(relocs)
}

/// Adds the relocations of section header `k`, if they are read.
fn push_section(
    relocs: &mut Vec<Reloc>,
    bytes: &[u8],
    header: &FileHeader,
    k: u16,
) -> Result<(), AllocError>
    requires headers { HasSectionTable bytes.now header.now }
    requires contents { HasContents bytes.now }
    requires below { k < header.now.e_shnum }
    ensures { OnOk result (relocs.new.items ≡ relocs.old.items ++ relocations_within bytes.now k (relocation_count_at bytes.now k)) }
{
    let count = relocation_count_at(bytes, header, k);
    let changed = section_header(bytes, header, k).sh_info;
    for i in 0..count {
        let record = relocation_record(bytes, header, k, i);
        relocs.push(relocation_by(&record, changed))?;
    }
    Ok(())
}

/// The relocation that a record tells, of section `changed`.
fn relocation_by(record: &RelocationRecord, changed: u32) -> Reloc
    ensures { result ≡ relocation_by «record».now changed }
{
    Reloc {
        at: record.r_offset,
        kind: record.kind(),
        symbol: record.symbol(),
        addend: record.r_addend,
        section: changed,
    }
}

/// The record of relocation `i` of section header `k`.
pub(crate) fn relocation_record(
    bytes: &[u8],
    header: &FileHeader,
    k: u16,
    i: u32,
) -> RelocationRecord
    requires headers { HasSectionTable bytes.now header.now }
    requires contents { HasContents bytes.now }
    requires below { k < header.now.e_shnum }
    requires read { i < relocation_count_at bytes.now k }
    ensures { result ≡ relocation_record bytes.now k i }
{
    let section = section_header(bytes, header, k);
    RelocationRecord::parse(
        bytes,
        section.sh_offset as usize + RELOCATION_SIZE * i as usize,
    )
}

/// How many relocations of section header `k` are read.
pub(crate) fn relocation_count_at(bytes: &[u8], header: &FileHeader, k: u16) -> u32
    requires headers { HasSectionTable bytes.now header.now }
    requires below { k < header.now.e_shnum }
    ensures { result ≡ relocation_count_at bytes.now k }
{
    let section = section_header(bytes, header, k);
    if is_relocation_section(&section) && is_allocated_section(bytes, header, section.sh_info) {
        section.sh_size / RELOCATION_SIZE as u32
    } else {
        0
    }
}

/// The section has relocations with addends, and is not loaded itself.
pub(crate) fn is_relocation_section(section: &SectionHeader) -> bool
    ensures { result ≡ is_relocation_section section.now }
{
    section.sh_type == SHT_RELA && !is_allocated(section)
}

/// The number is that of an allocated section.
pub(crate) fn is_allocated_section(bytes: &[u8], header: &FileHeader, number: u32) -> bool
    requires headers { HasSectionTable bytes.now header.now }
    ensures { result ≡ names_section bytes.now is_allocated number }
{
    number < u32::from(header.e_shnum)
        && is_allocated(&section_header(bytes, header, number as u16))
}
