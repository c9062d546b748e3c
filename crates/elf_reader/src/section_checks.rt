ghost use Rattle.std.specs.Prelude.{◌≡◌, ℕ, ◌+◌, ◌*◌, ◌<◌, ◌≤◌, nat_lt, IsTrue, length, OnOk};
ghost use Rattle.list_checks.specs.First.{Reports, first_below};
ghost use Rattle.elf_reader.specs.{Layout.{file_header, section_count}, Sections.{is_string_table, names_section, has_name, section_names}, SectionChecks.{header_places_fault, overlaps_file_header, table_start_fault, content_fault, section_places_fault, compressed_fault_of, loaded_relocations_fault_of, section_headers_fault, names_table_fault, section_name_fault, section_names_fault, names_fault, sections_fault}, SectionPasses.{section_fault}, Placed.{HasSectionTable, HasSectionHeaders, HasContents, HasNamesTable, HasSectionNames}};

use crate::fault::ElfFault;
use crate::header::has_bit;
use crate::header_tables::{HeaderTable, check_headers};
use crate::kinds::{SHT_REL, SHT_RELA};
use crate::numbers::{field, table};
use crate::records::{FILE_HEADER_SIZE, FileHeader, SECTION_HEADER_SIZE, SectionHeader};
use crate::relocation_checks::check_rel;
use crate::sections::{is_allocated, is_in_file, is_string_table, section_header, section_names};
use crate::string_table::names_end;

/// The bit of `sh_flags` for compressed content (`SHF_COMPRESSED`).
const COMPRESSED_BIT: u32 = 11;

/// The checks of the section headers, and of the sections' names.
pub(crate) fn check_sections(bytes: &[u8], header: &FileHeader) -> Result<(), ElfFault>
    requires { header.now ≡ file_header bytes.now }
    ensures fault { Reports result (sections_fault bytes.now) }
    ensures headers { OnOk result (HasSectionHeaders bytes.now) }
    ensures contents { OnOk result (HasContents bytes.now) }
    ensures table { OnOk result (HasNamesTable bytes.now) }
    ensures names { OnOk result (HasSectionNames bytes.now) }
{
    check_section_headers(bytes, header)?;
    check_names(bytes, header)
}

fn check_section_headers(bytes: &[u8], header: &FileHeader) -> Result<(), ElfFault>
    requires { header.now ≡ file_header bytes.now }
    ensures fault { Reports result (section_headers_fault bytes.now) }
    ensures headers { OnOk result (HasSectionHeaders bytes.now) }
    ensures contents { OnOk result (HasContents bytes.now) }
{
    check_table(bytes, header)?;
    check_table_start(bytes, header)?;
    check_places(bytes, header)?;
    check_each(bytes, header, SectionCheck::Compression)?;
    check_each(bytes, header, SectionCheck::Loaded)
}

fn check_table(bytes: &[u8], header: &FileHeader) -> Result<(), ElfFault>
    requires { header.now ≡ file_header bytes.now }
    ensures fault { Reports result (header_places_fault bytes.now) }
    ensures headers { OnOk result (HasSectionHeaders bytes.now) }
{
    check_headers(bytes, header, HeaderTable::Sections, header.e_shnum)?;
    Ok(())
}

fn check_table_start(bytes: &[u8], header: &FileHeader) -> Result<(), ElfFault>
    requires { header.now ≡ file_header bytes.now }
    ensures { Reports result (table_start_fault bytes.now) }
{
    let size = SECTION_HEADER_SIZE * header.e_shnum as usize;
    if overlaps_file_header(header.e_shoff, size) {
        return Err(ElfFault::WrongKind {
            field: field::MEETS_FILE_HEADER,
            value: 0,
        });
    }
    Ok(())
}

/// Whether the `size` bytes from `offset` meet the ELF header, which begins the file.
fn overlaps_file_header(offset: u32, size: usize) -> bool
    ensures { result ≡ overlaps_file_header offset size }
{
    size > 0 && (offset as usize) < FILE_HEADER_SIZE
}

fn check_places(bytes: &[u8], header: &FileHeader) -> Result<(), ElfFault>
    requires headers { HasSectionTable bytes.now header.now }
    ensures fault { Reports result (section_places_fault bytes.now) }
    ensures contents { OnOk result (HasContents bytes.now) }
{
    check_each(bytes, header, SectionCheck::Place)?;
    Ok(())
}

fn check_content(size: usize, k: u16, section: &SectionHeader) -> Result<(), ElfFault>
    ensures { Reports result (content_fault size k section.now) }
{
    if section.sh_offset as usize + section.sh_size as usize > size {
        return Err(ElfFault::OutOfFile {
            table: table::SECTIONS,
            index: u32::from(k),
        });
    }
    if overlaps_file_header(section.sh_offset, section.sh_size as usize) {
        return Err(ElfFault::WrongKind {
            field: field::MEETS_FILE_HEADER,
            value: u32::from(k),
        });
    }
    Ok(())
}

/// What is checked of each section header.
#[derive(Clone, Copy)]
pub(crate) enum SectionCheck {
    /// The content, where it stands in the file, lies inside the file, and does not meet the ELF header.
    Place,
    /// No section with memory is compressed.
    Compression,
    /// No section with memory holds relocations.
    Loaded,
    /// No section holds relocations without addends that change a section with memory.
    Rel,
}

/// The check of all section headers, in their order.
pub(crate) fn check_each(
    bytes: &[u8],
    header: &FileHeader,
    check: SectionCheck,
) -> Result<(), ElfFault>
    requires headers { HasSectionTable bytes.now header.now }
    ensures { Reports result (first_below (section_fault check bytes.now) (section_count bytes.now)) }
{
    for k in 0..header.e_shnum {
        check_at(bytes, header, check, k)?;
    }
    Ok(())
}

/// The check of section header `k`.
fn check_at(bytes: &[u8], header: &FileHeader, check: SectionCheck, k: u16) -> Result<(), ElfFault>
    requires headers { HasSectionTable bytes.now header.now }
    requires below { k < header.now.e_shnum }
    ensures { Reports result (section_fault check bytes.now k) }
{
    let section = section_header(bytes, header, k);
    match check {
        SectionCheck::Place if is_in_file(section.sh_type) => {
            check_content(bytes.len(), k, &section)
        }
        SectionCheck::Place => Ok(()),
        SectionCheck::Compression => check_compression(k, &section),
        SectionCheck::Loaded => check_loaded(&section),
        SectionCheck::Rel => check_rel(bytes, header, &section),
    }
}

/// No section with memory is compressed.
fn check_compression(k: u16, section: &SectionHeader) -> Result<(), ElfFault>
    ensures { Reports result (compressed_fault_of k section.now) }
{
    if is_allocated(section) && has_bit(section.sh_flags, COMPRESSED_BIT) {
        return Err(ElfFault::Compressed {
            section: u32::from(k),
        });
    }
    Ok(())
}

/// No section with memory holds relocations.
fn check_loaded(section: &SectionHeader) -> Result<(), ElfFault>
    ensures { Reports result (loaded_relocations_fault_of section.now) }
{
    let relocates = section.sh_type == SHT_REL
        || section.sh_type == SHT_RELA && section.sh_size > 0;
    if is_allocated(section) && relocates {
        return Err(ElfFault::WrongKind {
            field: field::SH_TYPE,
            value: section.sh_type,
        });
    }
    Ok(())
}

fn check_names(bytes: &[u8], header: &FileHeader) -> Result<(), ElfFault>
    requires headers { HasSectionTable bytes.now header.now }
    requires contents { HasContents bytes.now }
    ensures fault { Reports result (names_fault bytes.now) }
    ensures table { OnOk result (HasNamesTable bytes.now) }
    ensures names { OnOk result (HasSectionNames bytes.now) }
{
    if header.e_shnum == 0 {
        return Ok(());
    }
    check_names_table(bytes, header)?;
    check_section_names(bytes, header)
}

fn check_names_table(bytes: &[u8], header: &FileHeader) -> Result<(), ElfFault>
    requires headers { HasSectionTable bytes.now header.now }
    ensures fault { Reports result (names_table_fault bytes.now) }
    ensures table { OnOk result (IsTrue (names_section bytes.now is_string_table header.now.e_shstrndx)) }
{
    if is_string_table(bytes, header, u32::from(header.e_shstrndx)) {
        Ok(())
    } else {
        Err(ElfFault::BadIndex {
            table: table::SECTION_HEADERS,
            index: u32::from(header.e_shstrndx),
        })
    }
}

#[tactic(auto, using(list_checks::proofs::FirstLemmas::first_found))]
fn check_section_names(bytes: &[u8], header: &FileHeader) -> Result<(), ElfFault>
    requires headers { HasSectionTable bytes.now header.now }
    requires contents { HasContents bytes.now }
    requires table { IsTrue (names_section bytes.now is_string_table header.now.e_shstrndx) }
    ensures fault { Reports result (section_names_fault bytes.now) }
    ensures names { OnOk result (HasSectionNames bytes.now) }
{
    let end = names_end(section_names(bytes, header));
    for k in 0..header.e_shnum {
        check_section_name(bytes, header, k, end)?;
    }
    Ok(())
}

/// The check of the name of section `k`, where names begin before byte `names_end` of their table.
fn check_section_name(
    bytes: &[u8],
    header: &FileHeader,
    k: u16,
    names_end: usize,
) -> Result<(), ElfFault>
    requires headers { HasSectionTable bytes.now header.now }
    requires below { k < header.now.e_shnum }
    requires end { (start : ℕ) → has_name (section_names bytes.now) start ≡ nat_lt start names_end }
    ensures { Reports result (section_name_fault bytes.now k) }
{
    let section = section_header(bytes, header, k);
    if (section.sh_name as usize) < names_end {
        Ok(())
    } else {
        Err(ElfFault::BadIndex {
            table: table::SECTION_NAMES,
            index: u32::from(k),
        })
    }
}
