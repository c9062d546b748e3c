ghost use Rattle.std.specs.Prelude.{◌≡◌, ℕ, ◌+◌, ◌*◌, ◌<◌, ◌≤◌, [], ◌∷◌, ◌++◌, map, IsTrue, length, IfOk, OnOk};
ghost use Rattle.elf_reader.specs.{Layout.{section_header}, Sections.{stands_in_file, is_allocated, has_entries, is_string_table, names_section, content_of, section_names}, File.{plain_section, section_of, all_sections}, Placed.{HasSectionTable, HasContent, HasContents, HasNamesTable, HasSectionNames}};

use crate::header::has_bit;
use crate::kinds::{SHT_NOBITS, SHT_NULL, SHT_STRTAB};
use crate::records::{FileHeader, SectionHeader};
use crate::string_table::StringTable;
use crate::view::Section;
use std::alloc::{AllocError, Global};

/// The bit of `sh_flags` for a section that has memory when the program runs (`SHF_ALLOC`).
const ALLOC_BIT: u32 = 1;

/// All sections, in the order of their section headers. It fails only where no memory was left.
pub(crate) fn read_sections<'a>(
    alloc: Global,
    bytes: &'a [u8],
    header: &FileHeader,
) -> Result<Vec<Section<'a>>, AllocError>
    requires headers { HasSectionTable bytes.now header.now }
    requires contents { HasContents bytes.now }
    requires table { HasNamesTable bytes.now }
    requires names { HasSectionNames bytes.now }
    ensures { IfOk result (λ sections. map plain_section sections.items ≡ all_sections bytes.now) }
{
    let mut sections = Vec::new(alloc);
    if header.e_shnum == 0 {
        return Ok(sections);
    }
    let names = StringTable::new(alloc, section_names(bytes, header))?;
    for k in 0..header.e_shnum {
        push_section(&mut sections, bytes, header, &names, k)?;
    }
    Ok(sections)
}

/// Adds the section of section header `k`.
fn push_section<'a>(
    sections: &mut Vec<Section<'a>>,
    bytes: &'a [u8],
    header: &FileHeader,
    names: &StringTable<'a>,
    k: u16,
) -> Result<(), AllocError>
    requires headers { HasSectionTable bytes.now header.now }
    requires contents { HasContents bytes.now }
    requires table { names.now.bytes.now ≡ section_names bytes.now }
    requires names { HasSectionNames bytes.now }
    requires below { k < header.now.e_shnum }
    ensures { OnOk result (map plain_section sections.new.items ≡ map plain_section sections.old.items ++ section_of bytes.now k ∷ []) }
{
    let section = section_header(bytes, header, k);
    sections.push(Section {
        name: names.name(section.sh_name),
        kind: section.sh_type,
        flags: section.sh_flags,
        addr: section.sh_addr,
        offset: section.sh_offset,
        size: section.sh_size,
        link: section.sh_link,
        info: section.sh_info,
        bytes: content(bytes, &section),
    })?;
    Ok(())
}

/// Section header `k` of the file.
pub(crate) fn section_header(bytes: &[u8], header: &FileHeader, k: u16) -> SectionHeader
    requires headers { HasSectionTable bytes.now header.now }
    requires below { k < header.now.e_shnum }
    ensures { result ≡ section_header bytes.now k }
{
    SectionHeader::parse(bytes, header.section_header_at(k))
}

/// Whether the content of a section of this type stands in the file.
pub(crate) fn is_in_file(kind: u32) -> bool
    ensures { result ≡ stands_in_file kind }
{
    !(kind == SHT_NULL || kind == SHT_NOBITS)
}

/// Whether a section has memory when the program runs.
pub(crate) fn is_allocated(section: &SectionHeader) -> bool
    ensures { result ≡ is_allocated section.now }
{
    has_bit(section.sh_flags, ALLOC_BIT)
}

/// Whether a section is a table of entries of `size` bytes.
pub(crate) fn has_entries(section: &SectionHeader, size: usize) -> bool
    requires positive { 0 < size }
    requires small { size < 4294967296 }
    ensures { result ≡ has_entries size section.now }
{
    section.sh_entsize == size as u32 && section.sh_size % size as u32 == 0
}

/// Whether there is a section header `k`, and it is of a string table.
pub(crate) fn is_string_table(bytes: &[u8], header: &FileHeader, k: u32) -> bool
    requires headers { HasSectionTable bytes.now header.now }
    ensures { result ≡ names_section bytes.now is_string_table k }
{
    k < u32::from(header.e_shnum) && section_header(bytes, header, k as u16).sh_type == SHT_STRTAB
}

/// The content of the string table of the sections' names.
pub(crate) fn section_names<'a>(bytes: &'a [u8], header: &FileHeader) -> &'a [u8]
    requires headers { HasSectionTable bytes.now header.now }
    requires contents { HasContents bytes.now }
    requires table { IsTrue (names_section bytes.now is_string_table header.now.e_shstrndx) }
    ensures { result.now ≡ section_names bytes.now }
{
    content(bytes, &section_header(bytes, header, header.e_shstrndx))
}

/// The content of a section, as it stands in the file; nothing for the types NULL and NOBITS.
pub(crate) fn content<'a>(bytes: &'a [u8], section: &SectionHeader) -> &'a [u8]
    requires { HasContent (length bytes.now) section.now }
    ensures { result.now ≡ content_of bytes.now section.now }
{
    if is_in_file(section.sh_type) {
        let start = section.sh_offset as usize;
        &bytes[start..start + section.sh_size as usize]
    } else {
        &[]
    }
}
