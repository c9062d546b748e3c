ghost use Rattle.std.specs.Prelude.{◌≡◌, ℕ, ◌+◌, ◌*◌, ◌%◌, ◌^◌, ◌++◌, ◌∷◌, [], map, length, codes, IfOk, OnOk};
ghost use Rattle.workload_gen.specs.{Plan.{section_plan, file_plan}, Built.{asked, symbol_table_of, names_of, symbol_name, named_sections, planned_sections, relocation_sections, first_place, built}, Planned.{plain_planned}};

use crate::headers::{
    FILE_HEADER_SIZE, PROGRAM_HEADER_SIZE, SECTION_HEADER_SIZE, push_file_header,
    push_program_headers, push_section_headers, section_contents,
};
use crate::planned::{
    PlannedSection, asked_section, relocation_section, section_names, symbol_names, symbol_table,
};
use crate::spec::{FileSpec, SectionSpec};
use elf_writer::push_zeros;
use std::alloc::{AllocError, Global};

/// An executable ELF file of 32-bit RISC-V with these sections and symbols (ELF, "ELF Header", "Sections",
/// "Symbol Table", "Relocation", "Program Header").
///
/// The file holds a program header for each section, so that each is a segment of its own; the contents at
/// multiples of 4, in the order of the section headers; and then the section headers: the null section,
/// those that were asked for, `.symtab`, `.strtab`, a `.rela` section for each section that has
/// relocations, and `.shstrtab`. All symbols are global.
///
/// Numbers that are too large for their field are truncated to it. So that the file says what was asked
/// for, let it have at most 60 sections, 60,000 symbols and 2^24 bytes; no zero byte in a name; no bytes in
/// a section with `empty` above 0; symbol kinds below 16, sections of symbols below 2^16; and relocations
/// whose kind is below 256 and whose symbol is below 2^24.
pub fn build(alloc: Global, spec: &FileSpec) -> Result<Vec<u8>, AllocError>
    ensures { IfOk result (λ bytes. bytes.items ≡ built (file_plan spec.now)) }
{
    let sections = all_sections(alloc, spec)?;
    let contents = section_contents(alloc, &sections)?;
    let programs = spec.sections.len() as u64;
    let first = first_content(programs);
    let headers = first.wrapping_add(contents.len() as u64);
    let mut out = Vec::new(alloc);
    push_file_header(
        &mut out,
        u64::from(spec.entry),
        programs,
        headers,
        sections.len() as u64,
    )?;
    push_program_headers(&mut out, first, &spec.sections)?;
    out.extend_from_slice(&contents)?;
    push_zeros(&mut out, SECTION_HEADER_SIZE as usize)?;
    push_section_headers(&mut out, first, &sections)?;
    Ok(out)
}

/// Where the first content stands: behind the ELF header and the program headers.
fn first_content(programs: u64) -> u64
    ensures { result ≡ (52 + 32 * programs) % 2 ^ 64 }
{
    programs
        .wrapping_mul(PROGRAM_HEADER_SIZE)
        .wrapping_add(FILE_HEADER_SIZE)
}

/// All sections but the null section.
fn all_sections(alloc: Global, spec: &FileSpec) -> Result<Vec<PlannedSection>, AllocError>
    ensures { IfOk result (λ sections. map plain_planned sections.items ≡ planned_sections (file_plan spec.now)) }
{
    let mut sections = sections_with_names(alloc, spec)?;
    let names = section_names(alloc, &sections)?;
    sections.push(names)?;
    Ok(sections)
}

/// The sections but the last one, which holds their names.
fn sections_with_names(alloc: Global, spec: &FileSpec) -> Result<Vec<PlannedSection>, AllocError>
    ensures { IfOk result (λ sections. map plain_planned sections.items ≡ named_sections (file_plan spec.now)) }
{
    let mut sections = asked_sections(alloc, &spec.sections)?;
    push_symbol_sections(alloc, &mut sections, spec)?;
    push_relocation_sections(alloc, &mut sections, &spec.sections)?;
    Ok(sections)
}

/// Adds the symbol table and the names of the symbols.
fn push_symbol_sections(
    alloc: Global,
    planned: &mut Vec<PlannedSection>,
    spec: &FileSpec,
) -> Result<(), AllocError>
    ensures { OnOk result (map plain_planned planned.new.items ≡ map plain_planned planned.old.items ++ symbol_table_of (file_plan spec.now) ∷ names_of (codes ".strtab") (map symbol_name (file_plan spec.now).symbols) ∷ []) }
{
    planned.push(symbol_table(alloc, spec)?)?;
    planned.push(symbol_names(alloc, &spec.symbols)?)?;
    Ok(())
}

/// The sections as they were asked for.
fn asked_sections(
    alloc: Global,
    sections: &[SectionSpec],
) -> Result<Vec<PlannedSection>, AllocError>
    ensures { IfOk result (λ planned. map plain_planned planned.items ≡ map asked (map section_plan sections.now)) }
{
    let mut planned = Vec::new(alloc);
    for section in sections {
        planned.push(asked_section(alloc, section)?)?;
    }
    Ok(planned)
}

/// Adds a relocation section for each section that has relocations. The symbol table stands behind the
/// null section and these.
fn push_relocation_sections(
    alloc: Global,
    planned: &mut Vec<PlannedSection>,
    sections: &[SectionSpec],
) -> Result<(), AllocError>
    ensures { OnOk result (map plain_planned planned.new.items ≡ map plain_planned planned.old.items ++ relocation_sections (length sections.now + 1) 1 (map section_plan sections.now)) }
{
    let table = sections.len() as u64 + 1;
    for (index, section) in sections.iter().enumerate() {
        push_relocations_of(alloc, planned, section, table, index as u64 + 1)?;
    }
    Ok(())
}

/// Adds the relocation section of section number `number`, if that has relocations.
fn push_relocations_of(
    alloc: Global,
    planned: &mut Vec<PlannedSection>,
    section: &SectionSpec,
    table: u64,
    number: u64,
) -> Result<(), AllocError>
    ensures { OnOk result (map plain_planned planned.new.items ≡ map plain_planned planned.old.items ++ relocation_sections table number (section_plan section.now ∷ [])) }
{
    if !section.relocs.is_empty() {
        planned.push(relocation_section(alloc, section, table, number)?)?;
    }
    Ok(())
}
