ghost use Rattle.std.specs.Prelude.{◌≡◌, ◌≤◌, length, IfOk};
ghost use Rattle.list_checks.specs.First.{ReportsUnless};
ghost use Rattle.elf_reader.specs.{Faults.{first_fault}, File.{IsFile, segments_of}, Layout.{file_header}, Sections.{symbol_table}, Loadable.{HasProgramHeaders, HasSegments, AreLoadable, AreDisjoint}, Placed.{HasSectionHeaders, HasContents, HasNamesTable, HasSectionNames}, SymbolTables.{HasReadable}};

use crate::fault::ElfFault;
use crate::header::check_header;
use crate::program_headers::check_program_headers;
use crate::records::FileHeader;
use crate::relocation_checks::check_relocations;
use crate::relocations::read_relocations;
use crate::section_checks::check_sections;
use crate::sections::read_sections;
use crate::segments::read_segments;
use crate::symbol_checks::check_symbols;
use crate::symbols::{read_symbols, symbol_count};
use crate::view::ElfView;
use std::alloc::{AllocError, Global};

/// Reads an executable ELF file for RV32 (ELF; RISC-V psABI, "ELF Object Files"): its segments to be loaded,
/// its sections, its symbols, and the relocations that change sections with memory, all borrowed from its
/// bytes.
///
/// The error is the first check that the file fails, in a fixed order: its size, the ELF header, the program
/// headers and their segments, the section headers and their contents, the names of sections, the symbol
/// table, and the relocations. `Memory` comes only where no memory was left. The time grows with the size of
/// the file and of its tables, and with the square of the 64 program headers at most.
pub fn read<'a>(alloc: Global, bytes: &'a [u8]) -> Result<ElfView<'a>, ElfFault>
    ensures fault { ReportsUnless ElfFault.Memory result (first_fault bytes.now) }
    ensures file { IfOk result (IsFile bytes.now) }
    ensures loadable { IfOk result (λ view. AreLoadable (segments_of view)) }
    ensures disjoint { IfOk result (λ view. AreDisjoint (segments_of view)) }
{
    let header = check_header(bytes)?;
    check_program_headers(bytes, &header)?;
    check_sections(bytes, &header)?;
    let table = check_symbols(bytes, &header)?;
    check_relocations(bytes, &header, table, symbol_count(bytes, &header, table))?;
    match view_of(alloc, bytes, &header, table) {
        Ok(view) => Ok(view),
        Err(_) => Err(ElfFault::Memory),
    }
}

/// The view of a file in which no check fails, whose symbol table is that of section header `table`.
fn view_of<'a>(
    alloc: Global,
    bytes: &'a [u8],
    header: &FileHeader,
    table: Option<u16>,
) -> Result<ElfView<'a>, AllocError>
    requires header { header.now ≡ file_header bytes.now }
    requires small { length bytes.now ≤ 67108864 }
    requires programs { HasProgramHeaders bytes.now }
    requires segments { HasSegments bytes.now }
    requires headers { HasSectionHeaders bytes.now }
    requires contents { HasContents bytes.now }
    requires names_table { HasNamesTable bytes.now }
    requires names { HasSectionNames bytes.now }
    requires table { table ≡ symbol_table bytes.now }
    requires readable { HasReadable bytes.now table }
    ensures { IfOk result (IsFile bytes.now) }
{
    Ok(ElfView {
        bytes,
        entry: header.e_entry,
        flags: header.e_flags,
        ph_at: header.e_phoff,
        ph_count: u32::from(header.e_phnum),
        segments: read_segments(alloc, bytes, header)?,
        sections: read_sections(alloc, bytes, header)?,
        symbols: read_symbols(alloc, bytes, header, table)?,
        relocs: read_relocations(alloc, bytes, header)?,
    })
}
