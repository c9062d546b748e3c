ghost use Rattle.std.specs.Prelude.{◌≡◌, ℕ, ◌+◌, ◌*◌, ◌<◌, nat_lt, IsTrue, IfOk};
ghost use Rattle.list_checks.specs.{First.{Reports}, Tests.{any_below}};
ghost use Rattle.elf_reader.specs.{Layout.{file_header, section_count, section_header}, Sections.{is_table_at, is_string_table, names_section, has_name, symbol_table_below, symbol_table, symbol_count_of, symbol_names}, SymbolChecks.{second_table_fault, one_table_fault, symbol_size_fault, shares_bytes, overlaps_section_headers, shared_table_fault, symbol_strings_fault, symbol_limit_fault, has_section, symbol_fault, symbol_entries_fault, symbol_table_fault, symbols_fault}, Placed.{HasSectionTable, HasContents, HasSymbols}, SymbolTables.{HasReadable}};

use crate::fault::ElfFault;
use crate::kinds::SHT_SYMTAB;
use crate::numbers::{field, limit, table};
use crate::ranges::intersect;
use crate::records::{FileHeader, SECTION_HEADER_SIZE, SYMBOL_SIZE, SectionHeader, SymbolRecord};
use crate::sections::{has_entries, is_in_file, is_string_table, section_header};
use crate::string_table::names_end;
use crate::symbols::{symbol_count_of, symbol_names, symbol_record};

/// The most symbols of a file.
const MAX_SYMBOLS: u32 = 65_536;

/// The first reserved section number (ELF, "Special Section Indexes").
const SHN_LORESERVE: u16 = 0xff00;

/// The section header of the symbol table of a file that passes the symbols' checks, if there is one.
pub(crate) fn check_symbols(bytes: &[u8], header: &FileHeader) -> Result<Option<u16>, ElfFault>
    requires headers { HasSectionTable bytes.now header.now }
    requires contents { HasContents bytes.now }
    ensures fault { Reports result (symbols_fault bytes.now) }
    ensures table { IfOk result (λ table. table ≡ symbol_table bytes.now) }
    ensures readable { IfOk result (HasReadable bytes.now) }
{
    match find_table(bytes, header)? {
        Some(table) => {
            check_table(bytes, header, table)?;
            Ok(Some(table))
        }
        None => Ok(None),
    }
}

/// The section header of the only symbol table, if there is one.
fn find_table(bytes: &[u8], header: &FileHeader) -> Result<Option<u16>, ElfFault>
    requires headers { HasSectionTable bytes.now header.now }
    ensures fault { Reports result (one_table_fault bytes.now) }
    ensures table { IfOk result (λ table. table ≡ symbol_table bytes.now) }
{
    let mut table = None;
    for k in 0..header.e_shnum {
        table = table_after(bytes, header, table, k)?;
    }
    Ok(table)
}

/// The symbol table up to section header `k`, where `earlier` is the one before it.
fn table_after(
    bytes: &[u8],
    header: &FileHeader,
    earlier: Option<u16>,
    k: u16,
) -> Result<Option<u16>, ElfFault>
    requires headers { HasSectionTable bytes.now header.now }
    requires below { k < header.now.e_shnum }
    requires earlier { earlier ≡ symbol_table_below bytes.now k }
    ensures fault { Reports result (second_table_fault bytes.now k) }
    ensures table { IfOk result (λ table. table ≡ symbol_table_below bytes.now (k + 1)) }
{
    if section_header(bytes, header, k).sh_type != SHT_SYMTAB {
        return Ok(earlier);
    }
    match earlier {
        Some(_) => Err(ElfFault::WrongKind {
            field: field::SECOND_SYMBOL_TABLE,
            value: u32::from(k),
        }),
        None => Ok(Some(k)),
    }
}

fn check_table(bytes: &[u8], header: &FileHeader, table: u16) -> Result<(), ElfFault>
    requires headers { HasSectionTable bytes.now header.now }
    requires contents { HasContents bytes.now }
    requires below { table < header.now.e_shnum }
    requires table { IsTrue (is_table_at bytes.now table) }
    ensures { Reports result (symbol_table_fault bytes.now table) }
{
    check_size(&section_header(bytes, header, table))?;
    check_shared(bytes, header, table)?;
    check_strings(bytes, header, table)?;
    check_limit(&section_header(bytes, header, table))?;
    check_entries(bytes, header, table)
}

fn check_size(section: &SectionHeader) -> Result<(), ElfFault>
    ensures { Reports result (symbol_size_fault section.now) }
{
    if !has_entries(section, SYMBOL_SIZE) {
        return Err(ElfFault::WrongKind {
            field: field::SYMBOL_ENTSIZE,
            value: section.sh_entsize,
        });
    }
    Ok(())
}

fn check_shared(bytes: &[u8], header: &FileHeader, table: u16) -> Result<(), ElfFault>
    requires headers { HasSectionTable bytes.now header.now }
    requires below { table < header.now.e_shnum }
    ensures { Reports result (shared_table_fault bytes.now table) }
{
    let section = section_header(bytes, header, table);
    if overlaps_section_headers(bytes, header, &section) || shares_some(bytes, header, table) {
        return Err(ElfFault::WrongKind {
            field: field::SHARED_SYMBOL_TABLE,
            value: u32::from(table),
        });
    }
    Ok(())
}

/// The content of a section meets the table of section headers.
fn overlaps_section_headers(bytes: &[u8], header: &FileHeader, section: &SectionHeader) -> bool
    requires { header.now ≡ file_header bytes.now }
    ensures { result ≡ overlaps_section_headers bytes.now section.now }
{
    let size = SECTION_HEADER_SIZE as u32 * u32::from(header.e_shnum);
    intersect(section.sh_offset, section.sh_size, header.e_shoff, size)
}

/// The content of some other section meets that of section `table`.
fn shares_some(bytes: &[u8], header: &FileHeader, table: u16) -> bool
    requires headers { HasSectionTable bytes.now header.now }
    requires below { table < header.now.e_shnum }
    ensures { result ≡ any_below (shares_bytes bytes.now table) (section_count bytes.now) }
{
    for k in 0..header.e_shnum {
        if shares_bytes(bytes, header, table, k) {
            return true;
        }
    }
    false
}

/// Section `k` is another one, whose content meets that of section `table`.
fn shares_bytes(bytes: &[u8], header: &FileHeader, table: u16, k: u16) -> bool
    requires headers { HasSectionTable bytes.now header.now }
    requires below { table < header.now.e_shnum }
    requires other { k < header.now.e_shnum }
    ensures { result ≡ shares_bytes bytes.now table k }
{
    let section = section_header(bytes, header, table);
    let other = section_header(bytes, header, k);
    k != table
        && is_in_file(other.sh_type)
        && intersect(
            section.sh_offset,
            section.sh_size,
            other.sh_offset,
            other.sh_size,
        )
}

fn check_strings(bytes: &[u8], header: &FileHeader, table: u16) -> Result<(), ElfFault>
    requires headers { HasSectionTable bytes.now header.now }
    requires below { table < header.now.e_shnum }
    ensures { Reports result (symbol_strings_fault bytes.now table) }
{
    let link = section_header(bytes, header, table).sh_link;
    if is_string_table(bytes, header, link) {
        Ok(())
    } else {
        Err(ElfFault::BadIndex {
            table: table::SECTIONS,
            index: link,
        })
    }
}

fn check_limit(section: &SectionHeader) -> Result<(), ElfFault>
    ensures { Reports result (symbol_limit_fault section.now) }
{
    let count = symbol_count_of(section);
    if count > MAX_SYMBOLS {
        return Err(ElfFault::OverLimit {
            what: limit::SYMBOLS,
            count,
        });
    }
    Ok(())
}

fn check_entries(bytes: &[u8], header: &FileHeader, table: u16) -> Result<(), ElfFault>
    requires headers { HasSectionTable bytes.now header.now }
    requires contents { HasContents bytes.now }
    requires below { table < header.now.e_shnum }
    requires places { HasSymbols bytes.now table }
    requires strings { IsTrue (names_section bytes.now is_string_table (section_header bytes.now table).sh_link) }
    ensures { Reports result (symbol_entries_fault bytes.now table) }
{
    let end = names_end(symbol_names(bytes, header, table));
    let count = symbol_count_of(&section_header(bytes, header, table));
    for i in 0..count {
        check_symbol(bytes, header, table, end, i)?;
    }
    Ok(())
}

/// The checks of symbol `i`, where names begin before byte `names_end` of their string table.
fn check_symbol(
    bytes: &[u8],
    header: &FileHeader,
    table: u16,
    names_end: usize,
    i: u32,
) -> Result<(), ElfFault>
    requires headers { HasSectionTable bytes.now header.now }
    requires below { table < header.now.e_shnum }
    requires places { HasSymbols bytes.now table }
    requires names { (start : ℕ) → has_name (symbol_names bytes.now table) start ≡ nat_lt start names_end }
    requires entry { i < symbol_count_of (section_header bytes.now table) }
    ensures { Reports result (symbol_fault bytes.now table i) }
{
    let symbol = symbol_record(bytes, header, table, i);
    if (symbol.st_name as usize) < names_end && has_section(header.e_shnum, &symbol) {
        return Ok(());
    }
    Err(ElfFault::BadIndex {
        table: table::SYMBOLS,
        index: i,
    })
}

/// The section number of a symbol is that of a section, or a reserved one.
fn has_section(count: u16, symbol: &SymbolRecord) -> bool
    ensures { result ≡ has_section count symbol.now }
{
    symbol.st_shndx < count || symbol.st_shndx >= SHN_LORESERVE
}
