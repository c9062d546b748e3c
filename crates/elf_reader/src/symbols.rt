ghost use Rattle.std.specs.Prelude.{◌≡◌, ℕ, ◌+◌, ◌*◌, ◌<◌, ◌≤◌, ◌++◌, ◌∷◌, [], map, IsTrue, length, IfOk, OnOk};
ghost use Rattle.elf_reader.specs.{Layout.{section_header, symbol_record}, Sections.{is_string_table, names_section, symbol_table, symbol_count_of, symbol_count, symbol_names}, File.{plain_symbol, symbol_of, symbols_below, all_symbols}, Placed.{HasSectionTable, HasContents, HasSymbols}, SymbolTables.{IsReadable, HasReadable}};

use crate::records::{FileHeader, SYMBOL_SIZE, SectionHeader, SymbolRecord};
use crate::sections::{content, section_header};
use crate::string_table::StringTable;
use crate::view::Symbol;
use std::alloc::{AllocError, Global};

/// The symbols of the symbol table of section header `table`, in its order; none without a table.
pub(crate) fn read_symbols<'a>(
    alloc: Global,
    bytes: &'a [u8],
    header: &FileHeader,
    table: Option<u16>,
) -> Result<Vec<Symbol<'a>>, AllocError>
    requires small { length bytes.now ≤ 67108864 }
    requires headers { HasSectionTable bytes.now header.now }
    requires contents { HasContents bytes.now }
    requires table { table ≡ symbol_table bytes.now }
    requires readable { HasReadable bytes.now table }
    ensures { IfOk result (λ symbols. map plain_symbol symbols.items ≡ all_symbols bytes.now) }
{
    match table {
        Some(table) => read_table(alloc, bytes, header, table),
        None => Ok(Vec::new(alloc)),
    }
}

/// The symbols of the table of section header `table`.
fn read_table<'a>(
    alloc: Global,
    bytes: &'a [u8],
    header: &FileHeader,
    table: u16,
) -> Result<Vec<Symbol<'a>>, AllocError>
    requires small { length bytes.now ≤ 67108864 }
    requires headers { HasSectionTable bytes.now header.now }
    requires contents { HasContents bytes.now }
    requires readable { IsReadable bytes.now table }
    ensures { IfOk result (λ symbols. map plain_symbol symbols.items ≡ symbols_below bytes.now table (symbol_count_of (section_header bytes.now table))) }
{
    let names = StringTable::new(alloc, symbol_names(bytes, header, table))?;
    let count = symbol_count_of(&section_header(bytes, header, table));
    let mut symbols = Vec::new(alloc);
    for i in 0..count {
        push_symbol(&mut symbols, bytes, header, table, &names, i)?;
    }
    Ok(symbols)
}

/// Adds entry `i` of the table of section header `table`.
fn push_symbol<'a>(
    symbols: &mut Vec<Symbol<'a>>,
    bytes: &'a [u8],
    header: &FileHeader,
    table: u16,
    names: &StringTable<'a>,
    i: u32,
) -> Result<(), AllocError>
    requires small { length bytes.now ≤ 67108864 }
    requires headers { HasSectionTable bytes.now header.now }
    requires readable { IsReadable bytes.now table }
    requires names { names.now.bytes.now ≡ symbol_names bytes.now table }
    requires entry { i < symbol_count_of (section_header bytes.now table) }
    ensures { OnOk result (map plain_symbol symbols.new.items ≡ map plain_symbol symbols.old.items ++ symbol_of bytes.now table i ∷ []) }
{
    let record = symbol_record(bytes, header, table, i);
    let section = section_header(bytes, header, table);
    symbols.push(Symbol {
        name: names.name(record.st_name),
        value: record.st_value,
        size: record.st_size,
        kind: record.st_info & 0xf,
        section: u32::from(record.st_shndx),
        at: section.sh_offset + SYMBOL_SIZE as u32 * i,
    })?;
    Ok(())
}

/// How many symbols the file has; none without a table.
pub(crate) fn symbol_count(bytes: &[u8], header: &FileHeader, table: Option<u16>) -> u32
    requires headers { HasSectionTable bytes.now header.now }
    requires table { table ≡ symbol_table bytes.now }
    requires readable { HasReadable bytes.now table }
    ensures { result ≡ symbol_count bytes.now }
{
    match table {
        Some(table) => symbol_count_of(&section_header(bytes, header, table)),
        None => 0,
    }
}

/// How many symbols a symbol table has, the null symbol among them.
pub(crate) fn symbol_count_of(table: &SectionHeader) -> u32
    ensures { result ≡ symbol_count_of table.now }
{
    table.sh_size / SYMBOL_SIZE as u32
}

/// The record of entry `i` of the table of section header `table`.
pub(crate) fn symbol_record(bytes: &[u8], header: &FileHeader, table: u16, i: u32) -> SymbolRecord
    requires headers { HasSectionTable bytes.now header.now }
    requires below { table < header.now.e_shnum }
    requires places { HasSymbols bytes.now table }
    requires entry { i < symbol_count_of (section_header bytes.now table) }
    ensures { result ≡ symbol_record bytes.now table i }
{
    let section = section_header(bytes, header, table);
    SymbolRecord::parse(bytes, section.sh_offset as usize + SYMBOL_SIZE * i as usize)
}

/// The content of the string table of the symbols' names.
pub(crate) fn symbol_names<'a>(bytes: &'a [u8], header: &FileHeader, table: u16) -> &'a [u8]
    requires headers { HasSectionTable bytes.now header.now }
    requires contents { HasContents bytes.now }
    requires below { table < header.now.e_shnum }
    requires strings { IsTrue (names_section bytes.now is_string_table (section_header bytes.now table).sh_link) }
    ensures { result.now ≡ symbol_names bytes.now table }
{
    let link = section_header(bytes, header, table).sh_link;
    content(bytes, &section_header(bytes, header, link as u16))
}
