ghost use Rattle.std.specs.Prelude.{◌≡◌, ℕ, ◌+◌, ◌<◌, ◌≤◌, OnOk};
ghost use Rattle.list_checks.specs.First.{Reports};
ghost use Rattle.elf_reader.specs.{Sections.{symbol_table, symbol_count, relocation_count_at, relocation_count_below, relocation_count}, RelocationChecks.{rel_fault_of, is_table_of, rela_table_fault_of, rela_fault, relas_fault, relocation_limit_fault, is_supported, relocation_fault_of, relocation_fault, section_relocations_fault, relocation_entries_fault, relocations_fault}, Placed.{HasSectionTable, HasContents}};

use crate::fault::ElfFault;
use crate::kinds::SHT_REL;
use crate::limit_checks::check_count;
use crate::numbers::{field, limit, table};
use crate::records::{FileHeader, RELOCATION_SIZE, RelocationRecord, SectionHeader};
use crate::relocations::{
    is_allocated_section, is_relocation_section, relocation_count_at, relocation_record,
};
use crate::section_checks::{SectionCheck, check_each};
use crate::sections::{has_entries, is_allocated, section_header};

/// The most relocations of a file.
const MAX_RELOCATIONS: u64 = 262_144;

/// The checks of the relocations. The symbol table is that of section header `table`, if there is one,
/// and has `symbols` entries.
pub(crate) fn check_relocations(
    bytes: &[u8],
    header: &FileHeader,
    table: Option<u16>,
    symbols: u32,
) -> Result<(), ElfFault>
    requires headers { HasSectionTable bytes.now header.now }
    requires contents { HasContents bytes.now }
    requires table { table ≡ symbol_table bytes.now }
    requires symbols { symbols ≡ symbol_count bytes.now }
    ensures fault { Reports result (relocations_fault bytes.now) }
    ensures limit { OnOk result (relocation_count bytes.now ≤ 262144) }
{
    check_each(bytes, header, SectionCheck::Rel)?;
    check_relas(bytes, header, table)?;
    check_limit(bytes, header)?;
    check_entries(bytes, header, symbols)
}

/// A section does not hold relocations without addends that change a section with memory.
pub(crate) fn check_rel(
    bytes: &[u8],
    header: &FileHeader,
    section: &SectionHeader,
) -> Result<(), ElfFault>
    requires headers { HasSectionTable bytes.now header.now }
    ensures { Reports result (rel_fault_of bytes.now section.now) }
{
    if section.sh_type == SHT_REL && is_allocated_section(bytes, header, section.sh_info) {
        return Err(ElfFault::WrongKind {
            field: field::SH_TYPE,
            value: SHT_REL,
        });
    }
    Ok(())
}

fn check_relas(bytes: &[u8], header: &FileHeader, table: Option<u16>) -> Result<(), ElfFault>
    requires headers { HasSectionTable bytes.now header.now }
    requires table { table ≡ symbol_table bytes.now }
    ensures { Reports result (relas_fault bytes.now) }
{
    for k in 0..header.e_shnum {
        check_rela(bytes, header, table, k)?;
    }
    Ok(())
}

fn check_rela(bytes: &[u8], header: &FileHeader, table: Option<u16>, k: u16) -> Result<(), ElfFault>
    requires headers { HasSectionTable bytes.now header.now }
    requires table { table ≡ symbol_table bytes.now }
    requires below { k < header.now.e_shnum }
    ensures { Reports result (rela_fault bytes.now k) }
{
    let section = section_header(bytes, header, k);
    if !is_relocation_section(&section) {
        return Ok(());
    }
    if section.sh_info >= u32::from(header.e_shnum) {
        return Err(ElfFault::BadIndex {
            table: table::RELOCATION_SECTIONS,
            index: u32::from(k),
        });
    }
    if is_allocated(&section_header(bytes, header, section.sh_info as u16)) {
        check_rela_table(table, k, &section)
    } else {
        Ok(())
    }
}

/// The relocations of section header `k` name symbols of the symbol table, in entries of their size.
fn check_rela_table(table: Option<u16>, k: u16, section: &SectionHeader) -> Result<(), ElfFault>
    ensures { Reports result (rela_table_fault_of table k section.now) }
{
    if !is_table(table, section.sh_link) {
        return Err(ElfFault::BadIndex {
            table: table::RELOCATION_SECTIONS,
            index: u32::from(k),
        });
    }
    if !has_entries(section, RELOCATION_SIZE) {
        return Err(ElfFault::WrongKind {
            field: field::RELOCATION_ENTSIZE,
            value: section.sh_entsize,
        });
    }
    Ok(())
}

/// The number is that of the symbol table's section header.
fn is_table(table: Option<u16>, number: u32) -> bool
    ensures { result ≡ is_table_of table number }
{
    match table {
        Some(table) => number == u32::from(table),
        None => false,
    }
}

fn check_limit(bytes: &[u8], header: &FileHeader) -> Result<(), ElfFault>
    requires headers { HasSectionTable bytes.now header.now }
    ensures fault { Reports result (relocation_limit_fault bytes.now) }
    ensures limit { OnOk result (relocation_count bytes.now ≤ 262144) }
{
    let mut total: u64 = 0;
    for k in 0..header.e_shnum {
        total += u64::from(relocation_count_at(bytes, header, k));
    }
    check_count(limit::RELOCATIONS, total, MAX_RELOCATIONS)
}

#[tactic(auto, using(list_checks::proofs::FirstLemmas::first_found))]
fn check_entries(bytes: &[u8], header: &FileHeader, symbols: u32) -> Result<(), ElfFault>
    requires headers { HasSectionTable bytes.now header.now }
    requires contents { HasContents bytes.now }
    requires symbols { symbols ≡ symbol_count bytes.now }
    requires limit { relocation_count bytes.now ≤ 262144 }
    ensures { Reports result (relocation_entries_fault bytes.now) }
{
    let mut first = 0;
    for k in 0..header.e_shnum {
        check_section_entries(bytes, header, symbols, k, first)?;
        first += relocation_count_at(bytes, header, k);
    }
    Ok(())
}

/// The checks of the relocations of section header `k`, of which the first is number `first` of all.
fn check_section_entries(
    bytes: &[u8],
    header: &FileHeader,
    symbols: u32,
    k: u16,
    first: u32,
) -> Result<(), ElfFault>
    requires headers { HasSectionTable bytes.now header.now }
    requires contents { HasContents bytes.now }
    requires symbols { symbols ≡ symbol_count bytes.now }
    requires below { k < header.now.e_shnum }
    requires first { first ≡ relocation_count_below bytes.now k }
    requires limit { first + relocation_count_at bytes.now k ≤ 262144 }
    ensures { Reports result (section_relocations_fault bytes.now k) }
{
    let count = relocation_count_at(bytes, header, k);
    for i in 0..count {
        let record = relocation_record(bytes, header, k, i);
        check_relocation(symbols, first + i, &record)?;
    }
    Ok(())
}

/// The checks of a relocation, number `index` of all that are read.
fn check_relocation(symbols: u32, index: u32, record: &RelocationRecord) -> Result<(), ElfFault>
    ensures { Reports result (relocation_fault_of symbols index record.now) }
{
    if record.symbol() >= symbols {
        return Err(ElfFault::BadIndex {
            table: table::RELOCATIONS,
            index,
        });
    }
    if !is_supported(record.kind()) {
        return Err(ElfFault::Unsupported {
            index,
            kind: record.kind(),
        });
    }
    Ok(())
}

/// The kind of relocation is supported (RISC-V psABI, "Relocations"): NONE and 32; BRANCH, JAL, CALL and
/// CALL_PLT; PCREL_HI20, HI20 and their LO12; ADD8 to ADD32 and SUB8 to SUB32; ALIGN; RELAX, SUB6, SET6 to
/// SET32 and 32_PCREL; SET_ULEB128 and SUB_ULEB128.
fn is_supported(kind: u32) -> bool
    ensures { result ≡ is_supported kind }
{
    matches!(
        kind,
        0 | 1 | 16..=19 | 23..=28 | 33..=35 | 37..=39 | 43 | 51..=57 | 60 | 61
    )
}
