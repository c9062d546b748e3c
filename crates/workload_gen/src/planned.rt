//! The sections of a file that is to be built, without their places.
ghost use Rattle.std.specs.Prelude.{◌≡◌, ℕ, ◌+◌, ◌++◌, ◌∷◌, [], length, map, codes, string_bytes, IfOk, OnOk};
ghost use Rattle.workload_gen.specs.{Plan.{section_plan, symbol_plan, file_plan}, Built.{kind_of, memory_size, asked, symbol_bytes, symbols_bytes, symbol_name, section_names_name, planned_name, symbol_table_of, names_of, relocation_bytes, relocations_bytes, relocation_name, relocations_of, names_section_of}, Planned.{plain_planned}};
ghost use Rattle.elf_writer.specs.Pieces.{padded, string_table, zero_bytes};

use crate::spec::{FileSpec, SectionSpec, SymbolSpec};
use crate::writing::{padded_size, push_half, push_words};
use elf_reader::{Reloc, SHT_NOBITS, SHT_PROGBITS, SHT_RELA, SHT_STRTAB, SHT_SYMTAB};
use elf_writer::push_zeros;
use std::alloc::{AllocError, Global};

/// The bytes of an entry of a symbol table.
const SYMBOL_SIZE: u32 = 16;

/// The bytes of a relocation with an addend.
const RELOCATION_SIZE: u32 = 12;

/// `STB_GLOBAL` in the upper half of `st_info`.
const GLOBAL_BINDING: u8 = 16;

/// A section of a file, without its place and the place of its name (ELF, "Sections": `Elf32_Shdr`).
#[derive(Drop)]
pub(crate) struct PlannedSection {
    pub name: String,
    pub kind: u32,
    pub flags: u32,
    pub addr: u32,
    pub size: u64,
    pub link: u64,
    pub info: u64,
    pub align: u32,
    pub entsize: u32,
    pub content: Vec<u8>,
}

/// A section as it was asked for.
pub(crate) fn asked_section(
    alloc: Global,
    section: &SectionSpec,
) -> Result<PlannedSection, AllocError>
    ensures { IfOk result (λ planned. plain_planned planned ≡ asked (section_plan section.now)) }
{
    Ok(PlannedSection {
        name: String::from_str(alloc, &section.name)?,
        kind: section_kind(section),
        flags: section.flags,
        addr: section.addr,
        size: size_in_memory(section),
        link: 0,
        info: 0,
        align: 4,
        entsize: 0,
        content: Vec::from_slice(alloc, &section.bytes)?,
    })
}

/// `SHT_NOBITS` where a section is empty, else `SHT_PROGBITS`.
fn section_kind(section: &SectionSpec) -> u32
    ensures { result ≡ kind_of (section_plan section.now) }
{
    if section.empty > 0 {
        SHT_NOBITS
    } else {
        SHT_PROGBITS
    }
}

/// A section's size in memory, in bytes.
pub(crate) fn size_in_memory(section: &SectionSpec) -> u64
    ensures { result ≡ memory_size (section_plan section.now) }
{
    if section.empty > 0 {
        u64::from(section.empty)
    } else {
        section.bytes.len() as u64
    }
}

/// The symbol table: the null symbol, and the symbols, all of them global (ELF, "Symbol Table").
pub(crate) fn symbol_table(alloc: Global, spec: &FileSpec) -> Result<PlannedSection, AllocError>
    ensures { IfOk result (λ planned. plain_planned planned ≡ symbol_table_of (file_plan spec.now)) }
{
    let content = symbol_records(alloc, &spec.symbols)?;
    Ok(PlannedSection {
        name: String::from_str(alloc, ".symtab")?,
        kind: SHT_SYMTAB,
        flags: 0,
        addr: 0,
        size: content.len() as u64,
        link: spec.sections.len() as u64 + 2,
        info: 1,
        align: 4,
        entsize: SYMBOL_SIZE,
        content,
    })
}

/// The record of the null symbol, and those of the symbols.
fn symbol_records(alloc: Global, symbols: &[SymbolSpec]) -> Result<Vec<u8>, AllocError>
    ensures { IfOk result (λ records. records.items ≡ zero_bytes 16 ++ symbols_bytes 1 (map symbol_plan symbols.now)) }
{
    let mut records = Vec::new(alloc);
    push_zeros(&mut records, SYMBOL_SIZE as usize)?;
    push_symbols(&mut records, symbols)?;
    Ok(records)
}

/// Appends the records of symbols, whose names begin at byte 1 of the string table.
fn push_symbols(out: &mut Vec<u8>, symbols: &[SymbolSpec]) -> Result<(), AllocError>
    ensures { OnOk result (out.new.items ≡ out.old.items ++ symbols_bytes 1 (map symbol_plan symbols.now)) }
{
    let mut name_at = 1u64;
    for symbol in symbols {
        push_symbol(out, name_at, symbol)?;
        name_at = name_at.wrapping_add(name_size(&symbol.name));
    }
    Ok(())
}

/// Appends the record of a symbol whose name begins at byte `name_at` of the string table.
fn push_symbol(out: &mut Vec<u8>, name_at: u64, symbol: &SymbolSpec) -> Result<(), AllocError>
    ensures { OnOk result (out.new.items ≡ out.old.items ++ symbol_bytes name_at (symbol_plan symbol.now)) }
{
    push_words(
        out,
        &[name_at, u64::from(symbol.value), u64::from(symbol.size)],
    )?;
    let info = GLOBAL_BINDING.wrapping_add(symbol.kind);
    out.extend_from_slice(&[info, 0])?;
    push_half(out, u64::from(symbol.section))
}

/// How many bytes a name takes in a string table.
pub(crate) fn name_size(name: &str) -> u64
    ensures { result ≡ length name.now + 1 }
{
    name.len() as u64 + 1
}

/// The string table with the names of the symbols (ELF, "String Table").
pub(crate) fn symbol_names(
    alloc: Global,
    symbols: &[SymbolSpec],
) -> Result<PlannedSection, AllocError>
    ensures { IfOk result (λ planned. plain_planned planned ≡ names_of (codes ".strtab") (map symbol_name (map symbol_plan symbols.now))) }
{
    let content = symbol_name_table(alloc, symbols)?;
    names_section(alloc, ".strtab", content)
}

/// The names of the symbols, behind a zero byte.
fn symbol_name_table(alloc: Global, symbols: &[SymbolSpec]) -> Result<Vec<u8>, AllocError>
    ensures { IfOk result (λ table. table.items ≡ string_table (map symbol_name (map symbol_plan symbols.now))) }
{
    let mut table = vec![in alloc; 0]?;
    for symbol in symbols {
        push_name(&mut table, &symbol.name)?;
    }
    Ok(table)
}

/// Appends a name and the zero byte that ends it.
fn push_name(table: &mut Vec<u8>, name: &str) -> Result<(), AllocError>
    ensures { OnOk result (table.new.items ≡ table.old.items ++ (name.now ++ 0 ∷ [])) }
{
    table.extend_from_slice(name.as_bytes())?;
    table.push(0)?;
    Ok(())
}

/// A string table.
fn names_section(alloc: Global, name: &str, content: Vec<u8>) -> Result<PlannedSection, AllocError>
    ensures { IfOk result (λ planned. plain_planned planned ≡ names_section_of name.now content.items) }
{
    Ok(PlannedSection {
        name: String::from_str(alloc, name)?,
        kind: SHT_STRTAB,
        flags: 0,
        addr: 0,
        size: content.len() as u64,
        link: 0,
        info: 0,
        align: 1,
        entsize: 0,
        content,
    })
}

/// The string table with the names of the sections, its own the last of them.
#[tactic(auto, using(crate::proofs::ByteLemmas::name_pushed))]
pub(crate) fn section_names(
    alloc: Global,
    sections: &[PlannedSection],
) -> Result<PlannedSection, AllocError>
    ensures { IfOk result (λ planned. plain_planned planned ≡ names_of section_names_name (map planned_name (map plain_planned sections.now) ++ section_names_name ∷ [])) }
{
    let name = ".shstrtab";
    let mut content = vec![in alloc; 0]?;
    for section in sections {
        push_name(&mut content, &section.name)?;
    }
    push_name(&mut content, name)?;
    let names = names_section(alloc, name, content)?;
    Ok(names)
}

/// The relocations of section number `number`, by symbols of section number `table` (ELF, "Relocation").
pub(crate) fn relocation_section(
    alloc: Global,
    section: &SectionSpec,
    table: u64,
    number: u64,
) -> Result<PlannedSection, AllocError>
    ensures { IfOk result (λ planned. plain_planned planned ≡ relocations_of table number (section_plan section.now)) }
{
    let mut name = String::from_str(alloc, ".rela")?;
    name.push_str(&section.name)?;
    let mut content = Vec::new(alloc);
    push_relocations(&mut content, &section.relocs)?;
    Ok(PlannedSection {
        name,
        kind: SHT_RELA,
        flags: 0,
        addr: 0,
        size: content.len() as u64,
        link: table,
        info: number,
        align: 4,
        entsize: RELOCATION_SIZE,
        content,
    })
}

/// Appends the records of relocations.
fn push_relocations(out: &mut Vec<u8>, relocs: &[Reloc]) -> Result<(), AllocError>
    ensures { OnOk result (out.new.items ≡ out.old.items ++ relocations_bytes relocs.now) }
{
    for reloc in relocs {
        push_relocation(out, reloc)?;
    }
    Ok(())
}

/// Appends the record of a relocation.
fn push_relocation(out: &mut Vec<u8>, reloc: &Reloc) -> Result<(), AllocError>
    ensures { OnOk result (out.new.items ≡ out.old.items ++ relocation_bytes reloc.now) }
{
    let info = u64::from(reloc.symbol) * 256 + u64::from(reloc.kind);
    let addend = u64::from(reloc.addend.cast_unsigned());
    push_words(out, &[u64::from(reloc.at), info, addend])
}
