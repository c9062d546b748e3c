ghost use Rattle.std.specs.Prelude.{◌≡◌, ℕ, ◌+◌, ◌*◌, ◌<◌, ◌≤◌, length, OnOk};
ghost use Rattle.list_checks.specs.First.{Reports};
ghost use Rattle.elf_reader.specs.{Layout.{file_header, program_header}, ProgramHeaderChecks.{table_fault, load_fault, program_fault, entry_fault, entries_fault, memory_size, memory_fault, overlaps, pair_fault, pairs_fault, overlap_fault, program_headers_fault}, Loadable.{HasProgramTable, HasProgramHeaders, HasSegments}};

use crate::fault::ElfFault;
use crate::header_tables::{HeaderTable, check_headers};
use crate::kinds::PT_LOAD;
use crate::limit_checks::check_count;
use crate::numbers::{field, limit, table};
use crate::ranges::intersect;
use crate::records::{FileHeader, ProgramHeader};

/// The greatest memory of all segments together, in bytes.
const MAX_MEMORY: u64 = 16 * 1024 * 1024;

const PT_DYNAMIC: u32 = 2;

const PT_INTERP: u32 = 3;

/// The checks of the program headers.
pub(crate) fn check_program_headers(bytes: &[u8], header: &FileHeader) -> Result<(), ElfFault>
    requires { header.now ≡ file_header bytes.now }
    ensures fault { Reports result (program_headers_fault bytes.now) }
    ensures headers { OnOk result (HasProgramHeaders bytes.now) }
    ensures segments { OnOk result (HasSegments bytes.now) }
{
    check_table(bytes, header)?;
    check_entries(bytes, header)?;
    check_memory(bytes, header)?;
    check_overlaps(bytes, header)
}

/// Program header `k` of the file.
pub(crate) fn program_header(bytes: &[u8], header: &FileHeader, k: u16) -> ProgramHeader
    requires headers { HasProgramTable bytes.now header.now }
    requires below { k < header.now.e_phnum }
    ensures { result ≡ program_header bytes.now k }
{
    ProgramHeader::parse(bytes, header.program_header_at(k))
}

fn check_table(bytes: &[u8], header: &FileHeader) -> Result<(), ElfFault>
    requires { header.now ≡ file_header bytes.now }
    ensures fault { Reports result (table_fault bytes.now) }
    ensures headers { OnOk result (HasProgramHeaders bytes.now) }
{
    check_headers(bytes, header, HeaderTable::Programs, header.e_phnum)?;
    Ok(())
}

#[tactic(auto, using(list_checks::proofs::FirstLemmas::first_found))]
fn check_entries(bytes: &[u8], header: &FileHeader) -> Result<(), ElfFault>
    requires headers { HasProgramTable bytes.now header.now }
    ensures fault { Reports result (entries_fault bytes.now) }
    ensures segments { OnOk result (HasSegments bytes.now) }
{
    for k in 0..header.e_phnum {
        check_entry(bytes, header, k)?;
    }
    Ok(())
}

fn check_entry(bytes: &[u8], header: &FileHeader, k: u16) -> Result<(), ElfFault>
    requires headers { HasProgramTable bytes.now header.now }
    requires below { k < header.now.e_phnum }
    ensures { Reports result (entry_fault bytes.now k) }
{
    check_program(bytes.len(), k, &program_header(bytes, header, k))
}

fn check_program(size: usize, k: u16, program: &ProgramHeader) -> Result<(), ElfFault>
    ensures { Reports result (program_fault size k program.now) }
{
    match program.p_type {
        PT_DYNAMIC | PT_INTERP => Err(ElfFault::WrongKind {
            field: field::P_TYPE,
            value: program.p_type,
        }),
        PT_LOAD => check_load(size, k, program),
        _ => Ok(()),
    }
}

fn check_load(size: usize, k: u16, program: &ProgramHeader) -> Result<(), ElfFault>
    ensures { Reports result (load_fault size k program.now) }
{
    if program.p_offset as usize + program.p_filesz as usize > size {
        return Err(ElfFault::OutOfFile {
            table: table::SEGMENTS,
            index: u32::from(k),
        });
    }
    if program.p_filesz > program.p_memsz {
        return Err(ElfFault::WrongKind {
            field: field::P_FILESZ,
            value: program.p_filesz,
        });
    }
    if u64::from(program.p_vaddr) + u64::from(program.p_memsz) > u64::from(u32::MAX) {
        return Err(ElfFault::WrongKind {
            field: field::P_MEMSZ,
            value: program.p_memsz,
        });
    }
    Ok(())
}

fn check_memory(bytes: &[u8], header: &FileHeader) -> Result<(), ElfFault>
    requires headers { HasProgramTable bytes.now header.now }
    ensures { Reports result (memory_fault bytes.now) }
{
    let mut total: u64 = 0;
    for k in 0..header.e_phnum {
        total += memory_of(&program_header(bytes, header, k));
    }
    check_count(limit::MEMORY_BYTES, total, MAX_MEMORY)
}

/// The bytes in memory of the segment, if it is to be loaded.
fn memory_of(program: &ProgramHeader) -> u64
    ensures value { result ≡ memory_size program.now }
    ensures small { result < 4294967296 }
{
    if program.p_type == PT_LOAD {
        u64::from(program.p_memsz)
    } else {
        0
    }
}

#[tactic(auto, using(list_checks::proofs::FirstLemmas::first_found))]
fn check_overlaps(bytes: &[u8], header: &FileHeader) -> Result<(), ElfFault>
    requires headers { HasProgramTable bytes.now header.now }
    ensures { Reports result (overlap_fault bytes.now) }
{
    for first in 0..header.e_phnum {
        check_pairs(bytes, header, first)?;
    }
    Ok(())
}

#[tactic(auto, using(list_checks::proofs::FirstLemmas::first_found, crate::proofs::Overlaps::no_lower))]
fn check_pairs(bytes: &[u8], header: &FileHeader, first: u16) -> Result<(), ElfFault>
    requires headers { HasProgramTable bytes.now header.now }
    requires below { first < header.now.e_phnum }
    ensures { Reports result (pairs_fault bytes.now first) }
{
    let count = header.e_phnum;
    for second in first + 1..count {
        check_pair(bytes, header, first, second)?;
    }
    Ok(())
}

#[tactic(auto, unfolding(crate::specs::ProgramHeaderChecks::pair_fault))]
fn check_pair(bytes: &[u8], header: &FileHeader, first: u16, second: u16) -> Result<(), ElfFault>
    requires headers { HasProgramTable bytes.now header.now }
    requires order { first < second }
    requires below { second < header.now.e_phnum }
    ensures { Reports result (pair_fault bytes.now first second) }
{
    if overlap(
        &program_header(bytes, header, first),
        &program_header(bytes, header, second),
    ) {
        return Err(ElfFault::Overlap {
            first: u32::from(first),
            second: u32::from(second),
        });
    }
    Ok(())
}

/// The two are segments to be loaded that share an address.
fn overlap(one: &ProgramHeader, other: &ProgramHeader) -> bool
    ensures { result ≡ overlaps one.now other.now }
{
    one.p_type == PT_LOAD
        && other.p_type == PT_LOAD
        && intersect(one.p_vaddr, one.p_memsz, other.p_vaddr, other.p_memsz)
}
