ghost use Rattle.std.specs.Prelude.{◌≡◌, ℕ, ◌+◌, ◌*◌, ◌<◌, ◌≤◌, length, slice_index, IfOk, OnOk};
ghost use Rattle.list_checks.specs.First.{Reports};
ghost use Rattle.elf_reader.specs.{Layout.{file_header}, Sections.{bit_of}, HeaderChecks.{size_fault, magic_byte_fault, magic_fault, identification_fault, field_fault, machine_fault, flags_fault, sizes_fault, counts_fault, fields_fault, header_fault}};

use crate::fault::ElfFault;
use crate::limit_checks::check_count;
use crate::numbers::{field, limit};
use crate::records::{FILE_HEADER_SIZE, FileHeader, PROGRAM_HEADER_SIZE, SECTION_HEADER_SIZE};

/// The greatest size of a file, in bytes.
const MAX_FILE_SIZE: usize = 64 * 1024 * 1024;

/// The most program headers of a file.
const MAX_PROGRAM_HEADERS: u16 = 64;

/// The most section headers of a file.
const MAX_SECTION_HEADERS: u16 = 4096;

const ELFCLASS32: u32 = 1;

const ELFDATA2LSB: u32 = 1;

const EV_CURRENT: u32 = 1;

const ET_EXEC: u32 = 2;

const EM_RISCV: u32 = 243;

/// The bit of `e_flags` for compressed instructions (`EF_RISCV_RVC`).
const RVC_BIT: u32 = 0;

/// The bit of `e_flags` for RV32E (`EF_RISCV_RVE`).
const RVE_BIT: u32 = 3;

/// The ELF header of a file that passes its checks.
pub(crate) fn check_header(bytes: &[u8]) -> Result<FileHeader, ElfFault>
    ensures fault { Reports result (header_fault bytes.now) }
    ensures header { IfOk result (λ h. h ≡ file_header bytes.now) }
    ensures size { OnOk result (FILE_HEADER_SIZE ≤ length bytes.now) }
    ensures small { OnOk result (length bytes.now ≤ MAX_FILE_SIZE) }
{
    check_size(bytes)?;
    check_magic(bytes)?;
    check_identification(bytes)?;
    let header = FileHeader::parse(bytes);
    check_fields(&header)?;
    Ok(header)
}

fn check_size(bytes: &[u8]) -> Result<(), ElfFault>
    ensures fault { Reports result (size_fault bytes.now) }
    ensures size { OnOk result (FILE_HEADER_SIZE ≤ length bytes.now) }
    ensures small { OnOk result (length bytes.now ≤ MAX_FILE_SIZE) }
{
    check_count(limit::FILE_BYTES, bytes.len() as u64, MAX_FILE_SIZE as u64)?;
    if bytes.len() < FILE_HEADER_SIZE {
        return Err(ElfFault::TooShort {
            need: FILE_HEADER_SIZE as u32,
            have: bytes.len() as u32,
        });
    }
    Ok(())
}

fn check_magic(bytes: &[u8]) -> Result<(), ElfFault>
    requires { FILE_HEADER_SIZE ≤ length bytes.now }
    ensures { Reports result (magic_fault bytes.now) }
{
    check_magic_byte(bytes, 0, 0x7f)?;
    check_magic_byte(bytes, 1, b'E')?;
    check_magic_byte(bytes, 2, b'L')?;
    check_magic_byte(bytes, 3, b'F')
}

fn check_magic_byte(bytes: &[u8], at: u32, byte: u8) -> Result<(), ElfFault>
    requires { at < length bytes.now }
    ensures { Reports result (magic_byte_fault bytes.now at byte) }
{
    if bytes[at as usize] == byte {
        Ok(())
    } else {
        Err(ElfFault::NotElf { at })
    }
}

fn check_identification(bytes: &[u8]) -> Result<(), ElfFault>
    requires { FILE_HEADER_SIZE ≤ length bytes.now }
    ensures { Reports result (identification_fault bytes.now) }
{
    check_field(field::EI_CLASS, u32::from(bytes[4]), ELFCLASS32)?;
    check_field(field::EI_DATA, u32::from(bytes[5]), ELFDATA2LSB)?;
    check_field(field::EI_VERSION, u32::from(bytes[6]), EV_CURRENT)
}

fn check_field(field: u32, value: u32, wanted: u32) -> Result<(), ElfFault>
    ensures { Reports result (field_fault field value wanted) }
{
    if value == wanted {
        Ok(())
    } else {
        Err(ElfFault::WrongKind { field, value })
    }
}

fn check_fields(header: &FileHeader) -> Result<(), ElfFault>
    ensures { Reports result (fields_fault header.now) }
{
    check_machine(header)?;
    check_flags(header)?;
    check_sizes(header)?;
    check_counts(header)
}

fn check_machine(header: &FileHeader) -> Result<(), ElfFault>
    ensures { Reports result (machine_fault header.now) }
{
    check_field(field::E_TYPE, u32::from(header.e_type), ET_EXEC)?;
    check_field(field::E_MACHINE, u32::from(header.e_machine), EM_RISCV)?;
    check_field(field::E_VERSION, header.e_version, EV_CURRENT)
}

fn check_flags(header: &FileHeader) -> Result<(), ElfFault>
    ensures { Reports result (flags_fault header.now) }
{
    if has_bit(header.e_flags, RVC_BIT) || has_bit(header.e_flags, RVE_BIT) {
        return Err(ElfFault::WrongKind {
            field: field::E_FLAGS,
            value: header.e_flags,
        });
    }
    Ok(())
}

/// Whether bit `bit` of a word is set.
pub(crate) fn has_bit(word: u32, bit: u32) -> bool
    requires { bit < 32 }
    ensures { result ≡ bit_of word bit }
{
    (word >> bit) & 1 == 1
}

fn check_sizes(header: &FileHeader) -> Result<(), ElfFault>
    ensures { Reports result (sizes_fault header.now) }
{
    check_size_field(field::E_EHSIZE, header.e_ehsize, FILE_HEADER_SIZE)?;
    if header.e_phnum > 0 {
        check_size_field(field::E_PHENTSIZE, header.e_phentsize, PROGRAM_HEADER_SIZE)?;
    }
    if header.e_shnum > 0 {
        check_size_field(field::E_SHENTSIZE, header.e_shentsize, SECTION_HEADER_SIZE)?;
    }
    Ok(())
}

/// The check of a field that tells the size of a record.
fn check_size_field(field: u32, size: u16, wanted: usize) -> Result<(), ElfFault>
    requires { wanted < 4294967296 }
    ensures { Reports result (field_fault field size wanted) }
{
    check_field(field, u32::from(size), wanted as u32)
}

fn check_counts(header: &FileHeader) -> Result<(), ElfFault>
    ensures { Reports result (counts_fault header.now) }
{
    if header.e_phnum > MAX_PROGRAM_HEADERS {
        return Err(ElfFault::OverLimit {
            what: limit::PROGRAM_HEADERS,
            count: u32::from(header.e_phnum),
        });
    }
    if header.e_shnum > MAX_SECTION_HEADERS {
        return Err(ElfFault::OverLimit {
            what: limit::SECTION_HEADERS,
            count: u32::from(header.e_shnum),
        });
    }
    Ok(())
}
