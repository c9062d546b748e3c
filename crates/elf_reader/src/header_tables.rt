//! The two tables of headers, and whether they lie inside the file.
ghost use Rattle.std.specs.Prelude.{◌≡◌, ◌<◌, nat_le, length};
ghost use Rattle.list_checks.specs.First.{Reports, unless, first_below};
ghost use Rattle.elf_reader.specs.{Layout.{file_header}, HeaderTables.{outside_fault, header_count}};

use crate::fault::ElfFault;
use crate::numbers::table;
use crate::records::{FileHeader, PROGRAM_HEADER_SIZE, SECTION_HEADER_SIZE};

/// A table of headers.
#[derive(Clone, Copy)]
pub(crate) enum HeaderTable {
    /// The program headers.
    Programs,
    /// The section headers.
    Sections,
}

/// All `count` headers of a table lie inside the file.
pub(crate) fn check_headers(
    bytes: &[u8],
    header: &FileHeader,
    kind: HeaderTable,
    count: u16,
) -> Result<(), ElfFault>
    requires header { header.now ≡ file_header bytes.now }
    requires count { count ≡ header_count kind bytes.now }
    ensures { Reports result (first_below (outside_fault kind bytes.now) (header_count kind bytes.now)) }
{
    for k in 0..count {
        check_place(bytes, header, kind, k)?;
    }
    Ok(())
}

/// Header `k` of a table lies inside the file.
fn check_place(bytes: &[u8], header: &FileHeader, kind: HeaderTable, k: u16) -> Result<(), ElfFault>
    requires { header.now ≡ file_header bytes.now }
    ensures { Reports result (outside_fault kind bytes.now k) }
{
    match kind {
        HeaderTable::Programs => {
            let end = header.program_header_at(k) + PROGRAM_HEADER_SIZE;
            check_end(bytes, end, table::PROGRAM_HEADERS, k)
        }
        HeaderTable::Sections => {
            let end = header.section_header_at(k) + SECTION_HEADER_SIZE;
            check_end(bytes, end, table::SECTION_HEADERS, k)
        }
    }
}

/// Record `k` of a table, which ends before byte `end`, lies inside the file.
fn check_end(bytes: &[u8], end: usize, table: u32, k: u16) -> Result<(), ElfFault>
    ensures { Reports result (unless (nat_le end (length bytes.now)) (ElfFault.OutOfFile table k)) }
{
    if end <= bytes.len() {
        Ok(())
    } else {
        Err(ElfFault::OutOfFile {
            table,
            index: u32::from(k),
        })
    }
}
