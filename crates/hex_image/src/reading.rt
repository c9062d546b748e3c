ghost use Rattle.std.specs.Prelude.{◌≡◌, ℕ, ◌+◌, ◌*◌, ◌^◌, ◌<◌, ◌≤◌, ◌==◌, IsTrue, false, true, not, List, [], ◌∷◌, length, map, IfOk, OnOk, IfSome, IfNone, position, ◌++◌};
ghost use Rattle.std.specs.Option.{option_or};
ghost use Rattle.list_checks.specs.First.{Reports, ReportsUnless, ◌or_else◌, unless};
ghost use Rattle.hex_image.specs.{Runs.{AreMaximal, byte_from, image_map, map_of, map_runs, plain_run, plain_runs, run_at, with_byte}, Records.{HasLength, plain_record, bytes_in, record_in}, Reading.{Spells, is_newline, lines_of, given_by, contents_of, data_start, after_record, after_line, check_fault, kind_fault, fields_fault, has_fields, any_given, twice_fault, record_fault, line_fault, is_end, trailing_fault, unended_fault, hex_fault, hex_contents}};

use crate::fault::HexFault;
use crate::image::{HexImage, HexRun};
use crate::records::{Record, bytes_of_line, kind, parse_record, sum_of};
use std::alloc::{AllocError, Global};
use std::collections::BTreeMap;

/// What the records of a text say so far.
#[derive(Drop)]
struct Reading {
    /// The upper half of data addresses.
    upper: u16,
    bytes: BTreeMap<u32, u8>,
    entry: Option<u32>,
}

/// Reads a text (Intel, "Hexadecimal Object File Format Specification", Revision A, 1988): digits in
/// either case, lines that end with a newline or a carriage return and a newline, any length of data. Of
/// several entries the last one stands.
///
/// The error is the first fault by line; `Memory` comes only where no memory was left.
pub fn read_hex(alloc: Global, bytes: &[u8]) -> Result<HexImage, HexFault>
    ensures fault { ReportsUnless HexFault.Memory result (hex_fault bytes.now) }
    ensures spells { IfOk result (λ image. Spells bytes.now (image_map image) image.entry) }
    ensures maximal { IfOk result (λ image. AreMaximal (plain_runs image)) }
{
    let reading = read_lines(alloc, bytes)?;
    let runs = runs_of(alloc, &reading.bytes)?;
    Ok(HexImage {
        entry: reading.entry,
        runs,
    })
}

/// Reads all records.
#[tactic(auto, using(crate::proofs::LineLemmas::fault_at))]
fn read_lines(alloc: Global, text: &[u8]) -> Result<Reading, HexFault>
    ensures fault { ReportsUnless HexFault.Memory result (hex_fault text.now) }
    ensures contents { IfOk result (λ reading. contents_of reading ≡ hex_contents text.now) }
{
    let mut reading = Reading {
        upper: 0,
        bytes: BTreeMap::new(alloc),
        entry: None,
    };
    let mut rest = text;
    let mut line: u32 = 0;
    while let Some((now, behind)) = split_line(rest) {
        let is_end = read_line(alloc, &mut reading, now, line)?;
        rest = behind;
        line = line.saturating_add(1);
        if is_end {
            check_nothing(rest, line)?;
            return Ok(reading);
        }
    }
    Err(unended(rest, line))
}

/// The first line without its newline, and what stands behind that.
fn split_line(text: &[u8]) -> Option<(&[u8], &[u8])>
    ensures lines { IfSome result (λ parts. lines_of text.now ≡ parts.0.now ∷ lines_of parts.1.now) }
    ensures shorter { IfSome result (λ parts. length parts.1.now < length text.now) }
    ensures none { IfNone result (lines_of text.now ≡ text.now ∷ []) }
{
    let end = newline_place(text)?;
    Some((&text[..end], &text[end + 1..]))
}

fn newline_place(text: &[u8]) -> Option<usize>
    ensures { result ≡ position is_newline text.now }
{
    text.iter().position(|byte| *byte == b'\n')
}

/// Nothing stands behind the end record.
fn check_nothing(rest: &[u8], line: u32) -> Result<(), HexFault>
    ensures { Reports result (trailing_fault line (lines_of rest.now)) }
{
    if rest.is_empty() {
        Ok(())
    } else {
        Err(HexFault::Trailing { line })
    }
}

/// The fault of a text without an end record, of which no newline ends the rest.
fn unended(rest: &[u8], line: u32) -> HexFault
    ensures { unended_fault line rest.now ≡ Some result }
{
    if rest.is_empty() {
        HexFault::NoEnd { lines: line }
    } else {
        HexFault::BadRecord { line }
    }
}

/// Reads a line without its newline, and answers whether it is an end of file record.
#[tactic(auto, unfolding(crate::specs::Reading::line_fault, crate::specs::Reading::after_line, crate::specs::Reading::is_end))]
fn read_line(alloc: Global, reading: &mut Reading, text: &[u8], line: u32) -> Result<bool, HexFault>
    ensures fault { ReportsUnless HexFault.Memory result (line_fault line (contents_of reading.old) (bytes_in text.now)) }
    ensures end { IfOk result (λ ended. ended ≡ is_end (bytes_in text.now)) }
    ensures contents { OnOk result (contents_of reading.new ≡ after_line (contents_of reading.old) (bytes_in text.now)) }
{
    match bytes_of_line(alloc, text)? {
        Some(bytes) => read_record(reading, &bytes, line),
        None => Err(HexFault::BadRecord { line }),
    }
}

/// Reads a record, and answers whether it is an end of file record.
fn read_record(reading: &mut Reading, bytes: &[u8], line: u32) -> Result<bool, HexFault>
    requires { HasLength bytes.now }
    ensures fault { ReportsUnless HexFault.Memory result (check_fault line bytes.now or_else record_fault line (contents_of reading.old) (record_in bytes.now)) }
    ensures end { IfOk result (λ ended. ended ≡ ((record_in bytes.now).kind == 1)) }
    ensures contents { OnOk result (contents_of reading.new ≡ after_record (contents_of reading.old) (record_in bytes.now)) }
{
    let record = parse_record(bytes);
    check_sum(bytes, line)?;
    check_kind(&record, line)?;
    check_fields(&record, line)?;
    take_record(reading, &record, line)?;
    Ok(record.kind == kind::END_OF_FILE)
}

fn check_sum(bytes: &[u8], line: u32) -> Result<(), HexFault>
    ensures { Reports result (check_fault line bytes.now) }
{
    if sum_of(bytes) == 0 {
        Ok(())
    } else {
        Err(HexFault::BadCheck { line })
    }
}

fn check_kind(record: &Record, line: u32) -> Result<(), HexFault>
    ensures { Reports result (kind_fault line (plain_record «record».now)) }
{
    match record.kind {
        kind::DATA
        | kind::END_OF_FILE
        | kind::EXTENDED_LINEAR_ADDRESS
        | kind::START_LINEAR_ADDRESS => Ok(()),
        _ => Err(HexFault::BadKind {
            line,
            kind: u32::from(record.kind),
        }),
    }
}

fn check_fields(record: &Record, line: u32) -> Result<(), HexFault>
    ensures fault { Reports result (fields_fault line (plain_record «record».now)) }
    ensures fields { OnOk result (IsTrue (has_fields (plain_record «record».now))) }
{
    if fits_kind(record) {
        Ok(())
    } else {
        Err(HexFault::BadRecord { line })
    }
}

/// The record has a length and an address that its type allows.
fn fits_kind(record: &Record) -> bool
    ensures { result ≡ has_fields (plain_record «record».now) }
{
    let size = record.bytes.len();
    match record.kind {
        kind::DATA => usize::from(record.address) + size <= 0x1_0000,
        kind::EXTENDED_LINEAR_ADDRESS => record.address == 0 && size == 2,
        kind::START_LINEAR_ADDRESS => record.address == 0 && size == 4,
        _ => record.address == 0 && size == 0,
    }
}

/// Takes what a record says.
fn take_record(reading: &mut Reading, record: &Record, line: u32) -> Result<(), HexFault>
    requires { IsTrue (has_fields (plain_record «record».now)) }
    ensures fault { ReportsUnless HexFault.Memory result (twice_fault line (contents_of reading.old) (plain_record «record».now)) }
    ensures contents { OnOk result (contents_of reading.new ≡ after_record (contents_of reading.old) (plain_record «record».now)) }
{
    let data = record.bytes;
    match record.kind {
        kind::DATA => {
            let start = (u32::from(reading.upper) << 16) + u32::from(record.address);
            put_data(&mut reading.bytes, start, data, line)
        }
        kind::EXTENDED_LINEAR_ADDRESS => {
            reading.upper = u16::from_be_bytes([data[0], data[1]]);
            Ok(())
        }
        kind::START_LINEAR_ADDRESS => {
            reading.entry = Some(u32::from_be_bytes([data[0], data[1], data[2], data[3]]));
            Ok(())
        }
        _ => Ok(()),
    }
}

/// Puts bytes at addresses that have none yet.
fn put_data(
    map: &mut BTreeMap<u32, u8>,
    start: u32,
    bytes: &[u8],
    line: u32,
) -> Result<(), HexFault>
    requires { start + length bytes.now ≤ 4294967296 }
    ensures fault { ReportsUnless HexFault.Memory result (unless (not (any_given (given_by map.old) start (length bytes.now))) (HexFault.Twice line)) }
    ensures given { OnOk result ((address : ℕ) → given_by map.new address ≡ option_or (given_by map.old address) (byte_from start bytes.now address)) }
{
    for (offset, byte) in bytes.iter().enumerate() {
        if map.insert(start + offset as u32, *byte)?.is_some() {
            return Err(HexFault::Twice { line });
        }
    }
    Ok(())
}

/// The bytes in runs as long as can be, by address.
fn runs_of(alloc: Global, map: &BTreeMap<u32, u8>) -> Result<Vec<HexRun>, AllocError>
    ensures maximal { IfOk result (λ runs. AreMaximal (map_runs runs.items)) }
    ensures bytes { IfOk result (λ runs. (address : ℕ) → map_of (map_runs runs.items) address ≡ given_by map.now address) }
{
    let mut runs = Vec::new(alloc);
    for (address, byte) in map {
        push_byte(alloc, &mut runs, *address, *byte)?;
    }
    Ok(runs)
}

/// Adds a byte behind those of runs.
#[tactic(auto, using(crate::proofs::RunLemmas::with_byte_last))]
fn push_byte(
    alloc: Global,
    runs: &mut Vec<HexRun>,
    address: u32,
    byte: u8,
) -> Result<(), AllocError>
    ensures { OnOk result (map_runs runs.new.items ≡ with_byte (map_runs runs.old.items) address byte) }
{
    let Some(last) = runs.pop() else {
        return push_run(alloc, runs, address, byte);
    };
    if u64::from(last.at) + last.bytes.len() as u64 == u64::from(address) {
        runs.push(longer(last, byte)?)?;
        return Ok(());
    }
    runs.push(last)?;
    push_run(alloc, runs, address, byte)
}

/// A run with a byte more at its end.
fn longer(run: HexRun, byte: u8) -> Result<HexRun, AllocError>
    ensures { IfOk result (λ more. plain_run more ≡ run_at run.at (run.bytes.items ++ byte ∷ [])) }
{
    let mut bytes = run.bytes;
    bytes.push(byte)?;
    Ok(HexRun { at: run.at, bytes })
}

/// Adds a run of one byte.
fn push_run(alloc: Global, runs: &mut Vec<HexRun>, address: u32, byte: u8) -> Result<(), AllocError>
    ensures { OnOk result (map_runs runs.new.items ≡ map_runs runs.old.items ++ run_at address (byte ∷ []) ∷ []) }
{
    let mut bytes = Vec::new(alloc);
    bytes.push(byte)?;
    runs.push(HexRun { at: address, bytes })?;
    Ok(())
}
