ghost use Rattle.std.specs.Prelude.{◌≡◌, ℕ, ◌+◌, ◌%◌, ◌<◌, ◌++◌, ◌∷◌, [], length, sum, slice_index, IfOk, IfSome, OnOk, option_map};
ghost use Rattle.hex_image.specs.Records.{plain_record, record_bytes, line_of, HasLength, IsWhole, whole, digits_behind, bytes_in, record_in};
ghost use Rattle.std.specs.Str.Lines.{strip_carriage_return};

use hex::{FromHexError, ToHex};
use std::alloc::{AllocError, Global};

/// The types of records (Intel, "Hexadecimal Object File Format Specification", Revision A, 1988).
pub(crate) mod kind {
    pub const DATA: u8 = 0;

    pub const END_OF_FILE: u8 = 1;

    pub const EXTENDED_LINEAR_ADDRESS: u8 = 4;

    pub const START_LINEAR_ADDRESS: u8 = 5;
}

/// The bytes of a record beside its data: length, two of the address, type, check byte.
const FRAME_SIZE: usize = 5;

/// What a record says.
#[derive(Clone, Copy)]
pub(crate) struct Record<'a> {
    /// Its type, one of `kind` where it is valid.
    pub kind: u8,
    /// The address that it loads at.
    pub address: u16,
    /// Its data bytes.
    pub bytes: &'a [u8],
}

/// What the record of these bytes says.
#[tactic(auto, unfolding(crate::specs::Records::record_in))]
pub(crate) fn parse_record(bytes: &[u8]) -> Record<'_>
    requires { HasLength bytes.now }
    ensures { plain_record result ≡ record_in bytes.now }
{
    Record {
        kind: bytes[3],
        address: u16::from_be_bytes([bytes[1], bytes[2]]),
        bytes: &bytes[4..bytes.len() - 1],
    }
}

/// The bytes of the record in a line without its newline, or `None` where it isn't a colon and the
/// digits of a record's bytes.
#[tactic(auto, unfolding(crate::specs::Records::bytes_in))]
pub(crate) fn bytes_of_line(alloc: Global, line: &[u8]) -> Result<Option<Vec<u8>>, AllocError>
    ensures bytes { IfOk result (λ found. option_map (λ bytes. bytes.items) found ≡ bytes_in line.now) }
    ensures size { IfOk result (λ found. IfSome found IsWhole) }
{
    let Some(digits) = behind_colon(without_return(line)) else {
        return Ok(None);
    };
    match hex::decode(alloc, digits) {
        Ok(bytes) => Ok(if_whole(bytes)),
        Err(FromHexError::OutOfMemory) => Err(AllocError),
        Err(_) => Ok(None),
    }
}

/// A line without the carriage return that may end it.
fn without_return(line: &[u8]) -> &[u8]
    ensures { result.now ≡ strip_carriage_return line.now }
{
    match line {
        [body @ .., b'\r'] => body,
        _ => line,
    }
}

/// What stands behind the colon that a line begins with.
fn behind_colon(line: &[u8]) -> Option<&[u8]>
    ensures { option_map (λ digits. digits.now) result ≡ digits_behind line.now }
{
    match line {
        [b':', digits @ ..] => Some(digits),
        _ => None,
    }
}

/// The bytes, where there are as many as the first of them asks for.
fn if_whole(bytes: Vec<u8>) -> Option<Vec<u8>>
    ensures bytes { option_map (λ bytes. bytes.items) result ≡ whole bytes.items }
    ensures size { IfSome result IsWhole }
{
    match bytes.first() {
        Some(length) if bytes.len() == usize::from(*length) + FRAME_SIZE => Some(bytes),
        _ => None,
    }
}

/// The sum of bytes, modulo 256.
pub(crate) fn sum_of(bytes: &[u8]) -> u8
    ensures { result ≡ sum bytes.now % 256 }
{
    let mut sum: u8 = 0;
    for byte in bytes {
        sum = sum.wrapping_add(*byte);
    }
    sum
}

/// Adds the line of a record to a text.
#[tactic(auto, unfolding(crate::specs::Records::line_of))]
pub(crate) fn push_line(
    alloc: Global,
    text: &mut Vec<u8>,
    record: &Record,
) -> Result<(), AllocError>
    requires { length «record».now.bytes.now < 256 }
    ensures { OnOk result (text.new.items ≡ text.old.items ++ line_of (plain_record «record».now)) }
{
    let bytes = checked_bytes(alloc, record)?;
    let digits = bytes.encode_hex_upper(alloc)?;
    text.push(b':')?;
    text.extend_from_slice(digits.as_bytes())?;
    text.push(b'\n')?;
    Ok(())
}

/// The bytes of a record, with its check byte.
fn checked_bytes(alloc: Global, record: &Record) -> Result<Vec<u8>, AllocError>
    requires { length «record».now.bytes.now < 256 }
    ensures { IfOk result (λ bytes. bytes.items ≡ record_bytes (plain_record «record».now)) }
{
    let [high, low] = record.address.to_be_bytes();
    let mut bytes = Vec::new(alloc);
    bytes.push(record.bytes.len() as u8)?;
    bytes.push(high)?;
    bytes.push(low)?;
    bytes.push(record.kind)?;
    bytes.extend_from_slice(record.bytes)?;
    let check = sum_of(&bytes).wrapping_neg();
    bytes.push(check)?;
    Ok(bytes)
}
