ghost use Rattle.std.specs.Prelude.{◌≡◌};
ghost use Rattle.hex_image.specs.declared.fault.HexFault.TheVariants.{Memory};

use std::alloc::{AllocError, AllocFailed};
use thiserror::Error;

/// The first fault of a text, by line, in the order in which `read_hex` looks for them in a line: shape,
/// check byte, type, length and address, an address given before.
///
/// Lines count from 0; a number past 2 ^ 32 - 1 is given as 2 ^ 32 - 1.
#[derive(Clone, Copy, Debug, PartialEq, Eq, Error)]
pub enum HexFault {
    /// The line is not a colon, the digits of as many bytes as the first byte asks for, and a newline
    /// with or without a carriage return before it; or the record has a length or an address that its
    /// type doesn't allow.
    #[error("line {line} is no record")]
    BadRecord { line: u32 },
    /// The bytes of the record, with its check byte, don't make 0 modulo 256.
    #[error("line {line} has a wrong check byte")]
    BadCheck { line: u32 },
    /// The record's type, `kind`, is none of 00, 01, 04 and 05.
    #[error("line {line} has the unknown type {kind}")]
    BadKind { line: u32, kind: u32 },
    /// An earlier data record gave one of the addresses of this one.
    #[error("line {line} gives an address a second time")]
    Twice { line: u32 },
    /// None of the `lines` lines is an end of file record.
    #[error("none of {lines} lines ends the file")]
    NoEnd { lines: u32 },
    /// Something stands behind the end of file record, in the line behind it.
    #[error("line {line} stands behind the end")]
    Trailing { line: u32 },
    /// No memory was left.
    #[error("out of memory")]
    Memory,
}

impl From<AllocError> for HexFault {
    ghost from_gives = { λ _ fault. fault ≡ Memory };

    fn from(_error: AllocError) -> HexFault {
        HexFault::Memory
    }
}

impl<T: Drop> From<AllocFailed<T>> for HexFault {
    ghost from_gives = { λ _ fault. fault ≡ Memory };

    fn from(_error: AllocFailed<T>) -> HexFault {
        HexFault::Memory
    }
}
