//! Calls of the environment: the registers that they go by, their numbers, and the answer to any other.

/// The registers of the arguments of a call of the environment. The first has its answer.
pub const A0: u8 = 10;

/// The second argument.
pub const A1: u8 = 11;

/// The third argument.
pub const A2: u8 = 12;

/// The register of the number of a call.
pub const A7: u8 = 17;

/// Takes bytes of the input.
pub const CALL_READ: u32 = 63;

/// Appends bytes to the output.
pub const CALL_WRITE: u32 = 64;

/// Ends the machine.
pub const CALL_EXIT: u32 = 93;

/// The answer to any other call: -38, "not implemented".
pub const NO_CALL: u32 = 0xffff_ffda;
