/// What a register holds.
#[derive(Clone, Copy, Debug, PartialEq, Eq)]
pub enum Val {
    /// A plain number.
    Int(u32),
    /// The address `off` bytes behind the home of object `obj`, wherever that object stands.
    Addr { obj: u32, off: u32 },
    /// The upper part of such an address, as a LUI or an AUIPC makes it.
    Hi { obj: u32, off: u32 },
    /// A word of which it is known alone what it is modulo the grain.
    Low(u32),
    /// A word of which it is known alone that its least byte is byte `k` of the address `Addr`, or where `hi`
    /// is set of the upper part `Hi`.
    Piece { hi: bool, obj: u32, off: u32, k: u8 },
    /// Any word.
    Unknown,
}

/// What a byte of memory holds.
#[derive(Clone, Copy, Debug, PartialEq, Eq)]
pub enum Cell {
    /// A plain byte.
    Byte(u8),
    /// Byte `k` of the address `Addr`, or where `hi` is set of the upper part `Hi`.
    Part { hi: bool, obj: u32, off: u32, k: u8 },
    /// Any byte.
    Mist,
}
