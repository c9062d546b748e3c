/// A word to be put into a file.
#[derive(Clone, Copy)]
pub struct Patch {
    /// Where it begins in the file, in bytes.
    pub offset: u32,
    /// The word, which is put least byte first.
    pub word: u32,
}

/// A segment to be added to a file.
#[derive(Drop)]
pub struct SegmentBytes {
    /// Its first address.
    pub base: u32,
    /// The address at which execution begins in the file with the segment.
    pub entry: u32,
    /// Its bytes, all of its memory.
    pub bytes: Vec<u8>,
}

/// A symbol to be moved.
#[derive(Clone, Copy)]
pub struct SymbolMove {
    /// The number of the symbol in the symbol table.
    pub symbol: u32,
    /// Its new address.
    pub value: u32,
}
