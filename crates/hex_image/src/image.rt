/// Bytes at addresses that follow one another.
#[derive(Drop)]
pub struct HexRun {
    /// The address of the first byte.
    pub at: u32,
    /// The bytes.
    pub bytes: Vec<u8>,
}

/// What a text spells.
#[derive(Drop)]
pub struct HexImage {
    /// The address at which execution begins, where a type 05 record gives one.
    pub entry: Option<u32>,
    /// The bytes by address, in runs as long as can be.
    pub runs: Vec<HexRun>,
}
