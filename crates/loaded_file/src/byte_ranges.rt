/// Bytes at an address.
#[derive(Clone, Copy)]
pub struct ByteRange {
    /// The address of the first byte.
    pub home: u32,
    /// How many bytes they are.
    pub size: u32,
}
