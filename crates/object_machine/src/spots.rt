/// Where an access goes, or why it can't.
#[derive(Clone, Copy)]
pub(crate) enum Spot {
    /// Fixed memory from this address on.
    Fixed(u32),
    /// An object, from this many bytes behind its home on.
    Object { object: u32, offset: u32 },
    /// Nowhere, for this reason of an address fault.
    Nowhere(u32),
}
