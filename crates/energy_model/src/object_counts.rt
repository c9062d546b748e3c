/// What happened to an object while it was in the scratchpad.
#[derive(Clone, Copy)]
pub struct ObjectCounts {
    /// How often it was read and written there.
    pub reads: u64,
    pub writes: u64,
    /// How often it is copied into the scratchpad, and back from there where it is writable.
    pub enters: u64,
    pub leaves: u64,
}
