/// What a load or a store does with memory.
#[derive(Clone, Copy, Debug, PartialEq, Eq)]
pub enum AccessKind {
    /// It reads.
    Load,
    /// It writes.
    Store,
}

/// What a unit asks of memory.
#[derive(Clone, Copy, Debug, PartialEq, Eq)]
pub struct Footprint {
    /// How many words are fetched: 2 for a call of an AUIPC and a JALR, else 1.
    pub words: u32,
    /// What the access is, if the unit is a load or a store.
    pub access: Option<AccessKind>,
}
