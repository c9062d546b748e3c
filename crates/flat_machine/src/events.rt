/// What has become of a machine.
#[derive(Clone, Copy, Debug, PartialEq, Eq)]
pub enum FlatOutcome {
    /// It goes on.
    GoesOn,
    /// The program exited with a code.
    Exited(u8),
    /// The instruction at `pc` trapped.
    Trapped { pc: u32 },
}

/// What one step did.
#[derive(Clone, Copy, Debug, PartialEq, Eq)]
pub struct FlatEvent {
    /// The pc before the step.
    pub at: u32,
    /// What has become of the machine after the step.
    pub outcome: FlatOutcome,
    /// The word that was fetched, 0 where none was.
    pub word: u32,
    /// The access of a load or a store that did not trap.
    pub access: Option<FlatAccess>,
}

/// A load or a store.
#[derive(Clone, Copy, Debug, PartialEq, Eq)]
pub struct FlatAccess {
    /// The least address of its bytes.
    pub at: u32,
    /// Whether it is a store.
    pub write: bool,
}
