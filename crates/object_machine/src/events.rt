/// How far a run is.
#[derive(Clone, Copy, Debug, PartialEq, Eq)]
pub enum Outcome {
    /// It goes on.
    GoesOn,
    /// The program has exited with this code.
    Exited(u8),
    /// The word at `pc` is EBREAK or means no instruction.
    Trapped { pc: u32 },
    /// The unit at `pc` can't be performed where objects have no addresses, for the reason `why`: 1 an access
    /// outside its object; 2 one that is misaligned; 3 one to code, to bytes that a new file changes, or to
    /// unmapped memory; 4 one to an object by a plain number; 5 one by what is neither a number nor an address;
    /// 6 a jump, branch or fall to what isn't a leader, or by a register to what isn't an indirect leader; 7 a
    /// branch on what isn't known; 8 a call whose number, code, count or written bytes are no plain numbers; 9 a
    /// store into an object that isn't writable.
    AddressFault { pc: u32, why: u32 },
}

/// A load or a store on an object that may move.
#[derive(Clone, Copy, Debug, PartialEq, Eq)]
pub struct Access {
    /// The number of the object.
    pub object: u32,
    /// How many bytes behind the object's home the access begins.
    pub offset: u32,
    /// Whether it is a store.
    pub write: bool,
}

/// What one step did.
#[derive(Clone, Copy, Debug, PartialEq, Eq)]
pub struct Event {
    /// The address of the unit.
    pub at: u32,
    /// The outcome after the step.
    pub outcome: Outcome,
    /// The access of a load or a store on an object, where the step met no fault.
    pub access: Option<Access>,
}
