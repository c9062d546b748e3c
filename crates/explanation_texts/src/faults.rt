/// How a value was made of an object's address.
#[derive(Clone, Copy, PartialEq, Eq)]
pub enum Way {
    /// It is the upper part, as a LUI or an AUIPC makes it.
    Upper,
    /// It is an address in the object.
    Address,
    /// It is a copy of the upper part, or an address that was made of one.
    CopiedUpper,
    /// It came of the address by other arithmetic.
    Computed,
    /// It is the answer to whether the address is null, which the program keeps as a value.
    Tested,
}

/// The object of whose address a value was made.
#[derive(Clone, Copy)]
pub struct Origin {
    /// The number of the object among those of the graph.
    pub object: u32,
    /// How the value was made.
    pub way: Way,
    /// The address of the AUIPC that made it, where it is the upper part and no LUI did.
    pub auipc: Option<u32>,
    /// The address of the unit that first did other arithmetic, where one did.
    pub made: Option<u32>,
}

/// An address fault of a run.
#[derive(Clone, Copy)]
pub struct AddressFault {
    /// The address of the unit that met it.
    pub pc: u32,
    /// The reason: its number among those of address faults.
    pub why: u32,
    /// The value that the unit may not use.
    pub culprit: Culprit,
}

/// A value that a unit may not use. Nothing may be known of it.
#[derive(Clone, Copy)]
pub struct Culprit {
    /// Of which object's address it was made.
    pub origin: Option<Origin>,
    /// Of which object's address the other operand of a comparison was made.
    pub other: Option<Origin>,
    /// The number with which the unit compares it.
    pub compared: Option<u32>,
    /// The address that the unit has, as the file has its objects.
    pub address: Option<u32>,
}

/// A unit by which a run is not paired.
#[derive(Clone, Copy)]
pub struct Unpaired {
    /// The address of the unit.
    pub pc: u32,
    /// The object of whose address it adds the low part; `None` where it takes the upper part for a number.
    pub object: Option<u32>,
    /// The object of whose address the upper part is.
    pub other: u32,
    /// The address of the AUIPC that made the upper part; `None` where a LUI did.
    pub upper: Option<u32>,
}
