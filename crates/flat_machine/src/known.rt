use crate::op::Op;

/// A decoded instruction, in its slot of a table.
#[derive(Clone, Copy)]
pub struct Known {
    /// The address of its word. It is no 32-bit address where nothing is kept, so that one test tells
    /// whether the slot has the instruction of an address.
    pub at: u64,
    pub op: Op,
}
