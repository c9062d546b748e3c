//! What is told of a step.

/// An access of an object.
#[derive(Clone, Copy)]
pub struct TracedAccess {
    /// The number of the object.
    pub object: u32,
    /// How many bytes behind the object's home the access begins.
    pub offset: u32,
    /// Whether it is a store.
    pub write: bool,
    /// The least address of its bytes in the result.
    pub at: u32,
}

/// A step of a program beside its result.
#[derive(Clone, Copy)]
pub struct TracedStep {
    /// The address of its unit in the program.
    pub home: u32,
    /// The region that is current.
    pub region: u32,
    /// Where the unit's form stands in the result.
    pub at: u32,
    /// How many steps of the result lead from there to the next unit, or to the end.
    pub steps: u64,
    /// The access of an object, if the step has one.
    pub access: Option<TracedAccess>,
}
