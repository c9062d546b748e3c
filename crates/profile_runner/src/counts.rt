use object_machine::Outcome;

/// Control went from one block to another.
#[derive(Clone, Copy, PartialEq, Eq)]
pub struct Edge {
    /// The number of the block that it left.
    pub from: u32,
    /// The number of the block that it reached.
    pub to: u32,
    /// How often.
    pub count: u64,
}

/// What happened in a run, counted. Blocks and objects have the numbers of the code and of the graph; region 0
/// is none.
#[derive(Drop)]
pub struct Profile {
    /// How many steps the machine took.
    pub steps: u64,
    /// How it stood behind the last.
    pub outcome: Outcome,
    /// How often each block began.
    pub arrivals: Vec<u64>,
    /// The edges that were taken, by `from` and then by `to`. An edge counts with the unit that takes it, also
    /// where the run ends before the next block begins.
    pub edges: Vec<Edge>,
    /// The last block that began, and how many of its units ran since.
    pub last: (u32, u32),
    /// How often each object was read while each region was current: a row for each object, a column for each
    /// region.
    pub reads: Vec<Vec<u64>>,
    /// The same of writes.
    pub writes: Vec<Vec<u64>>,
    /// How often each region became current.
    pub enters: Vec<u64>,
    /// How often each region ceased to be current.
    pub leaves: Vec<u64>,
    /// How often one region gave way to another: a row for the one, a column for the other.
    pub switches: Vec<Vec<u64>>,
}
