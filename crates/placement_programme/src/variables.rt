/// What a variable stands for.
///
/// Objects are numbered by home, blocks by address, regions from 1.
#[derive(Clone, Copy, PartialEq, Eq)]
pub enum VarName {
    /// An object that stands in the scratchpad throughout.
    StaticData { object: u32 },
    /// A piece of code, from its first to its last block, that does.
    StaticCode { first: u32, last: u32 },
    /// An object that stands in the scratchpad while a region is current.
    OverlayData { region: u32, object: u32 },
    /// A piece of code that does.
    OverlayCode { region: u32, first: u32, last: u32 },
    /// An object that stands in one place of the scratchpad while either region of a pair of twins is current: pair k
    /// is of the regions 2k - 1 and 2k.
    KeptData { pair: u32, object: u32 },
}

/// A variable: an item that may be taken.
#[derive(Drop)]
pub struct Var {
    pub name: VarName,
    /// The energy that it saves, in the units of the board's prices.
    pub gain: u128,
    /// The rows in which it weighs something, ascending, and its weight in each.
    pub weights: Vec<(u32, u64)>,
}
