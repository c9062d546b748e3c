use std::alloc::AllocError;
use thiserror::Error;

/// A range of addresses.
#[derive(Clone, Copy)]
pub struct Range {
    /// The first address.
    pub base: u32,
    /// How many bytes it has.
    pub size: u32,
}

/// What each access costs, in units of energy.
#[derive(Clone, Copy)]
pub struct Prices {
    /// A fetch from the main memory.
    pub main_fetch: u32,
    /// A load from the main memory.
    pub main_read: u32,
    /// A store to the main memory.
    pub main_write: u32,
    /// A fetch from the scratchpad.
    pub spm_fetch: u32,
    /// A load from the scratchpad.
    pub spm_read: u32,
    /// A store to the scratchpad.
    pub spm_write: u32,
}

/// What a board file says: the memory of a board and its prices, what of a program may move, the regions,
/// and bounds on the work.
#[derive(Drop)]
pub struct Board {
    /// The main memory.
    pub main: Range,
    /// The scratchpad. Its base and its size are multiples of `grain`.
    pub spm: Range,
    /// The range that what is added to a program is put in.
    pub patch: Range,
    /// Further mapped memory.
    pub areas: Vec<Range>,
    /// What the accesses cost.
    pub prices: Prices,
    /// The names of the objects that stay where they are.
    pub fix: Vec<String>,
    /// Whether objects in sections without bytes in the file (`SHT_NOBITS`) may move.
    pub bss_movable: bool,
    /// What moves keeps its address modulo so many bytes: 16, 32 or 64.
    pub grain: u32,
    /// Whether FENCE.I is to follow each copy of code.
    pub fence_i: bool,
    /// The name of the function that calls the regions.
    pub driver: String,
    /// The names of the functions of each region.
    pub regions: Vec<Vec<String>>,
    /// At most so many steps of a program are run.
    pub steps: u64,
    /// At most so many nodes of a search are entered.
    pub nodes: u64,
    /// Whether regions 1 and 2, 3 and 4, and so on are twins, which may keep an object that both use in one
    /// place.
    pub twins: bool,
}

/// Why a text is no board. Keys have the numbers by which they are checked, 1 to 20.
#[derive(Debug, Drop, Error)]
pub enum BoardFault {
    /// The text is not TOML.
    #[error("the board is not a TOML text")]
    NotToml,
    /// The table of prices lacks this key.
    #[error("key {key} is missing")]
    Missing { key: u32 },
    /// The value of this key has another type.
    #[error("key {key} has a value of the wrong type")]
    WrongType { key: u32 },
    /// The value of this key is out of its range.
    #[error("key {key} has a value out of range")]
    OutOfRange { key: u32 },
    /// No key has this name.
    #[error("unknown key `{name}`")]
    UnknownKey { name: String },
    /// No memory was left.
    #[error("out of memory")]
    Memory,
}

impl From<AllocError> for BoardFault {
    ghost use Rattle.std.specs.Prelude.{◌≡◌};
    ghost use Rattle.board_config.specs.declared.board.BoardFault.TheVariants.{Memory};

    ghost from_gives = { λ _ fault. fault ≡ Memory };

    fn from(_error: AllocError) -> BoardFault {
        BoardFault::Memory
    }
}
