use thiserror::Error;

/// Why the code of a program can't be split into blocks, the first in this order.
#[derive(Clone, Copy, Debug, Error)]
pub enum CodeFault {
    /// No code range has a word.
    #[error("no word of code")]
    NoText,
    /// The entry isn't a word of code.
    #[error("the entry is no word of code")]
    EntryNotLeader,
    /// More than 65,536 blocks begin.
    #[error("{count} blocks")]
    TooManyBlocks { count: u32 },
    /// No memory was left.
    #[error("out of memory")]
    Memory,
}
