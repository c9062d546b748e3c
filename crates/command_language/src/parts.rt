ghost use Rattle.std.specs.Prelude.{◌≡◌};
ghost use Rattle.command_language.specs.declared.parts.MixFault.TheVariants.{Memory};

use std::alloc::{AllocError, AllocFailed};
use thiserror::Error;

/// An input of a mix: how much its run counts, from 1 to 1,000, and its name.
#[derive(Clone, Copy)]
pub struct MixInput<'a> {
    pub weight: u32,
    pub name: &'a str,
}

/// Why a text lists no inputs.
#[derive(Clone, Copy, Debug, PartialEq, Eq, Error)]
pub enum MixFault {
    /// The line that begins at this byte is the first to break a rule; an empty text breaks one at 0.
    #[error("the line at byte {at} lists no input")]
    BadMix { at: u64 },
    /// No memory was left.
    #[error("out of memory")]
    Memory,
}

impl From<AllocError> for MixFault {
    ghost from_gives = { λ _ fault. fault ≡ Memory };

    fn from(_error: AllocError) -> MixFault {
        MixFault::Memory
    }
}

impl<T: Drop> From<AllocFailed<T>> for MixFault {
    ghost from_gives = { λ _ fault. fault ≡ Memory };

    fn from(_error: AllocFailed<T>) -> MixFault {
        MixFault::Memory
    }
}
