use std::alloc::AllocError;
use thiserror::Error;

/// Why a board gives a program no regions.
#[derive(Debug, Drop, Error)]
pub enum RegionFault {
    /// A listed name stands for no function.
    #[error("no function has the name `{name}`")]
    UnknownFunction { name: String },
    /// A listed name stands for a function that was listed before.
    #[error("function `{name}` is listed twice")]
    TwoRegions { name: String },
    /// No memory was left.
    #[error("out of memory")]
    Memory,
}

impl From<AllocError> for RegionFault {
    ghost use Rattle.std.specs.Prelude.{◌≡◌};
    ghost use Rattle.region_former.specs.declared.fault.RegionFault.TheVariants.{Memory};

    ghost from_gives = { λ _ fault. fault ≡ Memory };

    fn from(_error: AllocError) -> RegionFault {
        RegionFault::Memory
    }
}
