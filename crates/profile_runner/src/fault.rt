use std::alloc::AllocError;
use thiserror::Error;

/// Why a run has no profile.
#[derive(Clone, Copy, Debug, PartialEq, Eq, Error)]
pub enum ProfileFault {
    /// The unit at `pc` can't be performed where objects have no addresses, for the reason `why`, as in
    /// [`object_machine::Outcome`].
    #[error("address fault at {pc:#010x}, reason {why}")]
    AddressFault { pc: u32, why: u32 },
    /// No memory was left.
    #[error("out of memory")]
    Memory,
}

impl From<AllocError> for ProfileFault {
    ghost use Rattle.std.specs.Prelude.{◌≡◌};
    ghost use Rattle.profile_runner.specs.declared.fault.ProfileFault.TheVariants.{Memory};

    ghost from_gives = { λ _ fault. fault ≡ Memory };

    fn from(_error: AllocError) -> ProfileFault {
        ProfileFault::Memory
    }
}
