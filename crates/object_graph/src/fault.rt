use std::alloc::AllocError;
use thiserror::Error;

/// Why a program doesn't fit a board, the first in this order.
#[derive(Clone, Copy, Debug, Error)]
pub enum GraphFault {
    /// The segment of program header `segment` meets the scratchpad.
    #[error("segment {segment} meets the scratchpad")]
    SpmOverlap { segment: u32 },
    /// The segment of program header `segment` meets the patch range.
    #[error("segment {segment} meets the patch range")]
    PatchOverlap { segment: u32 },
    /// The code and the patch range together span `span` bytes, more than a jump reaches.
    #[error("the code and the patch range span {span} bytes")]
    PatchFar { span: u32 },
    /// The scratchpad and the patch range share an address.
    #[error("the scratchpad meets the patch range")]
    SpmOverlapsPatch,
    /// The scratchpad begins below address 16.
    #[error("the scratchpad begins at address 0")]
    SpmAtZero,
    /// The segment of program header `segment` lies neither in main nor in one area.
    #[error("segment {segment} lies in no area")]
    NoArea { segment: u32 },
    /// More than 4,096 objects may move.
    #[error("{count} objects may move")]
    TooManyObjects { count: u32 },
    /// No memory was left.
    #[error("out of memory")]
    Memory,
}

impl From<AllocError> for GraphFault {
    ghost use Rattle.std.specs.Prelude.{◌≡◌};
    ghost use Rattle.object_graph.specs.declared.fault.GraphFault.TheVariants.{Memory};

    ghost from_gives = { λ _ fault. fault ≡ Memory };

    fn from(_error: AllocError) -> GraphFault {
        GraphFault::Memory
    }
}
