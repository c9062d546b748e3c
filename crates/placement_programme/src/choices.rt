ghost use Rattle.std.specs.Prelude.{◌≡◌};

use std::alloc::Global;

/// What is taken of a programme.
#[derive(Drop)]
pub struct Choice {
    /// Whether it is a choice of the side with overlay.
    pub on: bool,
    /// The numbers of the variables that are taken, ascending.
    pub take: Vec<u32>,
}

impl Choice {
    ghost use Rattle.placement_programme.specs.{Views.{plain_choice}, Programme.{nothing}};

    /// The empty choice.
    pub fn nothing(alloc: Global) -> Choice
        ensures { plain_choice result ≡ nothing }
    {
        Choice {
            on: false,
            take: Vec::new(alloc),
        }
    }
}
