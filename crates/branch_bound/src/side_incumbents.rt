ghost use Rattle.std.specs.Prelude.{◌^◌, ◌≤◌};

use placement_programme::Choice;

/// The best choice so far, and what may still be searched.
#[derive(Drop)]
pub struct Incumbent {
    pub choice: Choice,
    /// In the units of the board's prices, the fixed cost taken off.
    pub gain: u128,
    /// How many nodes may still be visited.
    pub(crate) left: u64,
    pub ghost small: { gain ≤ 2 ^ 104 },
}
