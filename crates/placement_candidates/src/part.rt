/// What one of several runs states, with all its candidates, and the weight of the run.
#[derive(Drop)]
pub struct Part {
    /// From 1 to 1,000.
    pub weight: u32,
    pub full: Full,
}

use crate::full_sides::Full;
