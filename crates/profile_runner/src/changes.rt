use crate::rows::{bump, bump_in};

/// How often the current region changed.
#[derive(Drop)]
pub(crate) struct Changes {
    /// From one to another: a row for the one, a column for the other.
    pub(crate) switches: Vec<Vec<u64>>,
    /// From each, and to each.
    pub(crate) leaves: Vec<u64>,
    pub(crate) enters: Vec<u64>,
}

impl Changes {
    ghost use Rattle.profile_runner.specs.Tally.{HasRoomToChange, HasChanged};

    /// Counts that one region gives way to another, or to itself, which is no change.
    pub(crate) fn count(&mut self, before: u32, after: u32)
        requires { HasRoomToChange self.old before after }
        ensures { HasChanged self.old self.new before after }
    {
        if before == after {
            return;
        }
        bump_in(&mut self.switches, before as usize, after as usize);
        bump(&mut self.leaves, before as usize);
        bump(&mut self.enters, after as usize);
    }
}
