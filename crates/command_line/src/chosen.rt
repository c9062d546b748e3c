use placement_programme::{Choice, Programme};
use profile_runner::Profile;

/// A choice that a command made or checked, and what it is of. It is for those who explain the command: no clause speaks of it.
#[derive(Drop)]
pub struct ChosenPlacement {
    /// What the runs of the program state.
    pub programme: Programme,
    pub choice: Choice,
    /// What the run did, counted; `None` for a mix, which has several runs.
    pub profile: Option<Profile>,
}
