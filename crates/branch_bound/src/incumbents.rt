use certificate_checker::Fixing;

/// The best choice that was found: of which side, what it gains, and a mark a variable of that side, one where it is taken.
#[derive(Drop)]
pub(crate) struct Incumbent {
    pub on: bool,
    /// In the units of the board's prices, the fixed cost taken off.
    pub gain: u128,
    pub marks: Vec<Fixing>,
}
