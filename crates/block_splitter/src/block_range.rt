/// The blocks `first` to `last` of a program, by their numbers.
#[derive(Clone, Copy, PartialEq, Eq, PartialOrd, Ord)]
pub struct BlockRange {
    pub first: u32,
    pub last: u32,
}
