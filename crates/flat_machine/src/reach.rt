/// The addresses from `first` to `last`, from each of which four bytes are mapped. There are none where
/// `last` is below `first`.
#[derive(Clone, Copy)]
pub struct Reach {
    pub first: u32,
    pub last: u32,
}
