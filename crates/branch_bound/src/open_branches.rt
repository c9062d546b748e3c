/// A branch that is open: one of its children is searched. It tells which variable the branch fixes, by its number or by its
/// place in an order.
#[derive(Drop)]
pub(crate) enum OpenBranch {
    /// The child that fixes it to one, which comes first.
    ToOne(usize),
    /// The child that fixes it to zero; the tree of the other one is closed.
    ToZero(usize),
}
