/// Numbers of a program's symbols and relocations, each list in ascending order.
#[derive(Drop)]
pub(crate) struct RelocationLists {
    /// The first addresses of objects.
    pub(crate) range_starts: Vec<u64>,
    /// The addresses behind objects.
    pub(crate) range_ends: Vec<u64>,
    /// The first addresses that relocations change.
    pub(crate) starts: Vec<u64>,
    /// The addresses behind those that relocations change.
    pub(crate) ends: Vec<u64>,
    /// The addresses of calls.
    pub(crate) calls: Vec<u64>,
    /// The low parts of pairs, each with the address of the AUIPC that it names.
    pub(crate) low_keys: Vec<u64>,
}

/// Which of these lists a number is of.
#[derive(Clone, Copy)]
pub(crate) enum Listed {
    RangeStart,
    RangeEnd,
    ChangeStart,
    ChangeEnd,
    Call,
    LowKey,
}
