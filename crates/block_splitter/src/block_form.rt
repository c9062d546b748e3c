/// Where a block goes on by itself.
#[derive(Clone, Copy)]
pub(crate) struct Exit {
    pub at: u32,
    /// How many words it takes more where the block there is not of the same copy.
    pub words: u32,
    /// Whether a jump there has a register to write.
    pub has_dead: bool,
}

/// What the pieces that hold a block depend on.
#[derive(Clone, Copy)]
pub(crate) struct BlockForm {
    /// How many words its copy has where all that it leads to is of the same copy.
    pub words: u32,
    /// Where its branch or jump goes.
    pub target: Option<Exit>,
    /// Where it falls.
    pub next: Option<Exit>,
    /// Whether a jump to it has a register to write.
    pub has_dead: bool,
}

/// The least and the greatest of the numbers of a block and of the blocks from which direct edges lead to it.
#[derive(Clone, Copy)]
pub(crate) struct Sources {
    pub least: u32,
    pub greatest: u32,
}
