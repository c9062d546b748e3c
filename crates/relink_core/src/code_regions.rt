/// The regions of code. Without overlay there is none, and both lists are empty.
#[derive(Drop)]
pub struct CodeRegions<'a> {
    /// How many there are.
    pub count: u32,
    /// That of each block; 0 is none.
    pub of_block: &'a [u32],
    /// Whether control enters its region there.
    pub border: &'a [bool],
}

impl CodeRegions<'_> {
    ghost use Rattle.std.specs.Prelude.{◌≡◌};
    ghost use Rattle.dataflow.specs.Overlaid.{region_in, is_border};
    ghost use Rattle.relink_core.specs.StubBlocks.{region_tested, test_size};

    /// Whether control enters a region at a block.
    pub(crate) fn is_border(&self, block: usize) -> bool
        ensures { result ≡ is_border self.now.border.now block }
    {
        match self.border.get(block) {
            Some(border) => *border,
            None => false,
        }
    }

    /// The region for which the stub of a block tests: the one that control enters there, if it enters one.
    pub(crate) fn region_tested(&self, block: usize) -> u32
        ensures { result ≡ region_tested self.now block }
    {
        if self.is_border(block) {
            self.region_at(block)
        } else {
            0
        }
    }

    /// The region of a block.
    pub fn region_at(&self, block: usize) -> u32
        ensures { result ≡ region_in self.now.of_block.now block }
    {
        match self.of_block.get(block) {
            Some(region) => *region,
            None => 0,
        }
    }

    /// How many bytes that test takes.
    pub(crate) fn test_size(&self, block: usize) -> u32
        ensures { result ≡ test_size self.now block }
    {
        if self.is_border(block) { 88 } else { 0 }
    }
}
