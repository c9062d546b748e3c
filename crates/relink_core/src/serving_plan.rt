use crate::code_regions::CodeRegions;
use crate::copy_source::CopySource;
use crate::placed_copy::PlacedCopy;

/// What stubs are made for.
#[derive(Drop)]
pub(crate) struct ServingPlan<'a> {
    pub(crate) source: &'a CopySource<'a>,
    pub(crate) regions: &'a CodeRegions<'a>,
    pub(crate) copies: &'a [PlacedCopy],
    /// The number of the copy that has each block; that of all copies where none has it.
    pub(crate) numbers: Vec<usize>,
}
