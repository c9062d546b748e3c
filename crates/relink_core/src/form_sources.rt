use crate::copy_source::CopySource;
use crate::placed_copy::PlacedCopy;
use patch_code::Stub;

/// Where the units of a code stand: the homes of stubs, where pads are; copies, and the regions in which these stand; and
/// stubs, and where these stand.
#[derive(Drop)]
pub(crate) struct FormSources<'a> {
    pub(crate) source: &'a CopySource<'a>,
    pub(crate) homes: &'a [u64],
    pub(crate) copies: &'a [PlacedCopy],
    pub(crate) regions: &'a [u32],
    pub(crate) stubs: &'a [Stub],
    pub(crate) stub_at: &'a [u32],
}
