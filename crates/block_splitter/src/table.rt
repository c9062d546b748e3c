ghost use Rattle.std.specs.Prelude.{◌≡◌, length};

use crate::block_form::{BlockForm, Sources};

/// What of each block the pieces that hold it depend on.
#[derive(Drop)]
pub(crate) struct Table {
    /// Of the blocks that a piece may hold.
    pub forms: Vec<Option<BlockForm>>,
    pub sources: Vec<Sources>,
    /// Whether a jump to an address in a register may reach it.
    pub indirect: Vec<bool>,
    ghost sources_each: { length sources.items ≡ length forms.items },
    ghost indirect_each: { length indirect.items ≡ length forms.items },
}
