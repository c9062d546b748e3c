use crate::placed_copy::PlacedCopy;
use object_graph::Graph;
use placement_programme::VarName;
use relocator::Places;

/// What a choice takes: the names of its variables, in order; the places of the graph's objects, in regions 0 to `regions`,
/// and of code; and the copies of code, in the order of their names.
#[derive(Drop)]
pub struct PlannedItems<'a> {
    pub graph: &'a Graph,
    pub places: &'a Places,
    pub names: &'a [VarName],
    pub copies: &'a [PlacedCopy],
    pub regions: u32,
}

/// When names are copied: at the start what stands in the scratchpad throughout; where a region is entered or left what is
/// overlaid in it, and what is kept for its pair.
#[derive(Clone, Copy)]
pub(crate) enum Phase {
    Start,
    Overlaid { region: u32 },
    Kept { region: u32 },
}
