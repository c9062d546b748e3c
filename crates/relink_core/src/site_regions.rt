//! The regions of sites: each is that of the block whose unit stands there.
ghost use Rattle.std.specs.Prelude.{◌≡◌, ◌<◌, ◌==◌, nat_lt, ◌&&◌, length, slice_index_or, IfOk};
ghost use Rattle.std.specs.List.Sorted.{IsStrictlyIncreasing};
ghost use Rattle.elf_reader.specs.File.{PlainView};
ghost use Rattle.object_machine.specs.Program.{Program};
ghost use Rattle.code_blocks.specs.{Numbers.{starts_of}, Leads.{no_unit}};
ghost use Rattle.result_laws.specs.{LiveUnits.{UnitsStand}, PlacedView.{HasRegion}};
ghost use Rattle.relink_core.specs.Written.{AreSiteRegions};

use crate::code_regions::CodeRegions;
use code_blocks::{Block, Code};
use object_graph::Graph;
use std::alloc::{AllocError, Global};

/// Whether a unit of a block stands at an address.
fn has_unit(block: &Block, place: usize, address: u32) -> bool
    ensures { result ≡ (nat_lt place (length block.now.units.items) && ((slice_index_or block.now.units.items place no_unit).at == address)) }
{
    place < block.units.len() && block.units[place].at == address
}

/// The region of the block whose unit stands at an address, 0 where none does.
fn region_at(code: &Code, regions: &CodeRegions, address: u32) -> u32
    requires ascending { IsStrictlyIncreasing (starts_of code.now) }
    requires stand { (v : PlainView) × (p : Program) × UnitsStand v p code.now }
    ensures { HasRegion code.now regions.now.of_block.now address result }
{
    let count = code.blocks_up_to(address);
    if count == 0 {
        return 0;
    }
    let block = &code.blocks[count - 1];
    let place = (address - block.start) / 4;
    if has_unit(block, place as usize, address) {
        regions.region_at(count - 1)
    } else {
        0
    }
}

/// The region of each site. It fails only where no memory was left.
///
/// The time grows with n log m, where n is the number of sites, and m that of blocks.
pub(crate) fn site_regions(
    alloc: Global,
    code: &Code,
    graph: &Graph,
    regions: &CodeRegions,
) -> Result<Vec<u32>, AllocError>
    requires ascending { IsStrictlyIncreasing (starts_of code.now) }
    requires stand { (v : PlainView) × (p : Program) × UnitsStand v p code.now }
    ensures { IfOk result (λ at. AreSiteRegions code.now regions.now.of_block.now graph.now at.items) }
{
    let mut region_at_site = Vec::new(alloc);
    for k in 0..graph.sites.len() {
        region_at_site.push(region_at(code, regions, graph.sites[k].at))?;
    }
    Ok(region_at_site)
}
