// Which objects have sites, all of them in blocks with regions.
ghost use Rattle.std.specs.Prelude.{◌≡◌, ◌↔◌, ℕ, ◌<◌, ◌==◌, nat_lt, true, false, not, ◌&&◌, ◌||◌, length, replicate, if◌then◌else◌, IfOk, OnOk};
ghost use Rattle.std.specs.List.{list_any};
ghost use Rattle.list_checks.specs.Sorted.{IsSorted, is_number};
ghost use Rattle.code_blocks.specs.Leads.{units_in};
ghost use Rattle.dataflow.specs.{Overlaid.{region_in, site_means}, Exposed.{mark_at}};
ghost use Rattle.placement_candidates.specs.Found.{stands_at, HasAddress, StandsInRegion, strays, AreSited};

use code_blocks::{Block, Code, Unit};
use list_checks::{arrange, has};
use object_graph::{Graph, Site};
use region_former::RegionTable;
use std::alloc::{AllocError, Global};

/// Marks the objects that have a site, and all whose sites are in blocks with regions.
pub(crate) fn sited_objects(
    alloc: Global,
    code: &Code,
    graph: &Graph,
    regions: &RegionTable,
) -> Result<Vec<bool>, AllocError>
    ensures { IfOk result (λ marks. AreSited code.now graph.now regions.now.of_block.items marks.items) }
{
    let addresses = region_addresses(alloc, code, regions)?;
    let mut marks = vec![in alloc; false; graph.objects.len()]?;
    mark_sited(&mut marks, &graph.sites, &addresses);
    Ok(marks)
}

/// The addresses of the units of all blocks with regions, ascending.
fn region_addresses(
    alloc: Global,
    code: &Code,
    regions: &RegionTable,
) -> Result<Vec<u64>, AllocError>
    ensures sorted { IfOk result (λ addresses. IsSorted addresses.items) }
    ensures exact { IfOk result (λ addresses. (a : ℕ) → HasAddress addresses.items a ↔ StandsInRegion code.now regions.now.of_block.items (length code.now.blocks.items) a) }
{
    let mut addresses = Vec::new(alloc);
    for b in 0..code.blocks.len() {
        push_block(&mut addresses, &code.blocks[b], region_of(regions, b))?;
    }
    arrange(&mut addresses);
    Ok(addresses)
}

/// The region of block `b`.
fn region_of(regions: &RegionTable, b: usize) -> u32
    ensures { result ≡ region_in regions.now.of_block.items b }
{
    match regions.of_block.get(b) {
        Some(region) => *region,
        None => 0,
    }
}

/// Adds the addresses of the units of a block, if it has a region.
fn push_block(addresses: &mut Vec<u64>, block: &Block, region: u32) -> Result<(), AllocError>
    ensures { OnOk result ((a : ℕ) → list_any (is_number a) addresses.new.items ≡ (list_any (is_number a) addresses.old.items || (nat_lt 0 region && list_any (stands_at a) (units_in block.now)))) }
{
    if region > 0 {
        push_units(addresses, &block.units)?;
    }
    Ok(())
}

/// Adds the addresses of units.
fn push_units(addresses: &mut Vec<u64>, units: &[Unit]) -> Result<(), AllocError>
    ensures { OnOk result ((a : ℕ) → list_any (is_number a) addresses.new.items ≡ (list_any (is_number a) addresses.old.items || list_any (stands_at a) units.now)) }
{
    for k in 0..units.len() {
        addresses.push(u64::from(units[k].at))?;
    }
    Ok(())
}

/// Marks the objects of sites, but for those of a site that stands at none of the sorted addresses.
fn mark_sited(marks: &mut [bool], sites: &[Site], addresses: &[u64])
    requires bare { marks.old ≡ replicate (length marks.old) false }
    requires sorted { IsSorted addresses.now }
    ensures size { length marks.new ≡ length marks.old }
    ensures marks { (o : ℕ) → o < length marks.old → mark_at marks.new o ≡ (list_any (site_means o) sites.now && not (list_any (strays addresses.now o) sites.now)) }
{
    mark_all(marks, sites);
    clear_strays(marks, sites, addresses);
}

/// Marks the objects of all sites.
fn mark_all(marks: &mut [bool], sites: &[Site])
    ensures size { length marks.new ≡ length marks.old }
    ensures marks { (o : ℕ) → o < length marks.old → mark_at marks.new o ≡ (mark_at marks.old o || list_any (site_means o) sites.now) }
{
    for k in 0..sites.len() {
        set(marks, sites[k].object, true);
    }
}

/// Clears the marks of the objects of sites that stand at none of the addresses.
fn clear_strays(marks: &mut [bool], sites: &[Site], addresses: &[u64])
    requires { IsSorted addresses.now }
    ensures size { length marks.new ≡ length marks.old }
    ensures marks { (o : ℕ) → o < length marks.old → mark_at marks.new o ≡ (mark_at marks.old o && not (list_any (strays addresses.now o) sites.now)) }
{
    for k in 0..sites.len() {
        clear_stray(marks, &sites[k], addresses);
    }
}

/// Clears that of the object of a site, if it does.
fn clear_stray(marks: &mut [bool], site: &Site, addresses: &[u64])
    requires { IsSorted addresses.now }
    ensures size { length marks.new ≡ length marks.old }
    ensures marks { (o : ℕ) → o < length marks.old → mark_at marks.new o ≡ (mark_at marks.old o && not (strays addresses.now o site.now)) }
{
    if !has(addresses, u64::from(site.at)) {
        set(marks, site.object, false);
    }
}

/// Sets the mark of an object, if there is one.
fn set(marks: &mut [bool], object: u32, value: bool)
    ensures size { length marks.new ≡ length marks.old }
    ensures marks { (o : ℕ) → o < length marks.old → mark_at marks.new o ≡ (if object == o then value else mark_at marks.old o) }
{
    if (object as usize) < marks.len() {
        marks[object as usize] = value;
    }
}
