//! Tables of what holds where blocks begin: live and dead registers, and regions.
use crate::listing::Listing;
use code_blocks::Code;
use dataflow::LiveTable;
use region_former::RegionTable;
use rv32im::RegSet;

/// How many dead registers are told.
const DEAD: u32 = 3;

/// For each of the first blocks the registers that are live, and the least ones that are dead.
pub(crate) fn list_live(listing: &mut Listing, code: &Code, live: &LiveTable, most: usize) {
    for block in code.blocks.iter().take(most) {
        listing.address("live ", block.start);
        list_live_registers(listing, live, block.start);
        list_dead(listing, live, block.start);
    }
}

fn list_live_registers(listing: &mut Listing, live: &LiveTable, leader: u32) {
    for register in 0..32u8 {
        if live.is_live(leader, register) {
            listing.number(" x", u64::from(register));
        }
    }
}

/// The end of a line with the least dead registers from x5 on.
fn list_dead(listing: &mut Listing, live: &LiveTable, leader: u32) {
    listing.text(", dead");
    let mut told = RegSet { bits: 0 };
    for _ in 0..DEAD {
        if let Some(register) = live.dead_at(leader, told) {
            listing.number(" x", u64::from(register));
            told.bits |= 1u32.checked_shl(u32::from(register)).unwrap_or(0);
        }
    }
    listing.end_line();
}

/// For each region, and for none, its blocks and those among them by which it is entered.
pub(crate) fn list_regions(listing: &mut Listing, regions: &RegionTable) {
    listing.number_line("regions ", u64::from(regions.count));
    for region in 0..=regions.count {
        list_region(listing, regions, region);
    }
}

/// A line with the blocks of a region, and those by which it is entered.
fn list_region(listing: &mut Listing, regions: &RegionTable, region: u32) {
    listing.number("region ", u64::from(region));
    listing.text(" blocks");
    for (block, of) in regions.of_block.iter().enumerate() {
        if *of == region {
            listing.number(" ", block as u64);
        }
    }
    list_border(listing, regions, region);
}

/// The end of a line with the blocks by which a region is entered.
fn list_border(listing: &mut Listing, regions: &RegionTable, region: u32) {
    listing.text(", entered at");
    for (block, (of, border)) in regions.of_block.iter().zip(&regions.border).enumerate() {
        if *of == region && *border {
            listing.number(" ", block as u64);
        }
    }
    listing.end_line();
}
