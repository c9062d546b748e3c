ghost use Rattle.std.specs.Prelude.{◌≡◌, ◌<◌, ℕ, length};
ghost use Rattle.profile_runner.specs.{Counts.{plain_rows, row_of, entry}, Standing.{entered}, Tallies.{AddsIn, is_entry}};

use crate::changes::Changes;
use crate::edge_row::EdgeRow;
use crate::edges::add_edge_in;
use crate::rows::{bump, bump_in};
use object_machine::Access;
use region_former::RegionTable;
use std::alloc::AllocError;

/// What has been counted of a run so far.
#[derive(Drop)]
pub(crate) struct Tally {
    pub(crate) steps: u64,
    pub(crate) arrivals: Vec<u64>,
    /// The edges from each block, by where they lead.
    pub(crate) edges: Vec<EdgeRow>,
    pub(crate) reads: Vec<Vec<u64>>,
    pub(crate) writes: Vec<Vec<u64>>,
    pub(crate) changes: Changes,
    /// The block that began last, and how many of its units ran.
    pub(crate) block: u32,
    pub(crate) units: u32,
    /// The current region.
    pub(crate) region: u32,
}

impl Tally {
    ghost use Rattle.std.specs.Prelude.{OnOk};
    ghost use Rattle.profile_runner.specs.{Tally.{HasRoomToChange, HasRoomForBlock, HasRoomToAccess, HasRoomToLead, HasEntered, HasMoved, HasAccessed, HasLed}, Tallies.{plain_edges}};

    // Counting is inlined in the loop that takes steps.

    /// A block begins.
    #[inline(always)]
    pub(crate) fn begin(&mut self, regions: &RegionTable, block: u32)
        requires { HasRoomForBlock regions.now.of_block.items block self.old }
        ensures { HasEntered regions.now.of_block.items block self.old self.new }
    {
        bump(&mut self.arrivals, block as usize);
        self.block = block;
        self.enter(regions.of_block[block as usize]);
    }

    /// A block of this region begins.
    #[inline(always)]
    fn enter(&mut self, region: u32)
        requires { HasRoomToChange self.old.changes self.old.region (entered self.old.region region) }
        ensures { HasMoved (entered self.old.region region) self.old self.new }
    {
        let after = entered(self.region, region);
        if after != self.region {
            self.change(after);
        }
    }

    /// Another region becomes current.
    #[cold]
    #[inline(never)]
    fn change(&mut self, region: u32)
        requires { HasRoomToChange self.old.changes self.old.region region }
        ensures { HasMoved region self.old self.new }
    {
        self.changes.count(self.region, region);
        self.region = region;
    }

    /// A load or a store on an object, if there is one.
    #[inline(always)]
    pub(crate) fn access(&mut self, access: Option<Access>)
        requires { HasRoomToAccess self.old.region (plain_rows self.old.reads.items) (plain_rows self.old.writes.items) }
        ensures { HasAccessed access self.old self.new }
    {
        match access {
            Some(access) if access.write => {
                count_in(&mut self.writes, access.object, self.region);
            }
            Some(access) => count_in(&mut self.reads, access.object, self.region),
            None => {}
        }
    }

    /// Control goes to a block, or to none.
    #[inline(always)]
    pub(crate) fn lead(&mut self, next: Option<u32>) -> Result<(), AllocError>
        requires { HasRoomToLead next self.old.block (plain_edges self.old.edges.items) }
        ensures { OnOk result (HasLed next self.old self.new) }
    {
        match next {
            Some(to) => match add_edge_in(&mut self.edges, self.block, to) {
                Ok(()) => Ok(()),
                Err(error) => Err(error),
            },
            None => Ok(()),
        }
    }
}

/// The region that is current once a block of this region began: a block of none leaves it as it is.
#[inline(always)]
fn entered(current: u32, region: u32) -> u32
    ensures { result ≡ entered current region }
{
    if region == 0 { current } else { region }
}

/// One more in row `object`, if there is one, and column `region`.
#[inline(always)]
fn count_in(table: &mut Vec<Vec<u64>>, object: u32, region: u32)
    requires column { (j : ℕ) → j < length table.old.items → region < length (row_of (plain_rows table.old.items) j) }
    requires room { (j : ℕ) → j < length table.old.items → entry (plain_rows table.old.items) j region < 18446744073709551615 }
    ensures { AddsIn (plain_rows table.old.items) (plain_rows table.new.items) (is_entry object region) }
{
    if (object as usize) < table.len() {
        bump_in(table, object as usize, region as usize);
    }
}
