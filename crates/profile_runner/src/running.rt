ghost use Rattle.std.specs.Prelude.{◌≡◌, ◌+◌, ◌-◌, ◌<◌, ◌≤◌, ℕ, List, Option, true, length, IfOk, OnOk};
ghost use Rattle.std.specs.List.Sorted.{IsStrictlyIncreasing};
ghost use Rattle.code_blocks.specs.{Early.{has}, Numbers.{starts_of}};
ghost use Rattle.object_machine.specs.{Program.{Program}, Machine.{state_of, IsProgram}};
ghost use Rattle.profile_runner.specs.{Counts.{plain_rows}, Tallies.{IsBlockAt}, Tally.{HasRoomToAccess, IsNew}, Running.{HasStarted, fault_of, IsMachineOf, IsAll, ReportsOfRun}, Taking.{Course, timed, IsTaken, MayTake, AreTaken, MayCount, AreCounted}};

use crate::counts::Profile;
use crate::fault::ProfileFault;
use crate::filling::nothing_counted;
use crate::finding::{block_at, is_going, next_block};
use crate::joining::profile_of;
use crate::tally::Tally;
use code_blocks::Code;
use object_graph::Graph;
use object_machine::{Outcome, Source};
use region_former::RegionTable;
use shelf_io::Progress;
use std::alloc::{AllocError, Global};

/// After how many steps those who wait are told how far a run is.
const TOLD_STEPS: u64 = 65_536;

/// What is known of a program whose run is counted.
#[derive(Clone, Copy)]
pub struct Parts<'a> {
    pub code: &'a Code,
    pub graph: &'a Graph,
    pub regions: &'a RegionTable,
}

/// Runs a program for `n` steps, or until it ends, and counts what happens. The machine must be at the start of
/// a block, as it is at the start; the parts are those of its program.
///
/// A step inside a block counts its access and nothing else; one that ends a block takes the time of a look-up among
/// the edges from it, and little else.
///
/// It fails with `AddressFault` exactly where the run meets one within `n` steps.
pub fn profile(
    alloc: Global,
    source: &mut Source,
    parts: &Parts<'_>,
    n: u64,
    progress: &dyn Progress,
) -> Result<Profile, ProfileFault>
    requires started { HasStarted parts.now.graph.now parts.now.code.now source.old }
    requires regions { length parts.now.regions.now.of_block.items ≡ length parts.now.code.now.blocks.items }
    requires some { 0 < n }
    ensures program { OnOk result ((p : Program) → IsProgram p source.old → IsProgram p source.new) }
    ensures run { (p : Program) → IsProgram p source.old → ReportsOfRun (starts_of parts.now.code.now) parts.now.regions.now.of_block.items parts.now.regions.now.count (length parts.now.graph.now.objects.items) p n (state_of p source.old) (state_of p source.new) result }
{
    let first = first_block(parts.code, source.at());
    let blocks = parts.code.blocks.len();
    let objects = parts.graph.objects.len();
    let mut tally = nothing_counted(alloc, blocks, objects, parts.regions.count, first)?;
    let (steps, units) = take_blocks(&mut tally, source, parts, first, n, progress)?;
    tally.steps = steps;
    tally.units = units as u32;
    if let Some(fault) = fault_of(&source.outcome()) {
        return Err(fault);
    }
    match profile_of(alloc, tally, source.outcome()) {
        Ok(profile) => Ok(profile),
        Err(_) => Err(ProfileFault::Memory),
    }
}

/// The fault of a run that ended so, if it met one.
fn fault_of(outcome: &Outcome) -> Option<ProfileFault>
    ensures { result ≡ fault_of outcome.now }
{
    match *outcome {
        Outcome::AddressFault { pc, why } => Some(ProfileFault::AddressFault { pc, why }),
        Outcome::GoesOn | Outcome::Exited(_) | Outcome::Trapped { .. } => None,
    }
}

/// The block that begins at an address.
fn first_block(code: &Code, address: u32) -> u32
    requires ascending { IsStrictlyIncreasing (starts_of code.now) }
    requires begins { has (starts_of code.now) address ≡ true }
    ensures { IsBlockAt (starts_of code.now) address (Some result) }
{
    block_at(code, address).unwrap()
}

/// Takes `n` steps, or fewer where the machine ends, and counts them. The first unit is of block `first`. Tells how many it took,
/// and how many of them since the last block began; the counters of `tally` have all else.
fn take_blocks(
    tally: &mut Tally,
    source: &mut Source,
    parts: &Parts<'_>,
    first: u32,
    n: u64,
    progress: &dyn Progress,
) -> Result<(u64, u64), AllocError>
    requires machine { IsMachineOf (starts_of parts.now.code.now) source.old }
    requires regions { length parts.now.regions.now.of_block.items ≡ length parts.now.code.now.blocks.items }
    requires begins { (p : Program) → IsProgram p source.old → IsBlockAt (starts_of parts.now.code.now) (state_of p source.old).pc (Some first) }
    requires going { (p : Program) → (state_of p source.old).outcome ≡ Outcome.GoesOn }
    requires nothing { (size : ℕ) × IsNew (length parts.now.code.now.blocks.items) size parts.now.regions.now.count first tally.old }
    ensures short { IfOk result (λ r. r.1 ≤ 1073741824) }
    ensures program { OnOk result ((p : Program) → IsProgram p source.old → IsProgram p source.new) }
    ensures run { IfOk result (λ r. (p : Program) (size : ℕ) → IsProgram p source.old → IsNew (length parts.now.code.now.blocks.items) size parts.now.regions.now.count first tally.old → IsAll (starts_of parts.now.code.now) parts.now.regions.now.of_block.items parts.now.regions.now.count size p (state_of p source.old) (state_of p source.new) n (timed r.0 r.1 tally.new)) }
{
    let regions = parts.regions;
    let mut coming = Some(first);
    let mut left = n;
    let mut since = n;
    let mut due = n;
    while left > 0 {
        let Some(block) = coming else {
            break;
        };
        due = tell_steps(progress, due, left, n);
        since = left;
        let (rest, next) = count_units(tally, source, regions, block, left)?;
        left = rest;
        coming = next;
    }
    Ok((n - left, since - left))
}

/// Tells how far a run is, if that was due with so many steps left or more. Tells when it is due again.
#[inline(always)]
fn tell_steps(progress: &dyn Progress, due: u64, left: u64, most: u64) -> u64
    requires { left ≤ most }
{
    if left > due {
        return due;
    }
    progress.steps(most - left, most);
    left.saturating_sub(TOLD_STEPS)
}

/// Takes the steps of a block that begins, until one leads to a block, ends the machine, or is the last of `most`, and counts
/// what they do. Tells how many are left, and the block that begins behind them, if the machine goes on and one does.
#[inline(always)]
fn count_units(
    tally: &mut Tally,
    source: &mut Source,
    regions: &RegionTable,
    block: u32,
    most: u64,
) -> Result<(u64, Option<u32>), AllocError>
    requires { (c : Course) × ((i : ℕ) × ((u : ℕ) × MayCount c regions.now.of_block.items i u most source.old tally.old block)) }
    ensures { IfOk result (λ r. (c : Course) (i u : ℕ) → MayCount c regions.now.of_block.items i u most source.old tally.old block → AreCounted c i most source.new tally.new r.0 r.1) }
{
    tally.begin(regions, block);
    let (left, next) = take_units(tally, source, most)?;
    match tally.lead(next) {
        Ok(()) => Ok((left, next)),
        Err(error) => Err(error),
    }
}

/// Takes these steps, and counts their accesses.
#[inline(always)]
fn take_units(
    tally: &mut Tally,
    source: &mut Source,
    most: u64,
) -> Result<(u64, Option<u32>), AllocError>
    requires { (c : Course) × ((i : ℕ) × MayTake c i most source.old tally.old) }
    ensures { IfOk result (λ r. (c : Course) (i : ℕ) → MayTake c i most source.old tally.old → AreTaken c i most source.new tally.new r.0 r.1) }
{
    let mut left = most;
    while left > 0 {
        left -= 1;
        let (next, stays) = take_unit(tally, source)?;
        if !stays {
            return Ok((left, next));
        }
    }
    Ok((left, None))
}

/// Takes a step, and counts its access. Tells the block that begins behind it, if the machine goes on and one does, and
/// whether the next unit is of the same block.
#[inline(always)]
fn take_unit(tally: &mut Tally, source: &mut Source) -> Result<(Option<u32>, bool), AllocError>
    requires going { (p : Program) → (state_of p source.old).outcome ≡ Outcome.GoesOn }
    requires room { HasRoomToAccess tally.old.region (plain_rows tally.old.reads.items) (plain_rows tally.old.writes.items) }
    ensures { IfOk result (λ r. (p : Program) (starts : List ℕ) → IsProgram p source.old → IsStrictlyIncreasing starts → ((a : ℕ) → p.is_block a ≡ has starts a) → IsTaken starts p source.old source.new r.0 r.1 tally.old tally.new) }
{
    let event = source.step_going::<1>()?;
    // an ended machine told of no access, which is known before that is asked for
    if !is_going(&event.outcome) {
        tally.access(event.access);
        return Ok((None, false));
    }
    tally.access(event.access);
    let next = next_block(source, &event.outcome);
    Ok((next, next.is_none()))
}
