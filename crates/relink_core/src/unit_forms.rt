//! The forms of units: where they stand in a result.
ghost use Rattle.std.specs.Prelude.{◌≡◌, ◌↔◌, ℕ, ◌+◌, ◌*◌, ◌<◌, ◌==◌, ◌&&◌, true, if◌then◌else◌, length, map, slice_index_or, Contains, OnOk};
ghost use Rattle.std.specs.List.{All, AllPairs, list_any};
ghost use Rattle.std.specs.List.Sorted.{IsStrictlyIncreasing};
ghost use Rattle.list_checks.specs.Sorted.{IsSorted};
ghost use Rattle.code_blocks.specs.{Numbers.{starts_of, Ascends}, Leads.{no_unit}};
ghost use Rattle.block_splitter.specs.{Copies.{address_of, words_before}, Forms.{holds_block, begins_in, body_at, is_site, kind_of, copy_size}};
ghost use Rattle.patch_code.specs.StubPlans.{serving_stub};
ghost use Rattle.relink_core.specs.{Copies.{IsSource, IsPlacedCopy, copied_in}, declared.copy_source.CopySource.{CopySource}, UnitMaps.{StandsBefore}, UnitSets.{Gains, Upto, IsForm, HomeForm, HomeForms, BlockForms, PieceForms, CopyForms, StubForm, StubForms, runs}};

use crate::copy_source::CopySource;
use crate::placed_copy::PlacedCopy;
use block_splitter::{BlockRange, UnitKind, copy_size, kind_of};
use code_blocks::{Block, Code};
use list_checks::has;
use patch_code::{Body, Stub};
use std::alloc::AllocError;

/// Where a unit of a program stands in a result.
#[derive(Clone, Copy, PartialEq, Eq, PartialOrd, Ord)]
pub struct UnitAt {
    /// Where its first word stands.
    pub at: u32,
    /// The region in which it stands there; 0 where it does in every one.
    pub region: u32,
    /// The unit's own address.
    pub home: u32,
}

/// How many bytes a stub's test for its region takes.
const TEST_SIZE: u32 = 88;

/// Sorts forms, and keeps each once.
pub(crate) fn arrange(units: &mut Vec<UnitAt>)
    ensures ordered { AllPairs StandsBefore units.new.items }
    ensures same { (x : UnitAt) → Contains units.new.items x ↔ Contains units.old.items x }
{
    units.sort_unstable();
    units.dedup();
}

/// Adds a form.
fn push_form(units: &mut Vec<UnitAt>, at: u32, region: u32, home: u32) -> Result<(), AllocError>
    ensures { OnOk result (Gains (IsForm at region home) units.old.items units.new.items) }
{
    units.push(UnitAt { at, region, home })?;
    Ok(())
}

/// Whether unit `k` of a block is the one at which a pad stands, if one does.
fn is_padded(padded: bool, k: usize) -> bool
    ensures { result ≡ (padded && (k == 0)) }
{
    padded && k == 0
}

/// Adds unit `k` of a block at home, unless a pad stands there.
fn push_home(
    units: &mut Vec<UnitAt>,
    block: &Block,
    padded: bool,
    k: usize,
) -> Result<(), AllocError>
    requires { k < length block.now.units.items }
    ensures { OnOk result (Gains (HomeForm block.now.units.items padded k) units.old.items units.new.items) }
{
    if is_padded(padded, k) {
        return Ok(());
    }
    let home = block.units[k].at;
    match push_form(units, home, 0, home) {
        Ok(()) => Ok(()),
        Err(error) => Err(error),
    }
}

/// Adds the units of a block at home, the first one unless a pad stands there.
fn push_block(units: &mut Vec<UnitAt>, block: &Block, padded: bool) -> Result<(), AllocError>
    ensures { OnOk result (Gains (Upto (length block.now.units.items) (HomeForm block.now.units.items padded)) units.old.items units.new.items) }
{
    for k in 0..block.units.len() {
        push_home(units, block, padded, k)?;
    }
    Ok(())
}

/// Adds the units of a code at home, but for the first ones of blocks at the homes of stubs.
pub(crate) fn push_homes(
    units: &mut Vec<UnitAt>,
    code: &Code,
    homes: &[u64],
) -> Result<(), AllocError>
    requires { IsSorted homes.now }
    ensures { OnOk result (Gains (Upto (length code.now.blocks.items) (HomeForms code.now homes.now)) units.old.items units.new.items) }
{
    for b in 0..code.blocks.len() {
        let block = &code.blocks[b];
        push_block(units, block, has(homes, u64::from(block.start)))?;
    }
    Ok(())
}

/// Whether a block is one of a range.
fn holds_block(range: &BlockRange, block: u32) -> bool
    ensures { result ≡ holds_block block range.now }
{
    range.first <= block && block <= range.last
}

/// Whether the block that begins at an address is one of a range.
fn begins_in(code: &Code, range: &BlockRange, address: u32) -> bool
    requires { Ascends code.now }
    ensures { result ≡ begins_in (starts_of code.now) range.now address }
{
    match code.block_at(address) {
        Some(block) => holds_block(range, block),
        None => false,
    }
}

/// Whether a branch or a jump leads to a block of a range.
fn leads_inside(code: &Code, range: &BlockRange, kind: &UnitKind) -> bool
    requires { Ascends code.now }
    ensures { copy_size (λ a. result) kind.now ≡ copy_size (begins_in (starts_of code.now) range.now) kind.now }
{
    match *kind {
        UnitKind::Branch { target, .. } | UnitKind::Jump { target } => {
            begins_in(code, range, target)
        }
        _ => false,
    }
}

/// How many words unit `k` of a block has in the copy of a range.
fn unit_words(source: &CopySource, range: &BlockRange, b: usize, k: usize) -> u32
    requires source { IsSource source.now }
    requires block { b < length source.now.code.now.blocks.items }
    requires unit { k < length (body_at source.now.code.now.blocks.items b).units }
    ensures { result ≡ copy_size (begins_in (starts_of source.now.code.now) range.now) (kind_of (is_site source.now.graph.now) (body_at source.now.code.now.blocks.items b) k) }
{
    let kind = kind_of(source.graph, &source.code.blocks[b], k);
    copy_size(&kind, leads_inside(source.code, range, &kind))
}

/// Where a copy has one of its blocks.
fn block_place(copy: &PlacedCopy, b: usize) -> u32
    requires copy { (s : CopySource) × IsPlacedCopy s copy.now }
    requires held { holds_block b copy.now.range ≡ true }
    ensures { (s : CopySource) → IsPlacedCopy s copy.now → result ≡ address_of (copied_in s copy.now) (words_before (copied_in s copy.now) b) }
{
    let start = copy.code.starts[b - copy.range.first as usize];
    copy.at + start
}

/// Adds unit `k` of a block at an address.
fn push_unit(
    units: &mut Vec<UnitAt>,
    block: &Block,
    k: usize,
    at: u32,
    region: u32,
) -> Result<(), AllocError>
    requires { k < length block.now.units.items }
    ensures { OnOk result (Gains (IsForm at region (slice_index_or block.now.units.items k no_unit).at) units.old.items units.new.items) }
{
    match push_form(units, at, region, block.units[k].at) {
        Ok(()) => Ok(()),
        Err(error) => Err(error),
    }
}

/// Adds the units of a block in a copy that has it.
fn push_copied(
    units: &mut Vec<UnitAt>,
    source: &CopySource,
    copy: &PlacedCopy,
    region: u32,
    b: usize,
) -> Result<(), AllocError>
    requires source { IsSource source.now }
    requires copy { IsPlacedCopy source.now copy.now }
    requires held { holds_block b copy.now.range ≡ true }
    requires below { b < length source.now.code.now.blocks.items }
    ensures { OnOk result (Gains (BlockForms (copied_in source.now copy.now) region b) units.old.items units.new.items) }
{
    let block = &source.code.blocks[b];
    let mut at = block_place(copy, b);
    for k in 0..block.units.len() {
        push_unit(units, block, k, at, region)?;
        at += 4 * unit_words(source, &copy.range, b, k);
    }
    Ok(())
}

/// Adds the units of a copy, which stands in a region.
fn push_copy(
    units: &mut Vec<UnitAt>,
    source: &CopySource,
    copy: &PlacedCopy,
    region: u32,
) -> Result<(), AllocError>
    requires source { IsSource source.now }
    requires copy { IsPlacedCopy source.now copy.now }
    ensures { OnOk result (Gains (PieceForms (copied_in source.now copy.now) region) units.old.items units.new.items) }
{
    for b in copy.range.first as usize..copy.range.last as usize + 1 {
        push_copied(units, source, copy, region, b)?;
    }
    Ok(())
}

/// A region of a list.
fn region_at(regions: &[u32], n: usize) -> u32
    ensures { result ≡ slice_index_or regions.now n 0 }
{
    match regions.get(n) {
        Some(region) => *region,
        None => 0,
    }
}

/// Adds the units of copies, by the regions in which these stand.
pub(crate) fn push_copies(
    units: &mut Vec<UnitAt>,
    source: &CopySource,
    copies: &[PlacedCopy],
    regions: &[u32],
) -> Result<(), AllocError>
    requires source { IsSource source.now }
    requires copies { All (IsPlacedCopy source.now) copies.now }
    ensures { OnOk result (Gains (Upto (length copies.now) (CopyForms source.now copies.now regions.now)) units.old.items units.new.items) }
{
    for n in 0..copies.len() {
        push_copy(units, source, &copies[n], region_at(regions, n))?;
    }
    Ok(())
}

/// Adds the unit that a stub at an address runs, if it runs one: behind its test.
fn push_stub(units: &mut Vec<UnitAt>, stub: &Stub, at: u32) -> Result<(), AllocError>
    requires { runs (serving_stub stub.now).body ≡ true → at + 88 < 4294967296 }
    ensures { OnOk result (Gains (StubForm (serving_stub stub.now) at) units.old.items units.new.items) }
{
    match stub.body {
        Body::Words(_) => match push_form(units, at + TEST_SIZE, 0, stub.home) {
            Ok(()) => Ok(()),
            Err(error) => Err(error),
        },
        Body::Jump { .. } => Ok(()),
    }
}

/// A place of a list.
fn place_at(places: &[u32], k: usize) -> u32
    requires { k < length places.now }
    ensures { result ≡ slice_index_or places.now k 0 }
{
    places[k]
}

/// Adds those of all stubs, by where these stand.
pub(crate) fn push_stubs(
    units: &mut Vec<UnitAt>,
    stubs: &[Stub],
    places: &[u32],
) -> Result<(), AllocError>
    requires many { length places.now ≡ length stubs.now }
    requires ends { (k : ℕ) (d : Stub) → k < length stubs.now → runs (serving_stub (slice_index_or stubs.now k d)).body ≡ true → slice_index_or places.now k 0 + 88 < 4294967296 }
    ensures { OnOk result (Gains (Upto (length stubs.now) (StubForms (map serving_stub stubs.now) places.now)) units.old.items units.new.items) }
{
    for k in 0..stubs.len() {
        push_stub(units, &stubs[k], place_at(places, k))?;
    }
    Ok(())
}
