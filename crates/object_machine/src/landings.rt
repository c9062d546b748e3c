ghost use Rattle.std.specs.Prelude.{◌≡◌, ℕ, ◌<◌, ◌≤◌, true, List, set, length, slice_index, IsTrue, IfOk, IfSome};
ghost use Rattle.code_blocks.specs.Early.{has};
ghost use Rattle.object_machine.specs.{Landings.{AreLandings}, Units.{unit_in, IsUnitAt}, declared.units.Prepared.{Prepared}};

use crate::preparing::BlockUnits;
use crate::units::Prepared;
use std::alloc::{AllocError, Global};

// A landing is the place of the unit at which a block begins, by the place of its word in the code. So a jump asks for its
// block by one look-up; only of code that lies far apart blocks are searched for.

/// How many landings there are at most.
const MOST_LANDINGS: u64 = 0x4_0000;

/// A unit is at an address.
#[inline(always)]
pub(crate) fn is_unit_at(units: &Vec<Prepared>, place: usize, address: u64) -> bool
    ensures { IsTrue result → IsUnitAt units.now.items place address }
{
    place < units.len() && u64::from(units[place].at) == address
}

/// The landing of a word.
#[inline(always)]
fn landing_in(landings: &Vec<usize>, word: usize) -> usize
    requires { word < length landings.now.items }
    ensures { result ≡ slice_index landings.now.items word }
{
    landings[word]
}

/// The unit at an address to which a landing leads, where the first landing is that of the address `first`.
#[inline(always)]
pub(crate) fn landing(
    landings: &Vec<usize>,
    units: &Vec<Prepared>,
    first: u64,
    address: u64,
) -> Option<usize>
    ensures at { IfSome result (λ k. IsUnitAt units.now.items k address) }
    ensures begins { (starts : List ℕ) → AreLandings units.now.items starts landings.now.items → IfSome result (λ _. has starts address ≡ true) }
{
    let word = (address.wrapping_sub(first) / 4) as usize;
    if word >= landings.len() {
        return None;
    }
    let place = landing_in(landings, word);
    if is_unit_at(units, place, address) {
        Some(place)
    } else {
        None
    }
}

/// The landings of the beginnings of all blocks.
pub(crate) fn block_landings(
    alloc: Global,
    block_units: &BlockUnits,
) -> Result<Vec<usize>, AllocError>
    ensures { IfOk result (λ landings. AreLandings block_units.now.units.items block_units.now.starts.items landings.items) }
{
    let first = first_start(&block_units.starts);
    let mut landings = no_landings(alloc, block_units)?;
    for k in 0..block_units.starts.len().min(block_units.places.len()) {
        let start = address_in(&block_units.starts, k);
        let word = (start.wrapping_sub(first) / 4) as usize;
        add_start(
            &mut landings,
            &block_units.units,
            word,
            block_units.places[k],
            start,
        );
    }
    Ok(landings)
}

/// An address of a list.
fn address_in(addresses: &Vec<u64>, k: usize) -> u64
    requires { k < length addresses.now.items }
    ensures { has addresses.now.items result ≡ true }
{
    addresses[k]
}

/// Puts the landing of a beginning, if its unit is at this place.
fn add_start(
    landings: &mut Vec<usize>,
    units: &Vec<Prepared>,
    word: usize,
    place: usize,
    start: u64,
)
    ensures { (starts : List ℕ) → has starts start ≡ true → AreLandings units.now.items starts landings.old.items → AreLandings units.now.items starts landings.new.items }
{
    if is_unit_at(units, place, start) {
        add_landing(landings, word, place);
    }
}

/// Those of the beginnings that are reached, from the landings of all.
pub(crate) fn reached_landings(
    alloc: Global,
    block_units: &BlockUnits,
    all: &Vec<usize>,
    reached: &Vec<u64>,
) -> Result<Vec<usize>, AllocError>
    ensures { IfOk result (λ landings. AreLandings block_units.now.units.items reached.now.items landings.items) }
{
    let first = first_start(&block_units.starts);
    let mut landings = no_landings(alloc, block_units)?;
    for k in 0..reached.len() {
        let start = address_in(reached, k);
        let word = (start.wrapping_sub(first) / 4) as usize;
        let place = landing(all, &block_units.units, first, start).unwrap_or(usize::MAX);
        add_start(&mut landings, &block_units.units, word, place, start);
    }
    Ok(landings)
}

/// The address of the first landing.
pub(crate) fn first_start(starts: &[u64]) -> u64 {
    match starts.first() {
        Some(first) => *first,
        None => 0,
    }
}

/// As many landings as there are words from the first block to the last, of which none leads to a unit.
fn no_landings(alloc: Global, block_units: &BlockUnits) -> Result<Vec<usize>, AllocError>
    ensures { IfOk result (λ landings. (starts : List ℕ) → AreLandings block_units.now.units.items starts landings.items) }
{
    let words = match block_units.starts.last() {
        Some(last) => last.wrapping_sub(first_start(&block_units.starts)) / 4,
        None => 0,
    };
    let mut landings = Vec::new(alloc);
    landings.resize(
        words.min(MOST_LANDINGS - 1) as usize + 1,
        block_units.units.len(),
    )?;
    Ok(landings)
}

/// Puts a landing, if there is one of this word.
fn add_landing(landings: &mut Vec<usize>, word: usize, place: usize)
    ensures { (units : List Prepared) (starts : List ℕ) → has starts (unit_in units place).at ≡ true → AreLandings units starts landings.old.items → AreLandings units starts landings.new.items }
{
    if word < landings.len() {
        put_landing(landings, word, place);
    }
}

/// Puts the landing of a word.
fn put_landing(landings: &mut Vec<usize>, word: usize, place: usize)
    requires { word < length landings.old.items }
    ensures { landings.new.items ≡ set landings.old.items word place }
{
    landings[word] = place;
}
