ghost use Rattle.std.specs.Prelude.{◌≡◌, ℕ, ◌+◌, ◌<◌, true, length, IsTrue};
ghost use Rattle.std.specs.List.{list_any};
ghost use Rattle.object_graph.specs.Sites.{in_range};
ghost use Rattle.object_machine.specs.{Landings.{AreLandings}, Ops.{AreOps, AreOps-prop}, Numbering.{HasNumbers}, Units.{AreFit, AreJoined, AreStarts}, Layout.{AreAscending, EndBelow, HasDisjointObjects, LieOff, AreAmong, is_grain}};
ghost use Rattle.std.specs.List.Sorted.{IsStrictlyIncreasing};

use crate::landings::landing;
use crate::op::Op;
use crate::units::Prepared;
use board_config::Range;
use list_checks::place_of;
use object_graph::{Graph, lies_in_some};

/// What of a program never changes while it runs.
#[derive(Drop)]
pub(crate) struct Tables {
    /// The objects that may move.
    pub(crate) graph: Graph,
    /// The units of all blocks, one block behind the other.
    pub(crate) units: Vec<Prepared>,
    /// And their names.
    pub(crate) ops: Vec<Op>,
    /// Where the blocks begin, ascending, and the place of the first unit of each.
    pub(crate) starts: Vec<u64>,
    pub(crate) places: Vec<usize>,
    /// For each unit the number of the block that begins with it, if one does.
    pub(crate) numbers: Vec<Option<u32>>,
    /// The starts that a jump by a register may reach, ascending.
    pub(crate) reached: Vec<u64>,
    /// The address of the first block, and by words from there on the landings of blocks, and of reached ones.
    pub(crate) first: u64,
    pub(crate) landings: Vec<usize>,
    pub(crate) reached_landings: Vec<usize>,
    /// Memory that stays as it is, ascending, and the two widest ranges of it, where the stack and the heap mostly are.
    pub(crate) fixed: Vec<Range>,
    pub(crate) widest: Range,
    pub(crate) second: Range,
    pub(crate) ghost grain: { is_grain graph.grain ≡ true },
    pub(crate) ghost below: { EndBelow graph },
    pub(crate) ghost disjoint: { HasDisjointObjects graph },
    pub(crate) ghost off: { LieOff fixed.items graph },
    pub(crate) ghost fit: { AreFit (length graph.objects.items) units.items },
    pub(crate) ghost joined: { AreJoined units.items },
    pub(crate) ghost named: { AreOps units.items starts.items ops.items } by { AreOps-prop units.items starts.items ops.items },
    pub(crate) ghost begun: { AreStarts units.items starts.items places.items },
    pub(crate) ghost numbered: { HasNumbers starts.items units.items numbers.items },
    pub(crate) ghost ascending: { IsStrictlyIncreasing starts.items },
    pub(crate) ghost reached_ascending: { IsStrictlyIncreasing reached.items },
    pub(crate) ghost among: { AreAmong reached.items starts.items },
    pub(crate) ghost ranges: { AreAscending fixed.items },
    pub(crate) ghost landed: { AreLandings units.items starts.items landings.items },
    pub(crate) ghost reached_landed: { AreLandings units.items reached.items reached_landings.items },
    pub(crate) ghost wide: { (a : ℕ) → in_range widest a ≡ true → list_any (λ r. in_range r a) fixed.items ≡ true },
    pub(crate) ghost next_wide: { (a : ℕ) → in_range second a ≡ true → list_any (λ r. in_range r a) fixed.items ≡ true },
}

impl Tables {
    ghost use Rattle.std.specs.Prelude.{false, ◌+◌, ◌<◌, ◌≤◌, IsTrue, MatchOption};
    ghost use Rattle.code_blocks.specs.Early.{has};
    ghost use Rattle.object_machine.specs.{Units.{IsUnitAt, FitsRead}, Ops.{instr_of, NamedBy}, Layout.{is_in_some}};

    /// The name of the unit at a place.
    #[inline(always)]
    #[tactic(auto, unfolding(crate::specs::Ops::AreOps))]
    pub(crate) fn op_at(&self, place: usize) -> Op
        requires { place < length self.now.units.items }
        ensures named { NamedBy self.now.units.items self.now.starts.items place (instr_of result) }
        ensures fits { FitsRead (instr_of result) }
    {
        self.ops[place]
    }

    /// Whether fixed memory lies at an address, by binary search.
    pub(crate) fn is_fixed(&self, address: u32) -> bool
        ensures { result ≡ is_in_some self.now.fixed.items address }
    {
        lies_in_some(&self.fixed, address)
    }

    /// Whether the `n` bytes from an address on lie in one of the two widest ranges of fixed memory.
    #[inline(always)]
    pub(crate) fn is_wide(&self, at: u32, n: u32) -> bool
        requires { at + n ≤ 4294967296 }
        ensures { IsTrue result → (i : ℕ) → i < n → is_in_some self.now.fixed.items (at + i) ≡ true }
    {
        holds(self.widest, at, n) || holds(self.second, at, n)
    }

    /// Whether the `n` bytes from an address on lie in one range of fixed memory, by binary search.
    pub(crate) fn is_in_one(&self, at: u32, n: u32) -> bool
        requires { at + n ≤ 4294967296 }
        ensures { IsTrue result → (i : ℕ) → i < n → is_in_some self.now.fixed.items (at + i) ≡ true }
    {
        let begun = self.fixed.partition_point(|range| range.base <= at);
        begun > 0 && holds(self.fixed[begun - 1], at, n)
    }

    /// The first unit of the block that begins at an address, if one does.
    #[inline(always)]
    pub(crate) fn block_at(&self, address: u64) -> Option<usize>
        ensures { MatchOption result (has self.now.starts.items address ≡ false) (λ k. (has self.now.starts.items address ≡ true) × IsUnitAt self.now.units.items k address) }
    {
        match landing(&self.landings, &self.units, self.first, address) {
            Some(place) => Some(place),
            None => self.found_block(address),
        }
    }

    /// The same, by binary search.
    #[cold]
    #[inline(never)]
    fn found_block(&self, address: u64) -> Option<usize>
        ensures { MatchOption result (has self.now.starts.items address ≡ false) (λ k. (has self.now.starts.items address ≡ true) × IsUnitAt self.now.units.items k address) }
    {
        match place_of(&self.starts, address) {
            Some(k) => Some(self.places[k]),
            None => None,
        }
    }

    /// The first unit of the block that begins at an address.
    pub(crate) fn place_of_block(&self, address: u64) -> usize
        requires { has self.now.starts.items address ≡ true }
        ensures { IsUnitAt self.now.units.items result address }
    {
        self.block_at(address).unwrap()
    }

    /// The first unit of the block at an address, if a jump by a register may reach that.
    #[inline(always)]
    pub(crate) fn reached_at(&self, address: u64) -> Option<usize>
        ensures { MatchOption result (has self.now.reached.items address ≡ false) (λ k. (has self.now.reached.items address ≡ true) × IsUnitAt self.now.units.items k address) }
    {
        match landing(&self.reached_landings, &self.units, self.first, address) {
            Some(place) => Some(place),
            None => self.found_reached(address),
        }
    }

    /// The same, by binary search.
    #[cold]
    #[inline(never)]
    fn found_reached(&self, address: u64) -> Option<usize>
        ensures { MatchOption result (has self.now.reached.items address ≡ false) (λ k. (has self.now.reached.items address ≡ true) × IsUnitAt self.now.units.items k address) }
    {
        match place_of(&self.reached, address) {
            Some(_) => self.block_at(address),
            None => None,
        }
    }
}

/// Whether a range holds the `n` bytes from an address on.
#[inline(always)]
fn holds(range: Range, at: u32, n: u32) -> bool
    ensures { IsTrue result → (i : ℕ) → i < n → in_range range (at + i) ≡ true }
{
    let Range { base, size } = range;
    at >= base && at - base <= size && n <= size - (at - base)
}
