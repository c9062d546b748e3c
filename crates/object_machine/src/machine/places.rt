use crate::events::Access;
use crate::machine::Source;
use crate::spots::Spot;
use cell_values::{Val, low_site};
use object_graph::Site;
use rv32im::ImmKind;

/// Reasons of an address fault: outside of its object, misaligned, no memory, an object by a number, and neither
/// a number nor an address.
const OUTSIDE: u32 = 1;

const MISALIGNED: u32 = 2;

const NO_MEMORY: u32 = 3;

const OBJECT_BY_NUMBER: u32 = 4;

const NO_ADDRESS: u32 = 5;

/// And a store into an object that isn't writable.
const NOT_WRITABLE: u32 = 9;

impl Source {
    ghost use Rattle.std.specs.Prelude.{◌≡◌, ◌+◌, ◌<◌, ◌≤◌, ◌%◌, ◌==◌, if◌then◌else◌, Some, None, length};
    ghost use Rattle.list_checks.specs.First.{first_below};
    ghost use Rattle.cell_values.specs.Objects.{IsGrain, IsOfGraph, object_of, objects_of, home_address};
    ghost use Rattle.object_machine.specs.{State.{value}, Places.{located, byte_fault, fault_from, in_fixed, byte_place, write_fault, address_of}, Step.{access_in}, Units.{target_of, FitsSite}, Spots.{where_of, IsWidth, HasByte, Spans}, Machine.{seen, seen_state}};

    /// The site that the present unit is.
    #[inline(always)]
    pub(super) fn site(&self) -> Option<Site>
        ensures site { target_of result ≡ (seen self.now).site self.now.pc }
        ensures fits { FitsSite (length self.now.tables.graph.objects.items) result }
    {
        self.tables.units[self.place].site
    }

    /// Where a load or a store goes by a register: at a site by the object that it names.
    #[inline(always)]
    fn address(&self, rs1: u8, imm: i32) -> Val
        requires { rs1 < 32 }
        ensures value { result ≡ address_of (seen self.now) ((seen self.now).site self.now.pc) (value (seen_state self.now).regs rs1) imm }
        ensures of { IsOfGraph self.now.tables.graph result }
    {
        match self.site() {
            Some(site) => {
                let base = self.register(rs1);
                low_site(&base, site.object, site.offset, &self.tables.graph)
            }
            None => self.imm_operated(ImmKind::Addi, rs1, imm),
        }
    }

    /// The place of a load or a store of `width` bytes.
    #[inline(always)]
    pub(super) fn spot_of(&self, width: u32, rs1: u8, imm: i32) -> Spot
        requires width { IsWidth width }
        requires rs1 { rs1 < 32 }
        ensures place { let p = seen self.now in
            where_of result ≡ located p width (address_of p (p.site self.now.pc) (value (seen_state self.now).regs rs1) imm) }
        ensures spans { Spans self.now.tables width result }
    {
        let address = self.address(rs1, imm);
        self.located(width, &address)
    }

    /// The place of an access of `width` bytes at a value.
    #[inline(always)]
    fn located(&self, width: u32, address: &Val) -> Spot
        requires width { IsWidth width }
        requires of { IsOfGraph self.now.tables.graph address.now }
        ensures place { where_of result ≡ located (seen self.now) width address.now }
        ensures spans { Spans self.now.tables width result }
    {
        match *address {
            Val::Int(at) => self.located_number(width, at),
            Val::Addr { obj, off } => self.located_offset(width, obj, off),
            _ => Spot::Nowhere(NO_ADDRESS),
        }
    }

    /// That at a number.
    #[inline(always)]
    pub(super) fn located_number(&self, width: u32, at: u32) -> Spot
        requires { IsWidth width }
        ensures place { where_of result ≡ located (seen self.now) width (Val.Int at) }
        ensures spans { Spans self.now.tables width result }
    {
        if at % width != 0 {
            return Spot::Nowhere(MISALIGNED);
        }
        match self.fixed_fault(at, width) {
            Some(why) => Spot::Nowhere(why),
            None => Spot::Fixed(at),
        }
    }

    /// That behind the home of an object.
    #[inline(always)]
    pub(super) fn located_offset(&self, width: u32, object: u32, offset: u32) -> Spot
        requires width { IsWidth width }
        requires object { object < length self.now.tables.graph.objects.items }
        ensures place { where_of result ≡ located (seen self.now) width (Val.Addr object offset) }
        ensures spans { Spans self.now.tables width result }
    {
        let found = &self.tables.graph.objects[object as usize];
        if found.home.wrapping_add(offset) % width != 0 {
            return Spot::Nowhere(MISALIGNED);
        }
        if u64::from(offset) + u64::from(width) <= u64::from(found.size) {
            Spot::Object { object, offset }
        } else {
            Spot::Nowhere(OUTSIDE)
        }
    }

    /// Why the first of the `n` bytes from an address that is no fixed memory is none.
    #[inline(always)]
    fn fixed_fault(&self, at: u32, n: u32) -> Option<u32>
        requires { at + n ≤ 4294967296 }
        ensures { result ≡ first_below (fault_from (seen self.now) at) n }
    {
        if self.tables.is_wide(at, n) {
            return None;
        }
        self.searched_fault(at, n)
    }

    /// The same, by a search among the ranges of fixed memory.
    #[inline(never)]
    fn searched_fault(&self, at: u32, n: u32) -> Option<u32>
        requires { at + n ≤ 4294967296 }
        ensures { result ≡ first_below (fault_from (seen self.now) at) n }
    {
        if self.tables.is_in_one(at, n) {
            return None;
        }
        self.found_fault(at, n)
    }

    /// The same, by a search for each byte.
    #[cold]
    #[inline(never)]
    #[tactic(auto, using(list_checks::proofs::FirstLemmas::first_found))]
    fn found_fault(&self, at: u32, n: u32) -> Option<u32>
        requires { at + n ≤ 4294967296 }
        ensures { result ≡ first_below (fault_from (seen self.now) at) n }
    {
        for i in 0..n {
            if let Some(why) = self.byte_fault(at + i) {
                return Some(why);
            }
        }
        None
    }

    /// Why the byte at an address is no fixed memory, if it is none.
    fn byte_fault(&self, at: u32) -> Option<u32>
        ensures { result ≡ byte_fault (seen self.now) at }
    {
        if self.tables.is_fixed(at) {
            None
        } else if self.is_held(at) {
            Some(OBJECT_BY_NUMBER)
        } else {
            Some(NO_MEMORY)
        }
    }

    /// Whether an object lies at an address while it is at home.
    fn is_held(&self, at: u32) -> bool
        ensures { result ≡ (seen self.now).is_held at }
    {
        self.tables.graph.objects.iter().any(|object| {
            let home = u64::from(object.home);
            home <= u64::from(at) && u64::from(at) < home + u64::from(object.size)
        })
    }

    /// The place of the byte that a call moves, `i` bytes behind a value.
    pub(super) fn byte_place(&self, start: &Val, i: u32) -> Spot
        requires { IsOfGraph self.now.tables.graph start.now }
        ensures place { where_of result ≡ byte_place (seen self.now) start.now i }
        ensures byte { HasByte self.now.tables result 0 }
    {
        match *start {
            Val::Int(at) => self.byte_at(at, i),
            Val::Addr { obj, off } => self.byte_behind(obj, off, i),
            _ => Spot::Nowhere(NO_ADDRESS),
        }
    }

    /// That behind a number. None lies behind 2 ^ 32.
    fn byte_at(&self, at: u32, i: u32) -> Spot
        ensures place { where_of result ≡ byte_place (seen self.now) (Val.Int at) i }
        ensures byte { HasByte self.now.tables result 0 }
    {
        let Some(address) = at.checked_add(i) else {
            return Spot::Nowhere(NO_MEMORY);
        };
        match self.byte_fault(address) {
            Some(why) => Spot::Nowhere(why),
            None => Spot::Fixed(address),
        }
    }

    /// That behind the home of an object.
    fn byte_behind(&self, object: u32, offset: u32, i: u32) -> Spot
        requires { object < length self.now.tables.graph.objects.items }
        ensures place { where_of result ≡ byte_place (seen self.now) (Val.Addr object offset) i }
        ensures byte { HasByte self.now.tables result 0 }
    {
        let size = self.tables.graph.objects[object as usize].size;
        match offset.checked_add(i) {
            Some(place) if place < size => Spot::Object {
                object,
                offset: place,
            },
            _ => Spot::Nowhere(OUTSIDE),
        }
    }

    /// Why a place can't be written.
    #[inline(always)]
    pub(super) fn write_fault(&self, spot: &Spot) -> Option<u32>
        requires { HasByte self.now.tables spot.now 0 }
        ensures { result ≡ write_fault (seen self.now) (where_of spot.now) }
    {
        match *spot {
            Spot::Fixed(_) => None,
            Spot::Object { object, .. } => {
                let found = &self.tables.graph.objects[object as usize];
                if found.writable {
                    None
                } else {
                    Some(NOT_WRITABLE)
                }
            }
            Spot::Nowhere(why) => Some(why),
        }
    }
}

impl Spot {
    ghost use Rattle.std.specs.Prelude.{◌≡◌};
    ghost use Rattle.object_machine.specs.{Step.{access_in}, Spots.{where_of}};

    /// The access that a load or a store there is.
    #[inline(always)]
    pub(crate) fn access(&self, write: bool) -> Option<Access>
        ensures { result ≡ access_in (where_of self.now) write }
    {
        match *self {
            Spot::Object { object, offset } => Some(Access {
                object,
                offset,
                write,
            }),
            Spot::Fixed(_) | Spot::Nowhere(_) => None,
        }
    }
}
