ghost use Rattle.std.specs.Prelude.{◌≡◌, ◌≢◌, ◌⊎◌, ◌↔◌, ℕ, ◌<◌, List, [], ◌∷◌, length};
ghost use Rattle.dataflow.specs.{Points.{IsHolder, site_at}, Flows.{Passes}};
ghost use Rattle.points_to.specs.Rows.{Has, row, AreRows};
ghost use Rattle.object_graph.specs.declared.parts.Site.{Site};
ghost use Rattle.code_blocks.specs.declared.parts.Unit.{Unit};

use code_blocks::Unit;
use dataflow::{first_source, second_source, stored, written};
use object_graph::Site;

/// A set of places: place `k` is in it where bit `k` of `bits` is 1. Places 1 to 31 are registers; place 0 is
/// memory, since x0 holds no address.
#[derive(Clone, Copy, PartialEq, Eq)]
pub(crate) struct Places {
    pub(crate) bits: u32,
}

/// No place.
pub(crate) const NO_PLACES: Places = Places { bits: 0 };

impl Places {
    ghost use Rattle.std.specs.Prelude.{◌≡◌, ◌⊎◌, ◌↔◌, ℕ, ◌<◌, true};
    ghost use Rattle.points_to.specs.Rows.{Has};

    /// The places of both sets.
    fn joined(self, other: Places) -> Places
        ensures { (y : ℕ) → Has result y ↔ (Has self y ⊎ Has other y) }
    {
        Places {
            bits: self.bits | other.bits,
        }
    }

    /// The places of the set, and one more.
    fn with(self, place: u8) -> Places
        requires { place < 32 }
        ensures { (y : ℕ) → Has result y ↔ (Has self y ⊎ (place ≡ y)) }
    {
        Places {
            bits: self.bits | (1 << place),
        }
    }

    /// The set of one place.
    fn only(place: u8) -> Places
        requires { place < 32 }
        ensures { (y : ℕ) → Has result y ↔ (place ≡ y) }
    {
        NO_PLACES.with(place)
    }

    /// Whether the set has the place.
    pub(crate) fn has(self, place: u8) -> bool
        requires { place < 32 }
        ensures { (result ≡ true) ↔ Has self place }
    {
        (self.bits >> place) & 1 == 1
    }
}

/// Behind the last unit each register leads to itself.
pub(crate) fn begin(rows: &mut [Places])
    requires { length rows.old ≡ 32 }
    ensures { (sites : List Site) → AreRows sites [] rows.new }
{
    for x in 0..32 {
        rows[x as usize] = Places::only(x);
    }
}

/// Goes back over one unit.
pub(crate) fn go_back(rows: &mut [Places], unit: &Unit, site: Option<Site>)
    requires { length rows.old ≡ 32 }
    ensures { (sites : List Site) (us : List Unit) → site_at sites unit.now.at ≡ site → AreRows sites us rows.old → AreRows sites (unit.now ∷ us) rows.new }
{
    let to = written(unit.instr);
    let first = first_source(site, unit.instr);
    let second = second_source(unit.instr);
    carry(rows, to, first, second);
    add(rows, stored(unit.instr), Places::only(0));
}

/// What the two registers held, register `to` holds afterwards, and nothing else.
fn carry(rows: &mut [Places], to: u8, first: u8, second: u8)
    requires { length rows.old ≡ 32 }
    ensures whole { length rows.new ≡ 32 }
    ensures rows { (x y : ℕ) → IsHolder x → Has (row rows.new x) y ↔ (((x ≢ to) × Has (row rows.old x) y) ⊎ (IsHolder to × ((x ≡ first) ⊎ (x ≡ second)) × Has (row rows.old to) y)) }
{
    if to == 0 || to > 31 {
        return;
    }
    let kept = rows[to as usize];
    rows[to as usize] = NO_PLACES;
    add(rows, first, kept);
    add(rows, second, kept);
}

/// Register `x` leads to these places too.
fn add(rows: &mut [Places], x: u8, places: Places)
    requires { length rows.old ≡ 32 }
    ensures whole { length rows.new ≡ 32 }
    ensures rows { (k y : ℕ) → k < 32 → Has (row rows.new k) y ↔ (Has (row rows.old k) y ⊎ ((k ≡ x) × Has places y)) }
{
    if x > 31 {
        return;
    }
    rows[x as usize] = rows[x as usize].joined(places);
}
