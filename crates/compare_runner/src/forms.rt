//! Whether control is at a form of a unit.
ghost use Rattle.std.specs.Prelude.{◌≡◌, ◌↔◌, ◌<◌, ◌≤◌, nat_lt, true, false, IsTrue, MatchBool, length, slice_index_or};
ghost use Rattle.std.specs.List.{AllPairs};
ghost use Rattle.std.specs.List.Sorted.{IsPartitionPoint};
ghost use Rattle.relink_core.specs.UnitMaps.{StandsBefore};
ghost use Rattle.compare_runner.specs.Seeking.{IsReached, IsPresent, Counts, HasForm};

use relink_core::UnitAt;

/// A unit whose forms are looked for.
#[derive(Clone, Copy)]
pub(crate) struct Sought<'a> {
    /// The forms of all units, in order.
    pub(crate) units: &'a [UnitAt],
    /// The region that was current before.
    pub(crate) from: u32,
    /// The region that is current.
    pub(crate) to: u32,
    /// The unit's own address.
    pub(crate) home: u32,
}

/// How many forms stand before an address.
fn forms_before(units: &[UnitAt], at: u32) -> usize
    requires { AllPairs StandsBefore units.now }
    ensures bound { result ≤ length units.now }
    ensures point { IsPartitionPoint (λ x. nat_lt x.at at ≡ true) (λ x. nat_lt x.at at ≡ false) units.now result }
{
    units.partition_point(|form| form.at < at)
}

/// Whether what stands in a region alone is there already: that region was current before, or control has been in the
/// patch range, which switches.
fn is_reached(region: u32, sought: &Sought, patched: bool) -> bool
    ensures { IsTrue result ↔ IsReached sought.now patched region }
{
    region == sought.to && (sought.from == sought.to || patched)
}

/// Whether what stands in a region, or in every one, is there.
fn is_present(region: u32, sought: &Sought, patched: bool) -> bool
    ensures { IsTrue result ↔ IsPresent sought.now patched region }
{
    region == 0 || is_reached(region, sought, patched)
}

/// Whether a form is one of the unit, and stands there.
fn counts(form: UnitAt, sought: &Sought, patched: bool) -> bool
    ensures { MatchBool result (Counts sought.now patched form) (Counts sought.now patched form → ⊥) }
{
    form.home == sought.home && is_present(form.region, sought, patched)
}

/// A form of a list.
fn form_at(units: &[UnitAt], k: usize) -> UnitAt
    requires { k < length units.now }
    ensures { (d : UnitAt) → result ≡ slice_index_or units.now k d }
{
    units[k]
}

/// Whether control is at a form of the unit. `patched` tells that the last word was fetched in the patch range.
pub(crate) fn is_at_form(sought: &Sought, patched: bool, pc: u32) -> bool
    requires { AllPairs StandsBefore sought.now.units.now }
    ensures { MatchBool result (HasForm sought.now patched pc) (HasForm sought.now patched pc → ⊥) }
{
    let first = forms_before(sought.units, pc);
    let count = sought.units.len();
    for k in first..count {
        let form = form_at(sought.units, k);
        if form.at != pc {
            return false;
        }
        if counts(form, sought, patched) {
            return true;
        }
    }
    false
}
