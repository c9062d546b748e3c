ghost use Rattle.std.specs.Prelude.{◌≡◌, ◌≤◌, List, [], ◌∷◌, IfSome, IsTrue};
ghost use Rattle.board_config.specs.declared.board.Range.{Range};
ghost use Rattle.flat_machine.specs.{Mapping.{is_mapped, all_mapped, is_inside_one, IsPart}, Mapping.{can_access, can_move}, Reach.{IsMappedReach}};

use crate::reach::Reach;
use board_config::Range;

/// Whether an address lies in one of the ranges.
fn has_byte(map: &[Range], at: u64) -> bool
    ensures { result ≡ is_mapped map.now at }
{
    map.iter().any(|range| {
        let base = u64::from(range.base);
        base <= at && at < base + u64::from(range.size)
    })
}

/// Whether a range holds all of the `n` addresses from `at`.
pub fn is_inside(range: &Range, at: u32, n: u32) -> bool
    ensures { result ≡ is_inside_one (range.now ∷ []) at n }
{
    range.base <= at
        && u64::from(at) + u64::from(n) <= u64::from(range.base) + u64::from(range.size)
}

/// The first range that holds all of the `n` addresses from `at`, if there is one.
#[tactic(auto, using(crate::proofs::Spans::found_is_part))]
pub fn range_around(map: &[Range], at: u32, n: u32) -> Option<Range>
    ensures { IfSome result (λ range. IsPart range map.now) }
{
    for range in map {
        if is_inside(range, at, n) {
            return Some(*range);
        }
    }
    None
}

/// Whether one of the ranges holds all of the `n` addresses from `at`.
fn has_span_in_one(map: &[Range], at: u32, n: u32) -> bool
    ensures { result ≡ is_inside_one map.now at n }
{
    let end = u64::from(at) + u64::from(n);
    map.iter().any(|range| {
        range.base <= at && end <= u64::from(range.base) + u64::from(range.size)
    })
}

/// Whether each of the `n` addresses from `at` is mapped, one by one.
// Rare: most accesses lie in one range.
#[cold]
#[inline(never)]
#[tactic(auto, using(crate::proofs::Spans::unmapped_at))]
fn has_each(map: &[Range], at: u32, n: u32) -> bool
    ensures { result ≡ all_mapped map.now at n }
{
    for i in 0..n {
        if !has_byte(map, u64::from(at) + u64::from(i)) {
            return false;
        }
    }
    true
}

/// Whether the `n` addresses from `at` are mapped. Most accesses lie in one range, which is asked
/// first.
#[inline(always)]
#[tactic(auto, using(crate::proofs::Spans::mapped_inside_one))]
fn has_span(map: &[Range], at: u32, n: u32) -> bool
    ensures { result ≡ all_mapped map.now at n }
{
    has_span_in_one(map, at, n) || has_each(map, at, n)
}

/// Whether a fetch, load or store of `width` bytes at `at` is aligned and mapped.
// Inlined, so that the width is known.
#[inline(always)]
pub fn has_access(map: &[Range], at: u32, width: u32) -> bool
    requires { 1 ≤ width }
    ensures { result ≡ can_access map.now at width }
{
    at % width == 0 && has_span(map, at, width)
}

/// Whether a call can move the `n` bytes at `at`: none passes 2 ^ 32, and each is mapped.
pub fn has_move(map: &[Range], at: u32, n: u32) -> bool
    ensures { result ≡ can_move map.now at n }
{
    u64::from(at) + u64::from(n) <= 0x1_0000_0000 && has_span(map, at, n)
}

/// A reach without an address.
pub fn no_reach() -> Reach
    ensures { (map : List Range) → IsMappedReach result map }
{
    Reach { first: 1, last: 0 }
}

/// The addresses from each of which a range holds four bytes.
pub fn reach_of(range: &Range) -> Reach
    ensures { (map : List Range) → IsPart range.now map → IsMappedReach result map }
{
    if range.size < 4 {
        return no_reach();
    }
    let last = u64::from(range.base) + u64::from(range.size) - 4;
    Reach {
        first: range.base,
        last: last.min(u64::from(u32::MAX)) as u32,
    }
}

/// Whether an address is in a reach, so that the four bytes from it on are mapped.
#[inline(always)]
pub fn is_near(reach: &Reach, at: u32) -> bool
    ensures { IsTrue result → (map : List Range) → IsMappedReach reach.now map
        → IsTrue (is_inside_one map at 4) }
{
    reach.first <= at && at <= reach.last
}
