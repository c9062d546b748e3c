ghost use Rattle.std.specs.Prelude.{◌≡◌, ◌<◌, IfOk, option_map};
ghost use Rattle.board_config.specs.{Values.{all_of}, Limits.{within, range_of, aligned_range, area_ranges, grain_from, bss_from}};

use crate::board::Range;
use std::alloc::{AllocError, Global};

/// The numbers from `least` to `most`.
#[derive(Clone, Copy)]
pub struct Bounds {
    pub least: u32,
    pub most: u32,
}

impl Bounds {
    /// The number, if it is within the bounds.
    pub fn number(self, value: i64) -> Option<u32>
        ensures { result ≡ within self.least self.most value }
    {
        let number = u32::try_from(value).ok()?;
        if self.least <= number && number <= self.most {
            Some(number)
        } else {
            None
        }
    }
}

/// How a range of scratchpad or patch memory is measured.
#[derive(Clone, Copy)]
pub struct Measure {
    /// Base and size are multiples of so many bytes.
    pub unit: u32,
    /// The size is at most so many bytes.
    pub most: u32,
}

/// The range of a base and a size: it has a byte at least, and the address behind it is a 32-bit number.
pub fn range(pair: (i64, i64)) -> Option<Range>
    ensures { result ≡ range_of pair }
{
    let base = u32::try_from(pair.0).ok()?;
    let size = u32::try_from(pair.1).ok()?;
    if size >= 1 && size <= u32::MAX - base {
        Some(Range { base, size })
    } else {
        None
    }
}

/// The range of a base and a size, if the measure allows it.
pub fn measured_range(pair: (i64, i64), measure: Measure) -> Option<Range>
    requires { 0 < measure.unit }
    ensures { result ≡ aligned_range measure.unit measure.most pair }
{
    let range = range(pair)?;
    let aligned = range.base % measure.unit == 0 && range.size % measure.unit == 0;
    if aligned && range.size <= measure.most {
        Some(range)
    } else {
        None
    }
}

/// The ranges of at most 16 areas.
pub fn areas(alloc: Global, pairs: &[(i64, i64)]) -> Result<Option<Vec<Range>>, AllocError>
    ensures { IfOk result (λ areas. option_map (λ a. a.items) areas ≡ area_ranges pairs.now) }
{
    if pairs.len() > 16 {
        return Ok(None);
    }
    ranges(alloc, pairs)
}

fn ranges(alloc: Global, pairs: &[(i64, i64)]) -> Result<Option<Vec<Range>>, AllocError>
    ensures { IfOk result (λ ranges. option_map (λ r. r.items) ranges ≡ all_of range_of pairs.now) }
{
    let mut ranges = Vec::new(alloc);
    for pair in pairs {
        let Some(range) = range(*pair) else {
            return Ok(None);
        };
        ranges.push(range)?;
    }
    Ok(Some(ranges))
}

/// The grain, of 16, 32 or 64 bytes.
pub fn grain(value: i64) -> Option<u32>
    ensures { result ≡ grain_from value }
{
    match u32::try_from(value) {
        Ok(grain) if grain == 16 || grain == 32 || grain == 64 => Some(grain),
        _ => None,
    }
}

/// Whether objects in sections without bytes in the file may move.
pub fn bss_movable(text: &str) -> Option<bool>
    ensures { result ≡ bss_from text.now }
{
    match text {
        "fixed" => Some(false),
        "movable" => Some(true),
        _ => None,
    }
}
