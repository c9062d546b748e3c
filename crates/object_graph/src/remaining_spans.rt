ghost use Rattle.std.specs.Prelude.{◌≡◌, ◌≤◌, nat_lt, ◌&&◌, IfOk, OnOk};
ghost use Rattle.std.specs.List.{All};
ghost use Rattle.object_graph.specs.Spans.{IsShort, is_left, IsSteady, Covers};

use crate::span_bounds::bounds_of;
use crate::span_search::{SpanSearch, is_left};
use crate::spans::Span;
use board_config::Range;
use std::alloc::{AllocError, Global};

/// How many addresses there are.
const ADDRESSES: u64 = 1 << 32;

/// The addresses that lie in a span of `kept` and in none of `cut`, as ranges.
///
/// The time grows with n log n, where n is the number of spans: nothing changes between neighbouring bounds of
/// spans, so the least address of each two is looked at.
pub(crate) fn ranges_left(
    alloc: Global,
    kept: &[Span],
    cut: &[Span],
) -> Result<Vec<Range>, AllocError>
    requires { All IsShort kept.now }
    ensures { IfOk result (λ ranges. Covers kept.now cut.now ranges.items 4294967296) }
{
    let kept_search = SpanSearch::of(alloc, kept)?;
    let cut_search = SpanSearch::of(alloc, cut)?;
    match ranges_between(alloc, &kept_search, &cut_search) {
        Ok(ranges) => Ok(ranges),
        Err(error) => Err(error),
    }
}

/// Appends the addresses from `from` to before `to`, if they are left. No span begins or ends between.
fn push_left(
    ranges: &mut Vec<Range>,
    kept: &SpanSearch,
    cut: &SpanSearch,
    from: u64,
    to: u64,
) -> Result<(), AllocError>
    requires short { All IsShort kept.now.spans.now }
    requires covers { Covers kept.now.spans.now cut.now.spans.now ranges.old.items from }
    requires steady { IsSteady kept.now.spans.now cut.now.spans.now from to }
    requires order { from ≤ to }
    requires limit { to ≤ 4294967296 }
    ensures { OnOk result (Covers kept.now.spans.now cut.now.spans.now ranges.new.items to) }
{
    if starts_left(kept, cut, from, to) {
        ranges.push(Range {
            base: from as u32,
            size: (to - from) as u32,
        })?;
    }
    Ok(())
}

/// There are addresses from `from` to before `to`, and the first is left.
fn starts_left(kept: &SpanSearch, cut: &SpanSearch, from: u64, to: u64) -> bool
    requires { to ≤ 4294967296 }
    ensures { result ≡ (nat_lt from to && is_left kept.now.spans.now cut.now.spans.now from) }
{
    from < to && is_left(kept, cut, from)
}

/// The addresses that lie in a span of `kept` and in none of `cut`, which can be searched, as ranges.
fn ranges_between(
    alloc: Global,
    kept: &SpanSearch,
    cut: &SpanSearch,
) -> Result<Vec<Range>, AllocError>
    requires { All IsShort kept.now.spans.now }
    ensures { IfOk result (λ ranges. Covers kept.now.spans.now cut.now.spans.now ranges.items 4294967296) }
{
    let bounds = bounds_of(alloc, kept.spans, cut.spans)?;
    let mut ranges = Vec::new(alloc);
    let mut from = 0;
    for k in 0..bounds.len() {
        let to = bounds[k].min(ADDRESSES);
        push_left(&mut ranges, kept, cut, from, to)?;
        from = to;
    }
    push_left(&mut ranges, kept, cut, from, ADDRESSES)?;
    Ok(ranges)
}
