ghost use Rattle.std.specs.Prelude.{◌≡◌, ℕ, ◌||◌, OnOk};
ghost use Rattle.std.specs.List.{All, list_any};
ghost use Rattle.object_graph.specs.{Sites.{in_range}, Spans.{span_of, IsShort, holds, any_holds}};

use board_config::Range;
use std::alloc::AllocError;

/// The addresses from `start` on that are below `end`.
#[derive(Clone, Copy)]
pub(crate) struct Span {
    pub(crate) start: u64,
    pub(crate) end: u64,
}

/// Which bound of a span.
#[derive(Clone, Copy)]
pub(crate) enum Bound {
    /// Its first address.
    First,
    /// The address behind it.
    Behind,
}

/// The addresses of a range.
pub(crate) fn span_of(range: &Range) -> Span
    ensures span { result ≡ span_of range.now }
    ensures short { IsShort result }
{
    let start = u64::from(range.base);
    Span {
        start,
        end: start + u64::from(range.size),
    }
}

/// Appends a span, unless it has no address.
pub(crate) fn push_span(spans: &mut Vec<Span>, span: Span) -> Result<(), AllocError>
    ensures held { OnOk result ((a : ℕ) → any_holds spans.new.items a ≡ (any_holds spans.old.items a || holds a span)) }
    ensures short { All IsShort spans.old.items → IsShort span → OnOk result (All IsShort spans.new.items) }
{
    if span.start >= span.end {
        return Ok(());
    }
    spans.push(span)?;
    Ok(())
}

/// Appends the spans of ranges.
pub(crate) fn push_ranges(spans: &mut Vec<Span>, ranges: &[Range]) -> Result<(), AllocError>
    ensures held { OnOk result ((a : ℕ) → any_holds spans.new.items a ≡ (any_holds spans.old.items a || list_any (λ r. in_range r a) ranges.now)) }
    ensures short { All IsShort spans.old.items → OnOk result (All IsShort spans.new.items) }
{
    for range in ranges {
        push_span(spans, span_of(range))?;
    }
    Ok(())
}
