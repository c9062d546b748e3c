// Whether an address lies in one of some spans, by their sorted bounds.
ghost use Rattle.std.specs.Prelude.{◌≡◌, ◌<◌, ◌∷◌, [], ◌++◌, if◌then◌else◌, length, IfOk};
ghost use Rattle.loaded_file.specs.Listed.{IsListOf};
ghost use Rattle.object_graph.specs.{Spans.{any_holds, is_left}, SpanBounds.{is_filled, bound_at, AreBoundsOf}};

use crate::spans::{Bound, Span};
use list_checks::{arrange, count_under};
use std::alloc::{AllocError, Global};

/// Spans, and the bounds of those that have addresses.
#[derive(Drop)]
pub(crate) struct SpanSearch<'a> {
    /// The spans.
    pub(crate) spans: &'a [Span],
    /// Their first addresses, ascending.
    starts: Vec<u64>,
    /// The addresses behind them, ascending.
    ends: Vec<u64>,
    ghost bounds: { AreBoundsOf spans.now starts.items ends.items },
}

impl<'a> SpanSearch<'a> {
    ghost use Rattle.std.specs.Prelude.{◌≡◌, ◌<◌, IfOk};
    ghost use Rattle.object_graph.specs.Spans.{any_holds};

    /// Spans with their bounds. It fails only where no memory was left.
    pub(crate) fn of(alloc: Global, spans: &'a [Span]) -> Result<SpanSearch<'a>, AllocError>
        ensures { IfOk result (λ search. search.spans.now ≡ spans.now) }
    {
        let starts = bounds(alloc, spans, Bound::First)?;
        let ends = bounds(alloc, spans, Bound::Behind)?;
        Ok(SpanSearch {
            spans,
            starts,
            ends,
        })
    }

    /// An address lies in one of the spans: more of them begin there or before than end there or before.
    fn any_holds(&self, address: u64) -> bool
        requires { address < 8589934592 }
        ensures { result ≡ any_holds self.now.spans.now address }
    {
        let next = address + 1;
        count_under(&self.ends, next) < count_under(&self.starts, next)
    }
}

/// An address lies in a span of `kept` and in none of `cut`.
pub(crate) fn is_left(kept: &SpanSearch, cut: &SpanSearch, address: u64) -> bool
    requires { address < 8589934592 }
    ensures { result ≡ is_left kept.now.spans.now cut.now.spans.now address }
{
    kept.any_holds(address) && !cut.any_holds(address)
}

/// One bound of each span that has addresses, ascending.
fn bounds(alloc: Global, spans: &[Span], bound: Bound) -> Result<Vec<u64>, AllocError>
    ensures { IfOk result (λ list. IsListOf (is_filled spans.now) (bound_at bound spans.now) (length spans.now) list.items) }
{
    let mut list = Vec::new(alloc);
    for k in 0..spans.len() {
        push_bound(&mut list, spans, bound, k)?;
    }
    arrange(&mut list);
    Ok(list)
}

/// Appends a bound of span `k`, if that has addresses.
fn push_bound(list: &mut Vec<u64>, spans: &[Span], bound: Bound, k: usize) -> Result<(), AllocError>
    requires { k < length spans.now }
    ensures { IfOk result (λ _. list.new.items ≡ list.old.items ++ (if is_filled spans.now k then bound_at bound spans.now k ∷ [] else [])) }
{
    if spans[k].start < spans[k].end {
        list.push(bound_at(spans, bound, k))?;
    }
    Ok(())
}

/// A bound of span `k`.
fn bound_at(spans: &[Span], bound: Bound, k: usize) -> u64
    requires { k < length spans.now }
    ensures { result ≡ bound_at bound spans.now k }
{
    match bound {
        Bound::First => spans[k].start,
        Bound::Behind => spans[k].end,
    }
}
