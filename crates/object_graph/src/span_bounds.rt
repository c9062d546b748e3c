ghost use Rattle.std.specs.Prelude.{◌≡◌, ℕ, Bool, ◌||◌, IfOk, OnOk};
ghost use Rattle.std.specs.List.{list_any};
ghost use Rattle.std.specs.List.Sorted.{IsStrictlyIncreasing};
ghost use Rattle.object_graph.specs.Spans.{at_an_end};

use crate::spans::Span;
use list_checks::arrange_once;
use std::alloc::{AllocError, Global};

/// The starts and ends of spans, ascending, each once.
pub(crate) fn bounds_of(alloc: Global, kept: &[Span], cut: &[Span]) -> Result<Vec<u64>, AllocError>
    ensures increasing { IfOk result (λ bounds. IsStrictlyIncreasing bounds.items) }
    ensures same { IfOk result (λ bounds. (test : ℕ → Bool) → list_any test bounds.items ≡ (list_any (at_an_end test) kept.now || list_any (at_an_end test) cut.now)) }
{
    let mut bounds = Vec::new(alloc);
    push_ends(&mut bounds, kept)?;
    push_ends(&mut bounds, cut)?;
    arrange_once(&mut bounds);
    Ok(bounds)
}

/// Appends the starts and ends of spans.
fn push_ends(bounds: &mut Vec<u64>, spans: &[Span]) -> Result<(), AllocError>
    ensures { OnOk result ((test : ℕ → Bool) → list_any test bounds.new.items ≡ (list_any test bounds.old.items || list_any (at_an_end test) spans.now)) }
{
    for span in spans {
        bounds.push(span.start)?;
        bounds.push(span.end)?;
    }
    Ok(())
}
