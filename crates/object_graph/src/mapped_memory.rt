ghost use Rattle.std.specs.Prelude.{◌≡◌, ℕ, IfOk};
ghost use Rattle.std.specs.List.{All};
ghost use Rattle.object_graph.specs.{Spans.{IsShort, any_holds}, Kinds.{is_mapped}};

use crate::spans::{Span, push_ranges, push_span, span_of};
use board_config::Board;
use std::alloc::{AllocError, Global};

/// Main and the areas of a board.
pub(crate) fn mapped_spans(alloc: Global, board: &Board) -> Result<Vec<Span>, AllocError>
    ensures held { IfOk result (λ spans. (a : ℕ) → any_holds spans.items a ≡ is_mapped board.now a) }
    ensures short { IfOk result (λ spans. All IsShort spans.items) }
{
    let mut spans = Vec::new(alloc);
    push_span(&mut spans, span_of(&board.main))?;
    push_ranges(&mut spans, &board.areas)?;
    Ok(spans)
}
