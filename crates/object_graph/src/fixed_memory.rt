ghost use Rattle.std.specs.Prelude.{◌≡◌, ℕ, ◌+◌, ◌<◌, ◌≤◌, IfOk};
ghost use Rattle.std.specs.List.{AllPairs, list_any};
ghost use Rattle.elf_reader.specs.File.{plain_view};
ghost use Rattle.object_graph.specs.{Graphs.{IsGraph}, Sites.{in_range, is_fixed_memory}};

use crate::Graph;
use crate::changing_memory::changing_spans;
use crate::mapped_memory::mapped_spans;
use crate::remaining_spans::ranges_left;
use board_config::{Board, Range};
use elf_reader::ElfView;
use std::alloc::{AllocError, Global};

/// The ranges of fixed memory, ascending and disjoint.
///
/// Fixed is what is mapped, main or an area, and stays as it is: it is no part of the scratchpad, of the patch
/// range, of code or of an object that may move, and no byte of the file's header or symbol table that a
/// segment loads. One range may begin where another ends. It fails only where no memory was left.
pub fn fixed_ranges(
    alloc: Global,
    view: &ElfView,
    board: &Board,
    graph: &Graph,
) -> Result<Vec<Range>, AllocError>
    requires graph { IsGraph (plain_view view.now) board.now graph.now }
    ensures disjoint { IfOk result (λ ranges. AllPairs (λ r q. r.base + r.size ≤ q.base) ranges.items) }
    ensures exact { IfOk result (λ ranges. (a : ℕ) → a < 4294967296 → list_any (λ r. in_range r a) ranges.items ≡ is_fixed_memory (plain_view view.now) board.now a) }
{
    let kept = mapped_spans(alloc, board)?;
    let cut = changing_spans(alloc, view, board, graph)?;
    match ranges_left(alloc, &kept, &cut) {
        Ok(ranges) => Ok(ranges),
        Err(error) => Err(error),
    }
}
