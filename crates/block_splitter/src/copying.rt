ghost use Rattle.std.specs.Prelude.{◌≡◌, ◌+◌, ◌%◌, ◌≤◌, true, length, IfOk};
ghost use Rattle.code_blocks.specs.Blocks.{IsSomeCode};
ghost use Rattle.dataflow.specs.Tables.{IsTableOf};
ghost use Rattle.object_graph.specs.Lookups.{IsSomeGraph};
ghost use Rattle.block_splitter.specs.{Forms.{holds_block}, Pieces.{IsPiece, range_of}, Copies.{HasSites, IsCopy, FallsTo, IsFallOut, words_before}, Copying.{copy_in, IsPlan, AreStarts, HasExit, CanFall, Appends, AddsBlock, AreWords}};

use crate::block_range::BlockRange;
use crate::copy_code::CopyCode;
use crate::copy_lookups::is_inside;
use crate::copy_plan::CopyPlan;
use crate::copy_starts::copy_starts;
use crate::piece::Piece;
use crate::unit_copies::{push_jump_out, push_unit};
use code_blocks::{Code, End};
use dataflow::LiveTable;
use object_graph::Graph;
use std::alloc::{AllocError, Global};

/// The words of a copy of a piece that stands at `at`, with these words at its sites. It runs as the piece does at
/// home: ways back are home addresses, and control leaves it to home addresses. It fails only where no memory was
/// left.
///
/// The time grows with n log m, where n is the number of its words, and m that of blocks and sites.
pub fn copy_of(
    alloc: Global,
    piece: &Piece,
    code: &Code,
    live: &LiveTable,
    graph: &Graph,
    at: u32,
    sites: &[(u32, u32)],
) -> Result<CopyCode, AllocError>
    requires code { IsSomeCode code.now }
    requires live { IsTableOf code.now live.now }
    requires graph { IsSomeGraph graph.now }
    requires piece { IsPiece code.now graph.now piece.now }
    requires aligned { at % 4 ≡ 0 }
    requires ends { at + piece.now.bytes ≤ 4294967296 }
    requires sites { HasSites code.now graph.now sites.now }
    ensures { IfOk result (λ copy. IsCopy (record { code = code.now; graph = graph.now; range = range_of piece.now; at = at; sites = sites.now }) copy.words.items copy.starts.items) }
{
    let range = BlockRange {
        first: piece.first,
        last: piece.last,
    };
    let plan = CopyPlan {
        code,
        live,
        graph,
        range,
        at,
        sites,
    };
    let starts = copy_starts(alloc, &plan)?;
    let words = copy_words(alloc, &plan, &starts)?;
    Ok(CopyCode { words, starts })
}

/// The words of a copy, in which its blocks begin at `starts`.
fn copy_words(alloc: Global, plan: &CopyPlan, starts: &[u32]) -> Result<Vec<u32>, AllocError>
    requires plan { IsPlan plan.now }
    requires starts { AreStarts (copy_in plan.now) starts.now }
    ensures { IfOk result (λ words. AreWords (copy_in plan.now) words.items) }
{
    let mut words = Vec::new(alloc);
    for b in plan.range.first as usize..plan.range.last as usize + 1 {
        push_block(&mut words, plan, starts, b)?;
    }
    Ok(words)
}

/// Adds the words of a block.
fn push_block(
    words: &mut Vec<u32>,
    plan: &CopyPlan,
    starts: &[u32],
    b: usize,
) -> Result<(), AllocError>
    requires plan { IsPlan plan.now }
    requires starts { AreStarts (copy_in plan.now) starts.now }
    requires block { holds_block b plan.now.range ≡ true }
    requires place { length words.old.items ≡ words_before (copy_in plan.now) b }
    ensures { IfOk result (λ _. AddsBlock (copy_in plan.now) b words.old.items words.new.items) }
{
    for k in 0..plan.code.blocks[b].units.len() {
        push_unit(words, plan, starts, b, k)?;
    }
    push_fall_out(words, plan, &plan.code.blocks[b].end)?;
    Ok(())
}

/// Adds a jump behind a block that ends so, if it falls out of the copy.
fn push_fall_out(words: &mut Vec<u32>, plan: &CopyPlan, end: &End) -> Result<(), AllocError>
    requires plan { IsPlan plan.now }
    requires exit { CanFall (copy_in plan.now) end.now }
    ensures { IfOk result (λ _. Appends words.old.items words.new.items (IsFallOut (copy_in plan.now) end.now)) }
{
    match *end {
        End::Fall { next } => push_fall(words, plan, next),
        End::Branch { next, .. } => push_fall(words, plan, next),
        End::Jump { .. } | End::Call { .. } | End::Tail { .. } | End::Indirect { .. } | End::Stop =>
            Ok(()),
    }
}

/// Adds a jump to an address, unless the copy has the block that begins there.
fn push_fall(words: &mut Vec<u32>, plan: &CopyPlan, next: u32) -> Result<(), AllocError>
    requires plan { IsPlan plan.now }
    requires exit { HasExit (copy_in plan.now) next }
    ensures { IfOk result (λ _. Appends words.old.items words.new.items (FallsTo (copy_in plan.now) next)) }
{
    if is_inside(plan, next) {
        Ok(())
    } else {
        push_jump_out(words, plan, &[], next, 0)
    }
}
