ghost use Rattle.std.specs.Prelude.{◌≡◌, ◌≤◌, ◌<◌, ◌+◌, ◌&&◌, ◌++◌, ◌∷◌, [], if◌then◌else◌, IfOk, OnOk};
ghost use Rattle.list_checks.specs.Sorted.{collected};
ghost use Rattle.code_blocks.specs.{Blocks.{IsSomeCode}, Numbers.{Ascends}};
ghost use Rattle.object_graph.specs.{Lookups.{IsSomeGraph}, declared.parts.Graph.{Graph}};
ghost use Rattle.dataflow.specs.Tables.{IsTableOf};
ghost use Rattle.block_splitter.specs.{declared.block_range.BlockRange.{BlockRange}, Forms.{holds_block}, Pieces.{IsRange, is_entry, HasShape, ArePieces}, Facts.{IsTable, AreCandidates, block_count, AddsPiece}};

use crate::block_range::BlockRange;
use crate::building::table_of;
use crate::candidates::candidates;
use crate::measuring::{is_entry, measure};
use crate::piece::Piece;
use crate::sources::number_of;
use crate::table::Table;
use code_blocks::Code;
use dataflow::LiveTable;
use object_graph::Graph;
use std::alloc::{AllocError, Global};

/// The pieces of a program, by first block and then by last: each function, loop and block that may be copied into the
/// scratchpad. Errors only for want of memory.
pub fn pieces(
    alloc: Global,
    code: &Code,
    live: &LiveTable,
    graph: &Graph,
) -> Result<Vec<Piece>, AllocError>
    requires code { IsSomeCode code.now }
    requires live { IsTableOf code.now live.now }
    requires graph { IsSomeGraph graph.now }
    ensures { IfOk result (λ pieces. ArePieces code.now graph.now pieces.items) }
{
    let table = table_of(alloc, code, live, graph)?;
    let ranges = candidates(alloc, code)?;
    pieces_among(alloc, code, &table, &ranges)
}

/// The pieces among ranges that have the shape of one.
fn pieces_among(
    alloc: Global,
    code: &Code,
    table: &Table,
    ranges: &[BlockRange],
) -> Result<Vec<Piece>, AllocError>
    requires ascending { Ascends code.now }
    requires table { (g : Graph) × IsTable code.now g table.now }
    requires ranges { AreCandidates code.now ranges.now }
    ensures { IfOk result (λ pieces. (g : Graph) → IsTable code.now g table.now → ArePieces code.now g pieces.items) }
{
    let mut pieces = Vec::new(alloc);
    for k in 0..ranges.len() {
        add_piece(&mut pieces, code, table, &ranges[k])?;
    }
    Ok(pieces)
}

/// Adds the piece of a range, if it is one.
fn add_piece(
    pieces: &mut Vec<Piece>,
    code: &Code,
    table: &Table,
    range: &BlockRange,
) -> Result<(), AllocError>
    requires ascending { Ascends code.now }
    requires table { (g : Graph) × IsTable code.now g table.now }
    requires shape { HasShape code.now range.now }
    ensures { OnOk result ((g : Graph) → IsTable code.now g table.now → AddsPiece code.now g range.now pieces.old.items pieces.new.items) }
{
    let Some(words) = measure(code, table, range) else {
        return Ok(());
    };
    let entries = entries(*pieces.allocator(), code, table, range)?;
    pieces.push(Piece {
        first: range.first,
        last: range.last,
        entries,
        bytes: 4 * words as u32,
    })?;
    Ok(())
}

/// The blocks of a range by which control may enter it from outside.
fn entries(
    alloc: Global,
    code: &Code,
    table: &Table,
    range: &BlockRange,
) -> Result<Vec<u32>, AllocError>
    requires ascending { Ascends code.now }
    requires range { IsRange code.now range.now }
    requires table { (g : Graph) × IsTable code.now g table.now }
    ensures { IfOk result (λ entries. entries.items ≡ collected (λ b. holds_block b range.now && is_entry code.now range.now b) (λ b. b) (block_count code.now)) }
{
    let mut entries = Vec::new(alloc);
    for b in range.first as usize..range.last as usize + 1 {
        add_entry(&mut entries, code, table, range, b)?;
    }
    Ok(entries)
}

/// Adds block `b` of a range, if control may come to it from outside.
fn add_entry(
    entries: &mut Vec<u32>,
    code: &Code,
    table: &Table,
    range: &BlockRange,
    b: usize,
) -> Result<(), AllocError>
    requires ascending { Ascends code.now }
    requires from { range.now.first ≤ b }
    requires to { b ≤ range.now.last }
    requires below { b < block_count code.now }
    requires table { (g : Graph) × IsTable code.now g table.now }
    ensures { OnOk result (entries.new.items ≡ entries.old.items ++ (if holds_block b range.now && is_entry code.now range.now b then b ∷ [] else [])) }
{
    if is_entry(table, range, b) {
        entries.push(number_of(code, b))?;
    }
    Ok(())
}
