//! The place of the first object in the scratchpad, and the words that lead to it there.
ghost use Rattle.std.specs.Prelude.{◌≡◌, ℕ, ◌<◌, List, length, IfOk, IfSome};
ghost use Rattle.elf_reader.specs.File.{PlainView, plain_view};
ghost use Rattle.board_config.specs.Board.{IsLawful};
ghost use Rattle.loaded_file.specs.Read.{IsRead};
ghost use Rattle.object_graph.specs.Graphs.{IsGraph};
ghost use Rattle.placement_programme.specs.{Rows.{data_span, rounded_up}, Views.{plain_side}};
ghost use Rattle.relocator.specs.{declared.slots.Slot.{Slot}, Placing.{rows_of, IsTable}, Examples.{table_side}};
ghost use Rattle.cell_values.specs.Objects.{datum_of};
ghost use Rattle.relink_core.specs.Choices.{IsAnalysisOf};

use crate::listing::Listing;
use anyhow::Result;
use board_config::Board;
use elf_reader::ElfView;
use object_graph::Graph;
use placement_programme::{Choice, Programme, Side, Var, VarName, feasible};
use relink_core::Analysis;
use relocator::{Places, layout, site_words};
use std::alloc::{AllocError, Global};

/// How many bytes of stubs a choice has room for.
const STUB_ROOM: u64 = 65_452;

/// How many bytes of stubs the copy job of an object takes.
const JOB: u64 = 44;

/// A number rounded up to a multiple of the grain.
fn rounded_up(grain: u64, n: u64) -> u64
    requires grain { 0 < grain }
    requires small { grain < 4294967296 }
    requires bound { n < 8589934592 }
    ensures { result ≡ rounded_up grain n }
{
    (n + (grain - 1)) / grain * grain
}

/// How many bytes of the scratchpad the first object of a graph takes.
fn first_span(graph: &Graph) -> u64
    requires some { 0 < length graph.now.objects.items }
    requires grain { 0 < graph.now.grain }
    ensures { result ≡ data_span graph.now.grain (datum_of graph.now 0) }
{
    let object = &graph.objects[0];
    let low = object.home % graph.grain;
    let bytes = u64::from(low) + u64::from(object.size);
    rounded_up(u64::from(graph.grain), bytes)
}

/// The side of a programme whose one variable is the first object.
fn first_side(alloc: Global, graph: &Graph, board: &Board) -> Result<Option<Side>, AllocError>
    requires some { 0 < length graph.now.objects.items }
    requires grain { 0 < graph.now.grain }
    ensures { IfOk result (λ side. IfSome side (λ s. plain_side s ≡ table_side graph.now board.now)) }
{
    let table = Var {
        name: VarName::StaticData { object: 0 },
        gain: 1,
        weights: vec![in alloc; (0u32, first_span(graph)), (1u32, JOB)]?,
    };
    let rows = vec![in alloc; u64::from(board.spm.size), STUB_ROOM]?;
    Ok(Side::of(0, rows, vec![in alloc; table]?))
}

/// The places with that side, if the object fits.
fn laid_out(
    alloc: Global,
    off: Side,
    graph: &Graph,
    board: &Board,
) -> Result<Option<Places>, AllocError>
    requires lawful { IsLawful board.now }
    requires graph { (v : PlainView) × IsGraph v board.now graph.now }
    requires some { 0 < length graph.now.objects.items }
    requires side { plain_side off ≡ table_side graph.now board.now }
    ensures { IfOk result (λ found. IfSome found (λ places. (slots : List Slot) × IsTable graph.now 0 slots (rows_of places.of.items))) }
{
    let p = Programme {
        base: 1,
        off,
        on: None,
    };
    let c = Choice {
        on: false,
        take: vec![in alloc; 0u32]?,
    };
    if feasible(&p, &c) {
        match layout(alloc, &p, &c, graph, 0, board) {
            Ok(places) => Ok(Some(places)),
            Err(error) => Err(error),
        }
    } else {
        Ok(None)
    }
}

/// The places with the first object in the scratchpad, if it fits.
fn first_placed(alloc: Global, graph: &Graph, board: &Board) -> Result<Option<Places>, AllocError>
    requires lawful { IsLawful board.now }
    requires graph { (v : PlainView) × IsGraph v board.now graph.now }
    ensures { IfOk result (λ found. IfSome found (λ places. (slots : List Slot) × IsTable graph.now 0 slots (rows_of places.of.items))) }
{
    if graph.objects.is_empty() {
        return Ok(None);
    }
    match first_side(alloc, graph, board)? {
        Some(off) => laid_out(alloc, off, graph, board),
        None => Ok(None),
    }
}

/// The new words where no region is current.
fn first_words(
    alloc: Global,
    view: &ElfView,
    graph: &Graph,
    places: &Places,
) -> Result<Vec<(u32, u32)>, AllocError>
    requires read { IsRead view.now }
    requires graph { (board : Board) × IsGraph (plain_view view.now) board graph.now }
    requires table { (slots : List Slot) × IsTable graph.now 0 slots (rows_of places.now.of.items) }
{
    let region_at = vec![in alloc; 0u32; graph.sites.len()]?;
    site_words(alloc, view, graph, places, &region_at)
}

/// The place of the first object and the words that lead to it there, or that it doesn't fit.
pub(crate) fn list_moved(
    listing: &mut Listing,
    analysis: &Analysis<'_>,
    board: &Board,
) -> Result<()>
    requires lawful { IsLawful board.now }
    requires analysed { (file : List ℕ) × IsAnalysisOf file board.now analysis.now }
{
    let Some(places) = first_placed(listing.alloc(), &analysis.graph, board)? else {
        listing.line("no room");
        return Ok(());
    };
    list_first_row(listing, &places);
    let words = first_words(listing.alloc(), &analysis.view, &analysis.graph, &places)?;
    list_site_words(listing, &words);
    Ok(())
}

/// A line for each place of the first object.
fn list_first_row(listing: &mut Listing, places: &Places) {
    if let Some(row) = places.of.first() {
        for place in row {
            listing.address("place ", *place);
            listing.end_line();
        }
    }
}

/// A line for each address and its word.
fn list_site_words(listing: &mut Listing, words: &[(u32, u32)]) {
    for (at, word) in words {
        listing.address("word ", *at);
        listing.address(" ", *word);
        listing.end_line();
    }
}
