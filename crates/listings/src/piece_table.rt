//! The table of pieces: for each block a dead register and the words of its first unit where it is displaced, and for
//! each piece its size, its entries and its copy.
ghost use Rattle.std.specs.Prelude.{◌≡◌, ◌<◌, ◌++◌, ◌∷◌, [], ℕ, List, length, map, IfOk, OnOk};
ghost use Rattle.board_config.specs.declared.board.Board.{Board};
ghost use Rattle.object_graph.specs.Lookups.{IsSomeGraph};
ghost use Rattle.block_splitter.specs.{Pieces.{IsPiece}, Copies.{address_in, HasSites}};
ghost use Rattle.relink_core.specs.Choices.{IsAnalysisOf};

use crate::listing::Listing;
use anyhow::Result;
use block_splitter::{Piece, can_displace, copy_of, displaced};
use code_blocks::Code;
use dataflow::LiveTable;
use object_graph::Graph;
use relink_core::Analysis;
use rv32im::RegSet;
use std::alloc::{AllocError, Global};

/// Where copies are told.
const COPY_AT: u32 = 0x0100_0000;

/// Where displaced units are told.
const DISPLACED_AT: u32 = 0x0009_0100;

/// For each block a dead register and its displaced first unit, then all pieces. Sites keep the words of the file.
pub(crate) fn list_pieces(listing: &mut Listing, analysis: &Analysis<'_>) -> Result<()>
    requires { (file : List ℕ) × (board : Board) × IsAnalysisOf file board analysis.now }
{
    let sites = own_words(listing.alloc(), &analysis.code, &analysis.graph)?;
    let blocks = u32::try_from(analysis.code.blocks.len()).unwrap_or(u32::MAX);
    for block in 0..blocks {
        list_block(listing, analysis, block, &sites)?;
    }
    for piece in &analysis.pieces {
        list_piece(listing, analysis, piece, &sites)?;
    }
    Ok(())
}

/// The word of the file at each site, by address.
fn own_words(alloc: Global, code: &Code, graph: &Graph) -> Result<Vec<(u32, u32)>, AllocError>
    requires { IsSomeGraph graph.now }
    ensures { IfOk result (λ sites. HasSites code.now graph.now sites.items) }
{
    let mut sites = Vec::new(alloc);
    for site in &graph.sites {
        push_word(&mut sites, site.at, word_at(code, site.at))?;
    }
    Ok(sites)
}

/// Adds an address and its word.
fn push_word(sites: &mut Vec<(u32, u32)>, address: u32, word: u32) -> Result<(), AllocError>
    ensures { OnOk result (map address_in sites.new.items ≡ map address_in sites.old.items ++ address ∷ []) }
{
    sites.push((address, word))?;
    Ok(())
}

/// The word of the unit at an address, or 0 where none is.
fn word_at(code: &Code, address: u32) -> u32 {
    let count = code.blocks.partition_point(|block| block.start <= address);
    let Some(block) = code.blocks.get(count.wrapping_sub(1)) else {
        return 0;
    };
    let place = address.wrapping_sub(block.start) / 4;
    match block.units.get(place as usize) {
        Some(unit) => unit.raw,
        None => 0,
    }
}

/// A block: its start, a dead register, and the words of its first unit where it is displaced.
fn list_block(
    listing: &mut Listing,
    analysis: &Analysis<'_>,
    block: u32,
    sites: &[(u32, u32)],
) -> Result<()>
    requires analysed { (file : List ℕ) × (board : Board) × IsAnalysisOf file board analysis.now }
    requires inside { block < length analysis.now.code.blocks.items }
    requires sites { HasSites analysis.now.code analysis.now.graph sites.now }
{
    let start = analysis.code.blocks[block as usize].start;
    listing.address("block ", start);
    list_dead(listing, &analysis.live, start);
    listing.text(" displaced");
    if !can_displace(&analysis.code, &analysis.graph, block, DISPLACED_AT) {
        listing.end_line();
        return Ok(());
    }
    let words = displaced(
        listing.alloc(),
        block,
        &analysis.code,
        &analysis.graph,
        DISPLACED_AT,
        sites,
    )?;
    listing.words(&words);
    Ok(())
}

/// A register that is dead where a block begins.
fn list_dead(listing: &mut Listing, live: &LiveTable, leader: u32) {
    match live.dead_at(leader, RegSet { bits: 0 }) {
        Some(register) => listing.number(" dead x", u64::from(register)),
        None => listing.text(" dead none"),
    }
}

/// A piece: its blocks, its size in bytes, its entries, where the copies of its blocks begin, and the words of its copy.
fn list_piece(
    listing: &mut Listing,
    analysis: &Analysis<'_>,
    piece: &Piece,
    sites: &[(u32, u32)],
) -> Result<()>
    requires analysed { (file : List ℕ) × (board : Board) × IsAnalysisOf file board analysis.now }
    requires piece { IsPiece analysis.now.code analysis.now.graph piece.now }
    requires sites { HasSites analysis.now.code analysis.now.graph sites.now }
{
    list_heading(listing, piece);
    let copy = copy_of(
        listing.alloc(),
        piece,
        &analysis.code,
        &analysis.live,
        &analysis.graph,
        COPY_AT,
        sites,
    )?;
    listing.text("  starts");
    list_places(listing, &copy.starts);
    listing.text("  copy");
    listing.words(&copy.words);
    Ok(())
}

/// A line with the blocks of a piece, its size in bytes and its entries.
fn list_heading(listing: &mut Listing, piece: &Piece) {
    listing.number("piece ", u64::from(piece.first));
    listing.number(" ", u64::from(piece.last));
    listing.number(" bytes ", u64::from(piece.bytes));
    listing.text(" entries");
    list_places(listing, &piece.entries);
}

/// The end of a line with these numbers, each behind a space.
fn list_places(listing: &mut Listing, places: &[u32]) {
    for place in places {
        listing.number(" ", u64::from(*place));
    }
    listing.end_line();
}
