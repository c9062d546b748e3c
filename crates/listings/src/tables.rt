// The tables that a list asks for.
ghost use Rattle.std.specs.Prelude.{List, ℕ, IfOk};
ghost use Rattle.board_config.specs.{Board.{IsLawful}, declared.board.Board.{Board as ContractBoard}};
ghost use Rattle.loaded_file.specs.Read.{IsRead};
ghost use Rattle.relink_core.specs.Choices.{IsAnalysisOf};

use crate::code_tables::{list_blocks, list_counts, list_units};
use crate::file_tables::{
    list_leaders, list_movable, list_ranges, list_relocations, list_sections,
};
use crate::flow_tables::{list_live, list_regions};
use crate::graph_tables::{list_fixed, list_graph};
use crate::large::large_file;
use crate::listing::Listing;
use crate::moved::list_moved;
use crate::piece_table::list_pieces;
use crate::points_table::list_points;
use crate::profile_table::{list_fault, list_profile};
use crate::programme_table::list_programme;
use anyhow::{Context, Result, bail};
use board_config::{Board, read_board};
use elf_reader::{ElfView, read};
use relink_core::{Analysis, analyse};
use relinking::programme_of_run;
use shelf_io::NoProgress;
use std::alloc::Global;
use std::fs;

/// The name of the program that is made rather than read.
const LARGE: &str = "large";

/// Whether a table is of a file whose code is not followed.
fn is_of_file(table: &str) -> bool {
    matches!(
        table,
        "sections" | "ranges" | "relocations" | "movable" | "leaders"
    )
}

/// Lists tables of a file that is read, whatever the code in it.
fn list_file(listing: &mut Listing, tables: &str, bytes: &[u8], board: &Board) -> Result<()> {
    let alloc = listing.alloc();
    let view = read(alloc, bytes)?;
    for table in tables.split(',') {
        list_file_table(listing, table, &view, board)?;
    }
    Ok(())
}

/// Lists a table of a file that is read.
fn list_file_table(listing: &mut Listing, table: &str, view: &ElfView, board: &Board) -> Result<()>
    requires { IsRead view.now }
{
    list_title(listing, table);
    match table {
        "sections" => list_sections(listing, view),
        "ranges" => list_ranges(listing, view),
        "relocations" => list_relocations(listing, view),
        "movable" => list_movable(listing, view, board),
        "leaders" => list_leaders(listing, view),
        _ => bail!("a table has no known name"),
    }
}

/// The line above a table.
fn list_title(listing: &mut Listing, table: &str) {
    listing.text("-- ");
    listing.line(table);
}

/// Lists a table of an analysed program. `most` is the number of blocks that are told.
fn list_program_table(
    listing: &mut Listing,
    table: &str,
    most: usize,
    analysis: &Analysis<'_>,
    board: &Board,
) -> Result<()>
    requires lawful { IsLawful board.now }
    requires analysed { (file : List ℕ) × IsAnalysisOf file board.now analysis.now }
{
    list_title(listing, table);
    match table {
        "fixed" => list_fixed(listing, analysis, board),
        "points" => list_points(listing, analysis, most),
        "pieces" => list_pieces(listing, analysis),
        "moved" => list_moved(listing, analysis, board),
        "profile" => {
            list_profile(listing, analysis, board);
            Ok(())
        }
        _ => list_found(listing, table, most, analysis),
    }
}

/// Lists a table of what the analysis itself found.
fn list_found(
    listing: &mut Listing,
    table: &str,
    most: usize,
    analysis: &Analysis<'_>,
) -> Result<()>
    requires { (file : List ℕ) × (board : ContractBoard) × IsAnalysisOf file board analysis.now }
{
    match table {
        "graph" => list_graph(listing, &analysis.graph),
        "blocks" => list_blocks(listing, &analysis.code, most),
        "units" => list_units(listing, &analysis.code, most),
        "counts" => list_counts(listing, analysis),
        "live" => list_live(listing, &analysis.code, &analysis.live, most),
        "regions" => list_regions(listing, &analysis.regions),
        _ => bail!("a table has no known name"),
    }
    Ok(())
}

/// Lists a table of an analysed program's run with an input.
fn list_run_table(
    listing: &mut Listing,
    analysis: &Analysis<'_>,
    board: &Board,
    table: &str,
    input: &[u8],
) -> Result<()>
    requires lawful { IsLawful board.now }
    requires analysed { (file : List ℕ) × IsAnalysisOf file board.now analysis.now }
{
    list_title(listing, table);
    match programme_of_run(listing.alloc(), analysis, board, input, &NoProgress) {
        Ok(measured) => list_programme(listing, table, &measured.programme, board.nodes),
        Err(fault) => {
            list_fault(listing, &fault);
            Ok(())
        }
    }
}

/// Lists tables of an analysed program. A table is `NAME`, or `NAME=N` for the first N blocks, or `NAME<INPUT` where it
/// is of a run with the bytes of a file as its input.
fn list_tables(
    rt: &HostRuntime,
    listing: &mut Listing,
    tables: &str,
    analysis: &Analysis<'_>,
    board: &Board,
) -> Result<()>
    requires lawful { IsLawful board.now }
    requires analysed { (file : List ℕ) × IsAnalysisOf file board.now analysis.now }
{
    for table in tables.split(',') {
        if let Some((name, input)) = table.split_once('<') {
            let input = fs::read(rt, input)?;
            list_run_table(listing, analysis, board, name, &input)?;
            continue;
        }
        let (name, most) = match table.split_once('=') {
            Some((name, most)) => (name, most.parse::<usize>().context("no number of blocks")?),
            None => (table, usize::MAX),
        };
        list_program_table(listing, name, most, analysis, board)?;
    }
    Ok(())
}

/// Lists tables of a program that is analysed for a board, or the fault of its analysis.
fn list_program(
    rt: &HostRuntime,
    listing: &mut Listing,
    tables: &str,
    bytes: &[u8],
    board: &Board,
) -> Result<()>
    requires lawful { IsLawful board.now }
{
    match analyse(listing.alloc(), bytes, board) {
        Ok(analysis) => list_tables(rt, listing, tables, &analysis, board),
        Err(fault) => {
            listing.text("fault: ");
            listing.shown(fault);
            listing.end_line();
            Ok(())
        }
    }
}

/// The bytes of a file by its name.
fn bytes_of(rt: &HostRuntime, name: &str) -> Result<Vec<u8>> {
    if name == LARGE {
        Ok(large_file(rt.alloc())?)
    } else {
        Ok(fs::read(rt, name)?)
    }
}

/// The board of some keys, between which `;` stands.
fn board_of(alloc: Global, keys: &str) -> Result<Board>
    ensures { IfOk result IsLawful }
{
    let text = keys.replace(alloc, ";", "\n")?;
    Ok(read_board(alloc, text.as_bytes())?)
}

/// Lists what a line asks for: `FILE TABLE,TABLE.. KEYS`, where `;` stands between the keys of the board.
fn list_line(rt: &HostRuntime, listing: &mut Listing, line: &str) -> Result<()> {
    listing.text("== ");
    listing.line(line);
    let (file, rest) = line.split_once(' ').context("a line names no table")?;
    let (tables, keys) = rest.split_once(' ').unwrap_or((rest, ""));
    let board = board_of(listing.alloc(), keys)?;
    let bytes = bytes_of(rt, file)?;
    if tables.split(',').all(is_of_file) {
        list_file(listing, tables, &bytes, &board)
    } else {
        list_program(rt, listing, tables, &bytes, &board)
    }
}

/// Lists what each line of a list asks for. A line that is empty or begins with `#` is left aside.
pub(crate) fn list_all(rt: &HostRuntime, listing: &mut Listing, list: &str) -> Result<()> {
    for line in list.lines() {
        if !line.is_empty() && !line.starts_with('#') {
            list_line(rt, listing, line)?;
        }
    }
    Ok(())
}
