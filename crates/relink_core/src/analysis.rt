ghost use Rattle.std.specs.Prelude.{◌≡◌, ◌↔◌, ◌<◌, true, IfOk, OnOk, IfErr, None, option_map};
ghost use Rattle.std.specs.List.Sorted.{IsStrictlyIncreasing};
ghost use Rattle.list_checks.specs.First.{Reports, ReportsUnless};
ghost use Rattle.elf_reader.specs.{Faults.{first_fault}, File.{IsFile, plain_view, view_in}};
ghost use Rattle.board_config.specs.Board.{IsLawful};
ghost use Rattle.loaded_file.specs.Read.{IsRead};
ghost use Rattle.object_graph.specs.{Graphs.{IsGraph}, Lookups.{IsSomeGraph}};
ghost use Rattle.code_blocks.specs.{Blocks.{IsCode, code_fault}, Numbers.{starts_of}};
ghost use Rattle.dataflow.specs.Tables.{IsTableOf};
ghost use Rattle.block_splitter.specs.Pieces.{ArePieces};
ghost use Rattle.relink_core.specs.declared.fault.AnalyseFault.TheVariants as analyse;
ghost use Rattle.relink_core.specs.{Faults.{IsOutermost, headers_fault, file_fault, least_patch, patch_fault, places_fault, analyse_fault, ReportsAnalysis, ReportsRegions}, Regions.{HasDeadAt, ReportsDead, AreRegions}};

use crate::fault::AnalyseFault;
use block_splitter::{Piece, pieces};
use board_config::Board;
use code_blocks::{Code, blocks};
use dataflow::{LiveTable, live};
use elf_reader::{ElfFault, ElfView, read};
use object_graph::{Graph, graph};
use region_former::{RegionTable, regions};
use rv32im::RegSet;
use std::alloc::{AllocError, Global};

/// The most program headers of a file that is read. A result has one more than the program, so that many are
/// too many here.
const MOST_PROGRAM_HEADERS: u32 = 64;

/// `OverLimit::what` of program headers.
const PROGRAM_HEADERS: u32 = 2;

/// How many bytes the control words and the start stub take where the stub has no job: 21 words.
const LEAST_PATCH: u32 = 84;

/// How many bytes a FENCE.I takes.
const FENCE_I_SIZE: u32 = 4;

/// What a program and a board say of what may move.
#[derive(Drop)]
pub struct Analysis<'a> {
    /// The file.
    pub view: ElfView<'a>,
    /// The objects that may move, and where their addresses are made.
    pub graph: Graph,
    /// The blocks and functions of the code.
    pub code: Code,
    /// The registers that are live where blocks begin.
    pub live: LiveTable,
    /// The regions of the blocks.
    pub regions: RegionTable,
    /// The pieces of the code that may be copied.
    pub pieces: Vec<Piece>,
}

/// What they say before the code is followed further.
#[derive(Drop)]
struct Parts<'a> {
    view: ElfView<'a>,
    graph: Graph,
    code: Code,
}

/// Analyses a program for a board.
///
/// The error is the first check that fails, in this order: those of reading the file (`Elf`); the file has not
/// 64 program headers, the most of a file, since a result has one more (`Elf(OverLimit)`); those of where the
/// program lies (`Graph`); the patch range has room for the control words and the start stub
/// (`PatchTooSmall`), which take 84 bytes, or 88 with a FENCE.I; those of the code (`Code`); and those of the names
/// by which the board lists regions (`Region`). `Memory` comes only where no memory was left.
///
/// The time grows with n log n, where n is the number of words of code, sections, symbols, relocations and listed
/// names, and with the number of blocks of each loop.
pub fn analyse<'a>(
    alloc: Global,
    bytes: &'a [u8],
    board: &Board,
) -> Result<Analysis<'a>, AnalyseFault>
    requires lawful { IsLawful board.now }
    ensures fault { ReportsAnalysis bytes.now board.now result }
    ensures file { IfOk result (λ a. IsFile bytes.now a.view) }
    ensures graph { IfOk result (λ a. IsGraph (view_in bytes.now) board.now a.graph) }
    ensures code { IfOk result (λ a. IsCode (view_in bytes.now) a.code) }
    ensures live { IfOk result (λ a. IsTableOf a.code a.live) }
    ensures regions { IfOk result (λ a. AreRegions (view_in bytes.now) a.code board.now a.regions) }
    ensures pieces { IfOk result (λ a. ArePieces a.code a.graph a.pieces.items) }
    ensures inner { IfErr result IsOutermost }
{
    let parts = parts_of(alloc, bytes, board)?;
    let live = live(alloc, &parts.code)?;
    let pieces = pieces(alloc, &parts.code, &live, &parts.graph)?;
    match regions_of(alloc, &parts.view, board, &parts.code, &live) {
        Ok(regions) => Ok(Analysis {
            view: parts.view,
            graph: parts.graph,
            code: parts.code,
            live,
            regions,
            pieces,
        }),
        Err(fault) => Err(fault),
    }
}

/// The view, the graph and the code of a program.
fn parts_of<'a>(alloc: Global, bytes: &'a [u8], board: &Board) -> Result<Parts<'a>, AnalyseFault>
    ensures fault { ReportsUnless AnalyseFault.Memory result (analyse_fault bytes.now board.now) }
    ensures file { IfOk result (λ a. IsFile bytes.now a.view) }
    ensures graph { IfOk result (λ a. IsGraph (view_in bytes.now) board.now a.graph) }
    ensures code { IfOk result (λ a. IsCode (view_in bytes.now) a.code) }
    ensures inner { IfErr result IsOutermost }
{
    let view = read_extendable(alloc, bytes)?;
    let graph = placed_graph(alloc, &view, board)?;
    let code = code_of(alloc, &view)?;
    Ok(Parts { view, graph, code })
}

/// The regions of a program's code.
fn regions_of(
    alloc: Global,
    view: &ElfView,
    board: &Board,
    code: &Code,
    live: &LiveTable,
) -> Result<RegionTable, AnalyseFault>
    requires lawful { IsLawful board.now }
    requires code { IsCode (plain_view view.now) code.now }
    requires live { IsTableOf code.now live.now }
    ensures fault { ReportsRegions (plain_view view.now) code.now board.now result }
    ensures regions { IfOk result (AreRegions (plain_view view.now) code.now board.now) }
    ensures inner { IfErr result IsOutermost }
{
    let has_dead = dead_marks(alloc, code, live)?;
    Ok(regions(alloc, code, view, board, &has_dead)?)
}

/// Whether some register is dead where each block begins.
fn dead_marks(alloc: Global, code: &Code, live: &LiveTable) -> Result<Vec<bool>, AllocError>
    requires ascending { IsStrictlyIncreasing (starts_of code.now) }
    requires live { IsTableOf code.now live.now }
    ensures { IfOk result (λ marks. ReportsDead code.now marks.items) }
{
    let mut marks = Vec::with_capacity(alloc, code.blocks.len())?;
    for b in 0..code.blocks.len() {
        marks.push(has_dead(live, code.blocks[b].start))?;
    }
    Ok(marks)
}

/// Some register from x5 on is dead where the block at `leader` begins.
fn has_dead(live: &LiveTable, leader: u32) -> bool
    ensures { (c : Code) → IsTableOf c live.now → (result ≡ true) ↔ HasDeadAt c leader }
{
    live.dead_at(leader, RegSet { bits: 0 }).is_some()
}

/// The view of a file to which a program header may be added.
fn read_extendable<'a>(alloc: Global, bytes: &'a [u8]) -> Result<ElfView<'a>, AnalyseFault>
    ensures fault { ReportsUnless AnalyseFault.Memory result (file_fault bytes.now) }
    ensures file { IfOk result (IsFile bytes.now) }
    ensures sound { OnOk result (first_fault bytes.now ≡ None) }
    ensures inner { IfErr result IsOutermost }
{
    let view = read(alloc, bytes)?;
    match check_headers(view.ph_count) {
        Ok(()) => Ok(view),
        Err(fault) => Err(fault),
    }
}

/// One more program header may be added to `count`.
fn check_headers(count: u32) -> Result<(), AnalyseFault>
    ensures fault { Reports result (headers_fault count) }
    ensures inner { IfErr result IsOutermost }
{
    if count == MOST_PROGRAM_HEADERS {
        return Err(AnalyseFault::Elf(ElfFault::OverLimit {
            what: PROGRAM_HEADERS,
            count,
        }));
    }
    Ok(())
}

/// The graph of a program that lies where it may, on a board whose patch range is large enough.
fn placed_graph(alloc: Global, view: &ElfView, board: &Board) -> Result<Graph, AnalyseFault>
    requires { IsRead view.now }
    ensures fault { ReportsUnless AnalyseFault.Memory result (places_fault (plain_view view.now) board.now) }
    ensures graph { IfOk result (IsGraph (plain_view view.now) board.now) }
    ensures inner { IfErr result IsOutermost }
{
    let graph = graph(alloc, view, board)?;
    match check_patch(board) {
        Ok(()) => Ok(graph),
        Err(fault) => Err(fault),
    }
}

/// The patch range has room for the control words and the start stub.
fn check_patch(board: &Board) -> Result<(), AnalyseFault>
    ensures fault { Reports result (patch_fault board.now) }
    ensures inner { IfErr result IsOutermost }
{
    let need = least_patch(board.fence_i);
    if board.patch.size < need {
        return Err(AnalyseFault::PatchTooSmall {
            need,
            have: board.patch.size,
        });
    }
    Ok(())
}

/// How many bytes the control words and the start stub take at least.
pub(crate) fn least_patch(fence_i: bool) -> u32
    ensures { result ≡ least_patch fence_i }
{
    if fence_i {
        LEAST_PATCH + FENCE_I_SIZE
    } else {
        LEAST_PATCH
    }
}

/// The code of a program.
fn code_of(alloc: Global, view: &ElfView) -> Result<Code, AnalyseFault>
    requires { IsRead view.now }
    ensures fault { ReportsUnless AnalyseFault.Memory result (option_map analyse.Code (code_fault (plain_view view.now))) }
    ensures code { IfOk result (IsCode (plain_view view.now)) }
    ensures inner { IfErr result IsOutermost }
{
    Ok(blocks(alloc, view)?)
}
