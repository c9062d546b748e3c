ghost use Rattle.std.specs.Prelude.{◌≡◌, ℕ, ◌≤◌, nat_le, length, map, IfOk};
ghost use Rattle.std.specs.List.{All};
ghost use Rattle.list_checks.specs.First.{Reports, ReportsUnless, unless};
ghost use Rattle.elf_reader.specs.File.{plain_view};
ghost use Rattle.loaded_file.specs.Read.{IsRead};
ghost use Rattle.object_graph.specs.{Marks.{all_rewritable}, declared.fault.GraphFault.TheVariants.{TooManyObjects}, LayoutFaults.{capped, too_many_fault, layout_fault}, Graphs.{IsGraph}, Gathered.{AreMovableOf}};

use crate::code::code_ranges;
use crate::data_words::data_words;
use crate::fault::GraphFault;
use crate::layout::check_places;
use crate::objects::objects;
use crate::parts::Graph;
use crate::rewritable_marks::rewritable_kinds;
use crate::sites::sites;
use crate::top::movable_ranges;
use board_config::Board;
use elf_reader::ElfView;
use loaded_file::{ByteRange, LoadedFile};
use std::alloc::{AllocError, Global};

/// How many objects may move at most.
const MAX_OBJECTS: usize = 4096;

/// The graph of a file and a board: the objects that may move, where their addresses are made, and the code.
///
/// The error is the first check that fails, in this order: no segment meets the scratchpad (`SpmOverlap`), and
/// none the patch range (`PatchOverlap`); the code and the patch range span at most 2^20 bytes (`PatchFar`); the
/// scratchpad and the patch range are disjoint (`SpmOverlapsPatch`); the scratchpad begins at address 16 or above
/// (`SpmAtZero`); each segment that has memory lies in main or in one area (`NoArea`); at most 4,096 objects may
/// move (`TooManyObjects`). `Memory` comes only where no memory was left.
///
/// The time grows with n log n, where n is the number of symbols and relocations.
pub fn graph(alloc: Global, view: &ElfView, board: &Board) -> Result<Graph, GraphFault>
    requires { IsRead view.now }
    ensures fault { ReportsUnless GraphFault.Memory result (layout_fault (plain_view view.now) board.now) }
    ensures graph { IfOk result (IsGraph (plain_view view.now) board.now) }
{
    let file = LoadedFile::of(alloc, view)?;
    check_places(&file, board)?;
    build(alloc, &file, board)
}

/// The graph of a program that lies where it may.
fn build(alloc: Global, file: &LoadedFile, board: &Board) -> Result<Graph, GraphFault>
    requires read { IsRead file.now.view.now }
    ensures fault { ReportsUnless GraphFault.Memory result (too_many_fault (plain_view file.now.view.now) board.now) }
    ensures graph { IfOk result (IsGraph (plain_view file.now.view.now) board.now) }
{
    let rewritable = rewritable_kinds(alloc, file)?;
    let ranges = movable_ranges(alloc, file, board, &rewritable)?;
    gather_few(alloc, file, board, &rewritable, &ranges)
}

/// The graph of the objects of these ranges, if they are few enough.
fn gather_few(
    alloc: Global,
    file: &LoadedFile,
    board: &Board,
    rewritable: &[bool],
    ranges: &[ByteRange],
) -> Result<Graph, GraphFault>
    requires read { IsRead file.now.view.now }
    requires rewritable { rewritable.now ≡ all_rewritable (plain_view file.now.view.now) }
    requires movable { AreMovableOf (plain_view file.now.view.now) board.now ranges.now }
    ensures fault { ReportsUnless GraphFault.Memory result (too_many_fault (plain_view file.now.view.now) board.now) }
    ensures graph { IfOk result (IsGraph (plain_view file.now.view.now) board.now) }
{
    match check_count(ranges) {
        Ok(()) => Ok(gather(alloc, file, board, rewritable, ranges)?),
        Err(fault) => Err(fault),
    }
}

/// At most 4,096 objects may move.
fn check_count(ranges: &[ByteRange]) -> Result<(), GraphFault>
    ensures { Reports result (unless (nat_le (length ranges.now) 4096) (TooManyObjects (capped (length ranges.now)))) }
{
    if ranges.len() > MAX_OBJECTS {
        return Err(GraphFault::TooManyObjects {
            count: u32::try_from(ranges.len()).unwrap_or(u32::MAX),
        });
    }
    Ok(())
}

/// The graph of the objects of these ranges.
fn gather(
    alloc: Global,
    file: &LoadedFile,
    board: &Board,
    rewritable: &[bool],
    ranges: &[ByteRange],
) -> Result<Graph, AllocError>
    requires few { length ranges.now ≤ 4096 }
    requires movable { AreMovableOf (plain_view file.now.view.now) board.now ranges.now }
    requires rewritable { rewritable.now ≡ all_rewritable (plain_view file.now.view.now) }
    requires read { IsRead file.now.view.now }
    ensures { IfOk result (IsGraph (plain_view file.now.view.now) board.now) }
{
    let objects = objects(alloc, file, ranges)?;
    let sites = sites(alloc, file, ranges, rewritable)?;
    let data_words = data_words(alloc, file, ranges, rewritable)?;
    let code = code_ranges(alloc, file)?;
    Ok(Graph {
        grain: board.grain,
        objects,
        sites,
        data_words,
        code,
    })
}
