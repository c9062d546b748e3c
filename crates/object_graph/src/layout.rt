ghost use Rattle.std.specs.Prelude.{◌≡◌, ℕ, ◌+◌, ◌<◌, ◌≤◌, length};
ghost use Rattle.list_checks.specs.{First.{◌or_else◌, Reports, first_below}, Tests.{any_below}};
ghost use Rattle.elf_reader.specs.File.{plain_segment, plain_view};
ghost use Rattle.object_graph.specs.LayoutFaults.{segment_overlaps, overlap_fault, has_code, least_below, greatest_below, span_of, patch_far_fault, spm_overlaps_patch_fault, spm_at_zero_fault, segment_lies_in, lies_in_area, no_area_fault, places_fault};

use crate::code::range_of;
use crate::fault::GraphFault;
use crate::ranges::{end, lies_in, memory_of, overlap};
use board_config::{Board, Range};
use elf_reader::{ElfView, Segment};
use loaded_file::{LoadedFile, is_code_range};

/// How many bytes a jump reaches forwards (RISC-V Unprivileged ISA, "Unconditional Jumps": JAL).
const MAX_SPAN: u64 = 1024 * 1024;

/// The least address at which the scratchpad may begin.
const LEAST_SPM_BASE: u32 = 16;

/// Checks that a program and the ranges of a board are disjoint or near, as they must be.
///
/// The error is the first check that fails, in the order that `graph` states.
pub(crate) fn check_places(file: &LoadedFile, board: &Board) -> Result<(), GraphFault>
    ensures { Reports result (places_fault (plain_view file.now.view.now) board.now) }
{
    check_overlaps(file.view, board, Reserved::Scratchpad)?;
    check_overlaps(file.view, board, Reserved::Patch)?;
    check_ranges(file, board)
}

/// The checks behind those of overlaps.
fn check_ranges(file: &LoadedFile, board: &Board) -> Result<(), GraphFault>
    ensures { Reports result (patch_far_fault (plain_view file.now.view.now) board.now or_else spm_overlaps_patch_fault board.now or_else spm_at_zero_fault board.now or_else first_below (no_area_fault (plain_view file.now.view.now) board.now) (length (plain_view file.now.view.now).segments)) }
{
    check_patch_far(file, board)?;
    check_spm_overlaps_patch(board)?;
    check_spm_at_zero(board)?;
    check_areas(file.view, board)
}

/// A range of the board in which no segment may lie.
#[derive(Clone, Copy)]
pub(crate) enum Reserved {
    Scratchpad,
    Patch,
}

/// No segment meets a reserved range.
#[tactic(auto, using(crate::proofs::ViewLemmas::found_first))]
fn check_overlaps(view: &ElfView, board: &Board, reserved: Reserved) -> Result<(), GraphFault>
    ensures { Reports result (first_below (overlap_fault reserved (plain_view view.now) board.now) (length (plain_view view.now).segments)) }
{
    for g in 0..view.segments.len() {
        check_overlap(view, board, reserved, g)?;
    }
    Ok(())
}

/// Segment `g` doesn't meet it.
fn check_overlap(
    view: &ElfView,
    board: &Board,
    reserved: Reserved,
    g: usize,
) -> Result<(), GraphFault>
    requires { g < length view.now.segments.items }
    ensures { Reports result (overlap_fault reserved (plain_view view.now) board.now g) }
{
    let s = &view.segments[g];
    let segment = s.index;
    match reserved {
        Reserved::Scratchpad if segment_overlaps(s, &board.spm) => {
            Err(GraphFault::SpmOverlap { segment })
        }
        Reserved::Patch if segment_overlaps(s, &board.patch) => {
            Err(GraphFault::PatchOverlap { segment })
        }
        _ => Ok(()),
    }
}

/// The memory of a segment meets a range.
fn segment_overlaps(segment: &Segment, range: &Range) -> bool
    ensures { result ≡ segment_overlaps (plain_segment segment.now) range.now }
{
    overlap(&memory_of(segment), range)
}

fn check_patch_far(file: &LoadedFile, board: &Board) -> Result<(), GraphFault>
    ensures { Reports result (patch_far_fault (plain_view file.now.view.now) board.now) }
{
    let span = greatest_end(file, board) - least_base(file, board);
    if span > MAX_SPAN {
        return Err(GraphFault::PatchFar {
            span: u32::try_from(span).unwrap_or(u32::MAX),
        });
    }
    Ok(())
}

/// The least address of the patch range and of the code.
fn least_base(file: &LoadedFile, board: &Board) -> u64
    ensures value { result ≡ least_below (plain_view file.now.view.now) board.now (length (plain_view file.now.view.now).sections) }
    ensures most { result ≤ board.now.patch.base }
{
    let mut least = u64::from(board.patch.base);
    for k in 0..file.view.sections.len() {
        if has_code(file, k) {
            least = least.min(u64::from(file.view.sections[k].addr));
        }
    }
    least
}

/// The address behind the greatest of the patch range and of the code.
fn greatest_end(file: &LoadedFile, board: &Board) -> u64
    ensures value { result ≡ greatest_below (plain_view file.now.view.now) board.now (length (plain_view file.now.view.now).sections) }
    ensures least { board.now.patch.base ≤ result }
{
    let mut greatest = end(&board.patch);
    for k in 0..file.view.sections.len() {
        if has_code(file, k) {
            greatest = greatest.max(end(&range_of(&file.view.sections[k])));
        }
    }
    greatest
}

/// Section `k` is a code range with at least a byte.
fn has_code(file: &LoadedFile, k: usize) -> bool
    requires below { k < length file.now.view.now.sections.items }
    ensures { result ≡ has_code (plain_view file.now.view.now) k }
{
    is_code_range(file, k) && file.view.sections[k].size > 0
}

fn check_spm_overlaps_patch(board: &Board) -> Result<(), GraphFault>
    ensures { Reports result (spm_overlaps_patch_fault board.now) }
{
    if overlap(&board.spm, &board.patch) {
        return Err(GraphFault::SpmOverlapsPatch);
    }
    Ok(())
}

fn check_spm_at_zero(board: &Board) -> Result<(), GraphFault>
    ensures { Reports result (spm_at_zero_fault board.now) }
{
    if board.spm.base < LEAST_SPM_BASE {
        return Err(GraphFault::SpmAtZero);
    }
    Ok(())
}

#[tactic(auto, using(crate::proofs::ViewLemmas::found_first))]
fn check_areas(view: &ElfView, board: &Board) -> Result<(), GraphFault>
    ensures { Reports result (first_below (no_area_fault (plain_view view.now) board.now) (length (plain_view view.now).segments)) }
{
    for g in 0..view.segments.len() {
        check_area(view, board, g)?;
    }
    Ok(())
}

fn check_area(view: &ElfView, board: &Board, g: usize) -> Result<(), GraphFault>
    requires { g < length view.now.segments.items }
    ensures { Reports result (no_area_fault (plain_view view.now) board.now g) }
{
    let segment = &view.segments[g];
    let memory = memory_of(segment);
    if memory.size == 0 || lies_in(&board.main, &memory) || lies_in_some_area(board, segment) {
        return Ok(());
    }
    Err(GraphFault::NoArea {
        segment: segment.index,
    })
}

/// The memory of a segment lies in one of the areas.
fn lies_in_some_area(board: &Board, segment: &Segment) -> bool
    ensures { result ≡ any_below (lies_in_area board.now (plain_segment segment.now)) (length board.now.areas.items) }
{
    for k in 0..board.areas.len() {
        if lies_in_area(board, segment, k) {
            return true;
        }
    }
    false
}

/// The memory of a segment lies in area `k`.
fn lies_in_area(board: &Board, segment: &Segment, k: usize) -> bool
    requires { k < length board.now.areas.items }
    ensures { result ≡ lies_in_area board.now (plain_segment segment.now) k }
{
    lies_in(&board.areas[k], &memory_of(segment))
}
