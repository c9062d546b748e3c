use crate::names::symbol_name;
use crate::subject::Subject;
use code_blocks::Function;
use explanation_texts::{Barrier, FULL_PATCH, IDLE_DRIVER, Notes, Piece, say_lost_region};
use relink_core::Analysis;
use rv32im::RegSet;
use std::alloc::{AllocError, Global};
use std::collections::BTreeSet;

/// The driver of a board that names none.
const USUAL_DRIVER: &str = "main";

/// How many places are told by which control enters a region.
const TOLD_BARRIERS: usize = 3;

/// The regions that the board lists and that became none, and a driver whose callees make none.
pub(crate) fn explain_regions(notes: &mut Notes, subject: &Subject) -> Result<(), AllocError> {
    let board = subject.board;
    let analysis = subject.analysis;
    let mut number: u32 = 0;
    for names in &board.regions {
        number = number.saturating_add(1);
        if !names.is_empty() && !analysis.regions.of_block.contains(&number) {
            let barriers = barriers_of(notes.alloc(), analysis, names)?;
            let file = subject.inputs.unchecked();
            say_lost_region(notes, &file, u64::from(number), &barriers);
        }
    }
    let is_driven = board.regions.is_empty() && board.driver.as_str() != USUAL_DRIVER;
    if is_driven && !has_region(&analysis.regions.of_block) {
        notes.say(IDLE_DRIVER, &[Piece::Name(board.driver.as_bytes())]);
    }
    Ok(())
}

/// Whether some block has a region.
fn has_region(of_block: &[u32]) -> bool {
    for region in of_block {
        if *region != 0 {
            return true;
        }
    }
    false
}

/// Where control enters functions with these names, and no register is dead: the first such block of each, of the first
/// functions. The time grows with n log n, where n is the number of names, functions and blocks.
fn barriers_of<'a>(
    alloc: Global,
    analysis: &Analysis<'a>,
    names: &[String],
) -> Result<Vec<Barrier<'a>>, AllocError> {
    let listed = listed_names(alloc, names)?;
    let mut barriers = Vec::new(alloc);
    for function in &analysis.code.functions {
        let name = symbol_name(&analysis.view, function.name);
        if barriers.len() < TOLD_BARRIERS && listed.contains(name) {
            if let Some(leader) = barred_leader(analysis, function) {
                barriers.push(Barrier {
                    function: name,
                    leader,
                })?;
            }
        }
    }
    Ok(barriers)
}

/// The names of a region.
fn listed_names(alloc: Global, names: &[String]) -> Result<BTreeSet<&[u8]>, AllocError> {
    let mut listed = BTreeSet::new(alloc);
    for name in names {
        listed.insert(name.as_bytes())?;
    }
    Ok(listed)
}

/// The first block of a function by which control enters it, at its beginning or by an address in a register, and where no register
/// is dead.
fn barred_leader(analysis: &Analysis<'_>, function: &Function) -> Option<u32> {
    let blocks = &analysis.code.blocks;
    let first = blocks.partition_point(|block| block.start < function.start);
    for block in blocks.get(first..).unwrap_or_default() {
        if block.start.wrapping_sub(function.start) >= function.size {
            break;
        }
        let is_called = block.start == function.start;
        let is_entered = is_called || analysis.code.indirect.binary_search(&block.start).is_ok();
        if is_entered
            && analysis
                .live
                .dead_at(block.start, RegSet { bits: 0 })
                .is_none()
        {
            return Some(block.start);
        }
    }
    None
}

/// A result that takes most of the patch range.
pub(crate) fn explain_patch(notes: &mut Notes, subject: &Subject) {
    let patch = &subject.board.patch;
    match subject.inputs.added {
        Some(segment)
            if segment.vaddr == patch.base
                && segment.memsz > patch.size.saturating_sub(patch.size / 8) => {
            notes.say(
                FULL_PATCH,
                &[
                    Piece::Number(u64::from(segment.memsz)),
                    Piece::Number(u64::from(patch.size)),
                ],
            )
        }
        _ => {}
    }
}
