ghost use Rattle.std.specs.Prelude.{◌≡◌, ℕ, ◌<◌, ◌≤◌, length, IfOk, string_bytes, slice_index_or};
ghost use Rattle.elf_reader.specs.File.{plain_view};
ghost use Rattle.board_config.specs.Board.{plain_regions};
ghost use Rattle.code_blocks.specs.{Blocks.{IsCode}, Leads.{owner_at}};
ghost use Rattle.region_former.specs.{Naming.{AreOrdered}, Faults.{ReportsFirst}, Flow.{block_count, IsOrderly}, Borders.{region_in}, Regions.{region_fault, IsFormed}, Made.{region_for, AreOfFunctions}};

use crate::borders::{borders, without_barred};
use crate::fault::RegionFault;
use crate::flow::owner_of;
use crate::listing::listed_regions;
use crate::naming::function_named;
use crate::reaching::{FunctionRegions, reached_regions};
use crate::table::RegionTable;
use board_config::Board;
use code_blocks::Code;
use elf_reader::ElfView;
use std::alloc::{AllocError, Global};

/// The regions of a program. Where the board lists regions, list i is region i; otherwise each of the first 8
/// functions that the driver calls makes one, with all that it alone leads to. A region is left out where one
/// of the blocks by which control enters it cannot be entered through a stub: `has_dead` tells, block by block,
/// whether some register is dead at its beginning.
///
/// It fails exactly at the first listed name that stands for no function, or for one that was listed before. The time
/// grows with n log n, where n is the number of blocks, functions, symbols and listed names.
pub fn regions(
    alloc: Global,
    code: &Code,
    view: &ElfView,
    board: &Board,
    has_dead: &[bool],
) -> Result<RegionTable, RegionFault>
    requires code { IsCode (plain_view view.now) code.now }
    requires few { length board.now.regions.items ≤ 8 }
    requires dead { length has_dead.now ≡ length code.now.blocks.items }
    ensures fault { ReportsFirst result (region_fault (plain_view view.now) code.now board.now) }
    ensures table { IfOk result (IsFormed (plain_view view.now) code.now board.now has_dead.now) }
{
    let functions = function_regions(alloc, code, view, board)?;
    match table_from(alloc, code, view, board, has_dead, &functions) {
        Ok(table) => Ok(table),
        Err(_) => Err(RegionFault::Memory),
    }
}

/// The regions of functions.
fn function_regions(
    alloc: Global,
    code: &Code,
    view: &ElfView,
    board: &Board,
) -> Result<FunctionRegions, RegionFault>
    requires few { length board.now.regions.items ≤ 8 }
    requires orderly { IsOrderly code.now }
    ensures fault { ReportsFirst result (region_fault (plain_view view.now) code.now board.now) }
    ensures regions { IfOk result (AreOfFunctions (plain_view view.now) code.now board.now) }
{
    if board.regions.is_empty() {
        let driver = function_named(view, code, board.driver.as_bytes());
        match reached_regions(alloc, code, driver) {
            Ok(reached) => Ok(reached),
            Err(_) => Err(RegionFault::Memory),
        }
    } else {
        let of_function = listed_regions(alloc, view, code, &board.regions)?;
        Ok(FunctionRegions {
            count: board.regions.len() as u32,
            of_function,
        })
    }
}

/// The table of a program whose functions have these regions.
fn table_from(
    alloc: Global,
    code: &Code,
    view: &ElfView,
    board: &Board,
    has_dead: &[bool],
    functions: &FunctionRegions,
) -> Result<RegionTable, AllocError>
    requires orderly { IsOrderly code.now }
    requires dead { length has_dead.now ≡ block_count code.now }
    requires regions { AreOfFunctions (plain_view view.now) code.now board.now functions.now }
    ensures { IfOk result (IsFormed (plain_view view.now) code.now board.now has_dead.now) }
{
    let formed = block_regions(alloc, code, &functions.of_function)?;
    let of_block = without_barred(alloc, code, has_dead, functions.count, &formed)?;
    let border = borders(alloc, code, &of_block)?;
    Ok(RegionTable {
        count: functions.count,
        of_block,
        border,
    })
}

/// The region of each block: that of its function.
fn block_regions(alloc: Global, code: &Code, of_function: &[u32]) -> Result<Vec<u32>, AllocError>
    requires orderly { IsOrderly code.now }
    requires one_each { length of_function.now ≡ length code.now.functions.items }
    ensures one_each { IfOk result (λ formed. length formed.items ≡ block_count code.now) }
    ensures formed { IfOk result (λ formed. (b : ℕ) → b < block_count code.now → region_in formed.items b ≡ region_for of_function.now (owner_at code.now b)) }
{
    let mut formed = Vec::with_capacity(alloc, code.blocks.len())?;
    for b in 0..code.blocks.len() {
        formed.push(match owner_of(code, b) {
            Some(function) => of_function[function],
            None => 0,
        })?;
    }
    Ok(formed)
}
