ghost use Rattle.std.specs.Prelude.{◌≡◌, ℕ, ◌+◌, ◌<◌, ◌≤◌, length, map, OnOk, IfOk, slice_index_or};
ghost use Rattle.elf_reader.specs.File.{plain_view};
ghost use Rattle.board_config.specs.Board.{plain_texts};
ghost use Rattle.region_former.specs.{Naming.{AreOrdered}, Named.{AreNames}, Listing.{list_at, listed_region, name_fault, list_fault, listing_fault}, Listed.{AreListed, plain_lists}, Faults.{ReportsFirst}};

use crate::fault::RegionFault;
use crate::names::{FunctionNames, function_names};
use code_blocks::Code;
use elf_reader::ElfView;
use std::alloc::{AllocError, Global};

/// The region of each function by the lists of a board: list 0 is region 1, and so on.
pub(crate) fn listed_regions(
    alloc: Global,
    view: &ElfView,
    code: &Code,
    lists: &[Vec<String>],
) -> Result<Vec<u32>, RegionFault>
    requires ordered { AreOrdered code.now.functions.items }
    requires few { length lists.now ≤ 8 }
    ensures fault { ReportsFirst result (listing_fault (plain_view view.now) code.now.functions.items (plain_lists lists.now)) }
    ensures one_each { IfOk result (λ regions. length regions.items ≡ length code.now.functions.items) }
    ensures regions { IfOk result (λ regions. (f : ℕ) → f < length code.now.functions.items → slice_index_or regions.items f 0 ≡ listed_region (plain_view view.now) code.now.functions.items (plain_lists lists.now) f (length lists.now)) }
{
    let names = function_names(alloc, view, code)?;
    let mut regions = vec![in alloc; 0; code.functions.len()]?;
    match take_lists(&mut regions, &names, lists) {
        Ok(()) => Ok(regions),
        Err(fault) => Err(fault),
    }
}

/// Gives the functions of all lists their regions, where none has one.
fn take_lists(
    regions: &mut [u32],
    names: &FunctionNames,
    lists: &[Vec<String>],
) -> Result<(), RegionFault>
    requires ordered { AreOrdered names.now.code.now.functions.items }
    requires named { AreNames names.now }
    requires few { length lists.now ≤ 8 }
    requires none { AreListed (plain_view names.now.view.now) names.now.code.now.functions.items (plain_lists lists.now) 0 0 regions.old }
    ensures fault { ReportsFirst result (listing_fault (plain_view names.now.view.now) names.now.code.now.functions.items (plain_lists lists.now)) }
    ensures one_each { OnOk result (length regions.new ≡ length names.now.code.now.functions.items) }
    ensures regions { OnOk result ((f : ℕ) → f < length names.now.code.now.functions.items → slice_index_or regions.new f 0 ≡ listed_region (plain_view names.now.view.now) names.now.code.now.functions.items (plain_lists lists.now) f (length lists.now)) }
{
    for i in 0..lists.len() {
        match take_list(regions, names, lists, i) {
            Ok(()) => {}
            Err(fault) => return Err(fault),
        }
    }
    Ok(())
}

/// Gives the functions of list `i` their region.
fn take_list(
    regions: &mut [u32],
    names: &FunctionNames,
    lists: &[Vec<String>],
    i: usize,
) -> Result<(), RegionFault>
    requires ordered { AreOrdered names.now.code.now.functions.items }
    requires named { AreNames names.now }
    requires list { i < length lists.now }
    requires few { length lists.now ≤ 8 }
    requires listed { AreListed (plain_view names.now.view.now) names.now.code.now.functions.items (plain_lists lists.now) i 0 regions.old }
    ensures fault { ReportsFirst result (list_fault (plain_view names.now.view.now) names.now.code.now.functions.items (plain_lists lists.now) i) }
    ensures listed { OnOk result (AreListed (plain_view names.now.view.now) names.now.code.now.functions.items (plain_lists lists.now) (i + 1) 0 regions.new) }
{
    for j in 0..names_in(lists, i) {
        match take_name(regions, names, lists, i, j) {
            Ok(()) => {}
            Err(fault) => return Err(fault),
        }
    }
    Ok(())
}

/// How many names list `i` has.
fn names_in(lists: &[Vec<String>], i: usize) -> usize
    requires { i < length lists.now }
    ensures { result ≡ length (list_at (plain_lists lists.now) i) }
{
    lists[i].len()
}

/// Gives the function of name `j` of list `i` its region.
fn take_name(
    regions: &mut [u32],
    names: &FunctionNames,
    lists: &[Vec<String>],
    i: usize,
    j: usize,
) -> Result<(), RegionFault>
    requires ordered { AreOrdered names.now.code.now.functions.items }
    requires named { AreNames names.now }
    requires list { i < length lists.now }
    requires name { j < length (list_at (plain_lists lists.now) i) }
    requires few { length lists.now ≤ 8 }
    requires listed { AreListed (plain_view names.now.view.now) names.now.code.now.functions.items (plain_lists lists.now) i j regions.old }
    ensures fault { ReportsFirst result (name_fault (plain_view names.now.view.now) names.now.code.now.functions.items (plain_lists lists.now) i j) }
    ensures listed { OnOk result (AreListed (plain_view names.now.view.now) names.now.code.now.functions.items (plain_lists lists.now) i (j + 1) regions.new) }
{
    let name = &lists[i][j];
    let Some(place) = names.find(name.as_bytes()) else {
        return Err(RegionFault::UnknownFunction {
            name: name.clone()?,
        });
    };
    if regions[place] != 0 {
        return Err(RegionFault::TwoRegions {
            name: name.clone()?,
        });
    }
    regions[place] = i as u32 + 1;
    Ok(())
}
