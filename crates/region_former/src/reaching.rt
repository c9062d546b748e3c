ghost use Rattle.std.specs.Prelude.{◌≡◌, ℕ, ◌+◌, ◌<◌, ◌≤◌, nat_lt, not, ◌&&◌, ◌||◌, [], if◌then◌else◌, min, length, IfOk, OnOk, slice_index_or};
ghost use Rattle.std.specs.List.{list_any};
ghost use Rattle.code_blocks.specs.{Blocks.{count_below}, Leads.{is_some_of}, Early.{has}};
ghost use Rattle.region_former.specs.{Flow.{block_count, leads_into, IsPlace, IsOrderly}, Reaching.{is_of_driver, driver_calls, is_root, enters, root_count, root_region, IsReached}, Propagation.{row_of, mark_at, first_mark, IsMark, region_by}, Rows.{truth_at, leads_there, AreRows}};

use crate::flow::{called_function, owner_of, successors_of};
use crate::propagation::{Reached, propagate_out};
use code_blocks::Code;
use std::alloc::{AllocError, Global};

/// The most regions that are made of roots.
const MOST_REGIONS: u32 = 8;

/// The regions of functions.
#[derive(Drop)]
pub(crate) struct FunctionRegions {
    /// How many regions there are.
    pub count: u32,
    /// The region of each function.
    pub of_function: Vec<u32>,
}

/// The regions of the functions where the board lists none: the functions that the driver calls are roots, and
/// a function has the region of the one root that leads to it.
pub(crate) fn reached_regions(
    alloc: Global,
    code: &Code,
    driver: Option<usize>,
) -> Result<FunctionRegions, AllocError>
    requires { IsOrderly code.now }
    ensures count { IfOk result (λ made. made.count ≡ min (root_count code.now driver) 8) }
    ensures one_each { IfOk result (λ made. length made.of_function.items ≡ length code.now.functions.items) }
    ensures regions { IfOk result (λ made. (f : ℕ) → f < length code.now.functions.items → IsReached (is_root code.now driver) (enters code.now driver) f (slice_index_or made.of_function.items f 0)) }
{
    let roots = roots(alloc, code, driver)?;
    let marks = marks(alloc, code, driver, &roots)?;
    let numbers = number_roots(alloc, &roots)?;
    let of_function = regions_by(alloc, &marks, &numbers.of_function)?;
    Ok(FunctionRegions {
        count: numbers.count,
        of_function,
    })
}

/// Which functions are roots: those other than the driver that a call of its blocks names.
fn roots(alloc: Global, code: &Code, driver: Option<usize>) -> Result<Vec<bool>, AllocError>
    requires { IsOrderly code.now }
    ensures one_each { IfOk result (λ roots. length roots.items ≡ length code.now.functions.items) }
    ensures roots { IfOk result (λ roots. (g : ℕ) → g < length code.now.functions.items → truth_at roots.items g ≡ is_root code.now driver g) }
{
    let mut roots = vec![in alloc; false; code.functions.len()]?;
    for a in 0..code.blocks.len() {
        if let Some(root) = root_called(code, driver, a) {
            roots[root] = true;
        }
    }
    Ok(roots)
}

/// The root that a call at the end of block `a` names, if the block is of the driver.
fn root_called(code: &Code, driver: Option<usize>, a: usize) -> Option<usize>
    requires orderly { IsOrderly code.now }
    requires below { a < block_count code.now }
    ensures root { (g : ℕ) → g < length code.now.functions.items → is_some_of result g ≡ driver_calls code.now driver g a }
    ensures below { IsPlace (length code.now.functions.items) result }
{
    if !is_of_driver(code, driver, a) {
        return None;
    }
    other_than(driver, called_function(code, a))
}

/// A function, if it is another one than the driver.
fn other_than(driver: Option<usize>, function: Option<usize>) -> Option<usize>
    ensures other { (g : ℕ) → is_some_of result g ≡ (not (is_some_of driver g) && is_some_of function g) }
    ensures below { (n : ℕ) → IsPlace n function → IsPlace n result }
{
    match function {
        Some(place) => {
            if is_same(driver, place) {
                None
            } else {
                Some(place)
            }
        }
        None => None,
    }
}

/// Block `a` is of the driver.
fn is_of_driver(code: &Code, driver: Option<usize>, a: usize) -> bool
    requires orderly { IsOrderly code.now }
    requires below { a < block_count code.now }
    ensures { result ≡ is_of_driver code.now driver a }
{
    match driver {
        Some(function) => is_same(owner_of(code, a), function),
        None => false,
    }
}

/// A place is this one.
fn is_same(place: Option<usize>, function: usize) -> bool
    ensures { result ≡ is_some_of place function }
{
    match place {
        Some(other) => other == function,
        None => false,
    }
}

/// What leads to each function.
fn marks(
    alloc: Global,
    code: &Code,
    driver: Option<usize>,
    roots: &[bool],
) -> Result<Vec<Reached>, AllocError>
    requires orderly { IsOrderly code.now }
    requires one_each { length roots.now ≡ length code.now.functions.items }
    requires roots { (g : ℕ) → g < length code.now.functions.items → truth_at roots.now g ≡ is_root code.now driver g }
    ensures one_each { IfOk result (λ marks. length marks.items ≡ length code.now.functions.items) }
    ensures marks { IfOk result (λ marks. (f : ℕ) → f < length code.now.functions.items → IsMark (is_root code.now driver) (enters code.now driver) f (mark_at marks.items f)) }
{
    let rows = rows(alloc, code, driver)?;
    let mut marks = first_marks(alloc, roots)?;
    propagate_out(alloc, &mut marks, &rows)?;
    Ok(marks)
}

/// What is known at first: a root leads to itself.
fn first_marks(alloc: Global, roots: &[bool]) -> Result<Vec<Reached>, AllocError>
    ensures one_each { IfOk result (λ marks. length marks.items ≡ length roots.now) }
    ensures marks { IfOk result (λ marks. (f : ℕ) → f < length roots.now → mark_at marks.items f ≡ first_mark f (truth_at roots.now f)) }
{
    let mut marks = Vec::with_capacity(alloc, roots.len())?;
    for f in 0..roots.len() {
        marks.push(if roots[f] {
            Reached::ByOne(f)
        } else {
            Reached::ByNone
        })?;
    }
    Ok(marks)
}

/// The functions other than the driver to a block of which a direct edge leads from a block of each function.
fn rows(alloc: Global, code: &Code, driver: Option<usize>) -> Result<Vec<Vec<usize>>, AllocError>
    requires { IsOrderly code.now }
    ensures one_each { IfOk result (λ rows. length rows.items ≡ length code.now.functions.items) }
    ensures rows { IfOk result (λ rows. AreRows code.now driver (block_count code.now) rows.items) }
{
    let mut rows = empty_rows(alloc, code.functions.len())?;
    fill_rows(&mut rows, code, driver)?;
    Ok(rows)
}

/// Adds what each block leads into to rows without an entry.
fn fill_rows(rows: &mut [Vec<usize>], code: &Code, driver: Option<usize>) -> Result<(), AllocError>
    requires orderly { IsOrderly code.now }
    requires one_each { length rows.old ≡ length code.now.functions.items }
    requires empty { (f : ℕ) → row_of rows.old f ≡ [] }
    ensures one_each { OnOk result (length rows.new ≡ length code.now.functions.items) }
    ensures rows { OnOk result (AreRows code.now driver (block_count code.now) rows.new) }
{
    for a in 0..code.blocks.len() {
        add_block(rows, code, driver, a)?;
    }
    Ok(())
}

/// So many rows without an entry.
fn empty_rows(alloc: Global, count: usize) -> Result<Vec<Vec<usize>>, AllocError>
    ensures one_each { IfOk result (λ rows. length rows.items ≡ count) }
    ensures empty { IfOk result (λ rows. (f : ℕ) → row_of rows.items f ≡ []) }
{
    let mut rows = Vec::with_capacity(alloc, count)?;
    for _ in 0..count {
        rows.push(Vec::new(alloc))?;
    }
    Ok(rows)
}

/// Adds what block `a` leads into.
fn add_block(
    rows: &mut [Vec<usize>],
    code: &Code,
    driver: Option<usize>,
    a: usize,
) -> Result<(), AllocError>
    requires one_each { length rows.old ≡ length code.now.functions.items }
    requires orderly { IsOrderly code.now }
    requires below { a < block_count code.now }
    requires rows { AreRows code.now driver a rows.old }
    ensures one_each { OnOk result (length rows.new ≡ length code.now.functions.items) }
    ensures rows { OnOk result (AreRows code.now driver (a + 1) rows.new) }
{
    match owner_of(code, a) {
        Some(f) => add_edges(&mut rows[f], code, driver, a),
        None => Ok(()),
    }
}

/// Adds the functions that block `a` leads into.
fn add_edges(
    row: &mut Vec<usize>,
    code: &Code,
    driver: Option<usize>,
    a: usize,
) -> Result<(), AllocError>
    requires orderly { IsOrderly code.now }
    requires below { a < block_count code.now }
    ensures { OnOk result ((g : ℕ) → has row.new.items g ≡ (has row.old.items g || leads_into code.now driver a g)) }
{
    let addresses = successors_of(code, a);
    add_entered(row, code, driver, addresses.as_slice())
}

/// Adds the functions other than the driver of which a block begins at one of the addresses.
fn add_entered(
    row: &mut Vec<usize>,
    code: &Code,
    driver: Option<usize>,
    addresses: &[u32],
) -> Result<(), AllocError>
    requires { IsOrderly code.now }
    ensures { OnOk result ((g : ℕ) → has row.new.items g ≡ (has row.old.items g || list_any (leads_there code.now driver g) addresses.now)) }
{
    for address in addresses {
        if let Some(function) = function_entered(code, driver, *address) {
            row.push(function)?;
        }
    }
    Ok(())
}

/// The function of the block at an address, if one begins there, and it is not the driver's.
fn function_entered(code: &Code, driver: Option<usize>, address: u32) -> Option<usize>
    requires { IsOrderly code.now }
    ensures { (g : ℕ) → is_some_of result g ≡ leads_there code.now driver g address }
{
    match code.block_at(address) {
        Some(block) => other_than(driver, owner_of(code, block as usize)),
        None => None,
    }
}

/// The region that each function would have as a root: its number by address, where that is at most 8.
fn number_roots(alloc: Global, roots: &[bool]) -> Result<FunctionRegions, AllocError>
    ensures count { IfOk result (λ made. made.count ≡ min (count_below (truth_at roots.now) (length roots.now)) 8) }
    ensures one_each { IfOk result (λ made. length made.of_function.items ≡ length roots.now) }
    ensures regions { IfOk result (λ made. (k : ℕ) → k < length roots.now → slice_index_or made.of_function.items k 0 ≡ root_region (truth_at roots.now) k) }
{
    let mut of_function = Vec::with_capacity(alloc, roots.len())?;
    let mut count = 0;
    for k in 0..roots.len() {
        of_function.push(next_region(count))?;
        count = count_more(count, roots[k]);
    }
    Ok(FunctionRegions { count, of_function })
}

/// The region of the next root behind `count` regions.
fn next_region(count: u32) -> u32
    ensures { result ≡ (if nat_lt count 8 then count + 1 else 0) }
{
    if count < MOST_REGIONS { count + 1 } else { 0 }
}

/// How many regions there are with one more root, or with another function.
fn count_more(count: u32, root: bool) -> u32
    requires { count ≤ 8 }
    ensures { result ≡ min (count + (if root then 1 else 0)) 8 }
{
    if root && count < MOST_REGIONS {
        count + 1
    } else {
        count
    }
}

/// The regions of functions by what leads to them.
fn regions_by(alloc: Global, marks: &[Reached], regions: &[u32]) -> Result<Vec<u32>, AllocError>
    ensures one_each { IfOk result (λ made. length made.items ≡ length marks.now) }
    ensures regions { IfOk result (λ made. (f : ℕ) → f < length marks.now → slice_index_or made.items f 0 ≡ region_by regions.now (mark_at marks.now f)) }
{
    let mut made = Vec::with_capacity(alloc, marks.len())?;
    for f in 0..marks.len() {
        made.push(region_by(regions, marks[f]))?;
    }
    Ok(made)
}

/// The region of a function with this mark.
fn region_by(regions: &[u32], mark: Reached) -> u32
    ensures { result ≡ region_by regions.now mark }
{
    match mark {
        Reached::ByOne(root) => match regions.get(root) {
            Some(region) => *region,
            None => 0,
        },
        Reached::ByNone | Reached::BySeveral => 0,
    }
}
