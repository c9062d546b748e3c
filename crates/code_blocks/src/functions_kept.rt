ghost use Rattle.std.specs.Prelude.{◌≡◌, ℕ, ◌+◌, ◌++◌, ◌∷◌, [], ◌<◌, ◌≤◌, nat_lt, nat_le, true, false, length, map, IfOk, MatchOption, slice_index_or};
ghost use Rattle.std.specs.List.{All, list_any};
ghost use Rattle.std.specs.List.Sorted.{IsPartitionPoint};
ghost use Rattle.elf_reader.specs.File.{plain_view};
ghost use Rattle.loaded_file.specs.{Records.{symbol_at}, Read.{IsRead}};
ghost use Rattle.code_blocks.specs.{Blocks.{IsFunction, IsFunctionOf, name_of}, Kept.{name_in, AreKeys, AreKept, AreDisjoint}};

use crate::candidates::function_keys;
use crate::parts::Function;
use elf_reader::ElfView;
use loaded_file::LoadedFile;
use std::alloc::{AllocError, Global};

/// The functions of a program, by start: of those that overlap the first, and of those that start together the
/// largest.
pub(crate) fn kept_functions(alloc: Global, file: &LoadedFile) -> Result<Vec<Function>, AllocError>
    requires read { IsRead file.now.view.now }
    ensures { IfOk result (λ functions. AreKept (plain_view file.now.view.now) functions.items) }
{
    let keys = function_keys(alloc, file)?;
    keep_disjoint(alloc, file.view, &keys)
}

/// Those functions, of all in their order, that meet no earlier one that is kept.
fn keep_disjoint(alloc: Global, view: &ElfView, keys: &[u128]) -> Result<Vec<Function>, AllocError>
    requires read { IsRead view.now }
    requires keys { AreKeys (plain_view view.now) keys.now }
    ensures { IfOk result (λ functions. AreKept (plain_view view.now) functions.items) }
{
    let mut functions = Vec::new(alloc);
    let mut furthest_end = 0;
    for key in keys {
        furthest_end = keep(&mut functions, view, furthest_end, name_in(*key))?;
    }
    Ok(functions)
}

/// The symbol in a key.
fn name_in(key: u128) -> u32
    ensures { result ≡ name_in key }
{
    (key % 0x1_0000_0000) as u32
}

/// Adds the function of symbol `name`, unless it begins before `furthest_end`, the end of the last one. Gives the new
/// end.
fn keep(
    functions: &mut Vec<Function>,
    view: &ElfView,
    furthest_end: u64,
    name: u32,
) -> Result<u64, AllocError>
    requires { name < length view.now.symbols.items }
    ensures left { IfOk result (λ next. nat_lt (symbol_at (plain_view view.now) name).value furthest_end ≡ true → (functions.new.items ≡ functions.old.items) × (next ≡ furthest_end)) }
    ensures kept { IfOk result (λ next. nat_lt (symbol_at (plain_view view.now) name).value furthest_end ≡ false → (functions.new.items ≡ functions.old.items ++ record { name = name; start = (symbol_at (plain_view view.now) name).value; size = (symbol_at (plain_view view.now) name).size } ∷ []) × (next ≡ (symbol_at (plain_view view.now) name).value + (symbol_at (plain_view view.now) name).size)) }
{
    let symbol = &view.symbols[name as usize];
    if u64::from(symbol.value) < furthest_end {
        return Ok(furthest_end);
    }
    functions.push(Function {
        name,
        start: symbol.value,
        size: symbol.size,
    })?;
    Ok(u64::from(symbol.value) + u64::from(symbol.size))
}

/// The function in whose range an address lies, by binary search: its place among functions that are disjoint.
pub fn function_of(functions: &[Function], address: u32) -> Option<usize>
    requires { AreDisjoint functions.now }
    ensures { IsFunctionOf functions.now address result }
{
    let count = begun_functions(functions, address);
    if count == 0 {
        return None;
    }
    let last = &functions[count - 1];
    if address - last.start < last.size {
        Some(count - 1)
    } else {
        None
    }
}

/// How many functions begin at an address or before it.
fn begun_functions(functions: &[Function], address: u32) -> usize
    requires { AreDisjoint functions.now }
    ensures bound { result ≤ length functions.now }
    ensures point { IsPartitionPoint (λ f. nat_le f.start address ≡ true) (λ f. nat_le f.start address ≡ false) functions.now result }
{
    functions.partition_point(|function| function.start <= address)
}
