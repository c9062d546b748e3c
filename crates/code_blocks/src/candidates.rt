ghost use Rattle.std.specs.Prelude.{◌≡◌, ℕ, ◌+◌, ◌<◌, ◌≤◌, Bool, ◌&&◌, ◌||◌, length, IfOk, OnOk};
ghost use Rattle.std.specs.List.{list_any};
ghost use Rattle.std.specs.List.Sorted.{IsStrictlyIncreasing};
ghost use Rattle.list_checks.specs.Tests.{any_below};
ghost use Rattle.elf_reader.specs.File.{plain_view};
ghost use Rattle.loaded_file.specs.Read.{IsRead};
ghost use Rattle.code_blocks.specs.{Functions.{lies_in_range, is_function}, Kept.{key_at, key_of, passes_key, AreKeys}};

use elf_reader::STT_FUNC;
use loaded_file::{LoadedFile, SectionKind};
use std::alloc::{AllocError, Global};

/// How many numbers a word has.
const WORDS: u128 = 0x1_0000_0000;

/// The keys of all functions, ascending: by start, then from the largest down, then by symbol.
///
/// The time grows with n log n, where n is the number of symbols and sections.
pub(crate) fn function_keys(alloc: Global, file: &LoadedFile) -> Result<Vec<u128>, AllocError>
    requires read { IsRead file.now.view.now }
    ensures { IfOk result (λ keys. AreKeys (plain_view file.now.view.now) keys.items) }
{
    let mut keys = unsorted_keys(alloc, file)?;
    arrange(&mut keys);
    Ok(keys)
}

/// Adds the key of symbol `k`, if it is of a function.
fn push_function(keys: &mut Vec<u128>, file: &LoadedFile, k: usize) -> Result<(), AllocError>
    requires below { k < length file.now.view.now.symbols.items }
    ensures exact { OnOk result ((test : ℕ → Bool) → list_any test keys.new.items ≡ (list_any test keys.old.items || passes_key (plain_view file.now.view.now) test k)) }
    ensures few { OnOk result (length keys.new.items ≤ length keys.old.items + 1) }
{
    if is_function(file, k) {
        let symbol = &file.view.symbols[k];
        keys.push(key_of(symbol.value, symbol.size, k))?;
    }
    Ok(())
}

/// The keys of all functions, in the order of their symbols.
fn unsorted_keys(alloc: Global, file: &LoadedFile) -> Result<Vec<u128>, AllocError>
    requires read { IsRead file.now.view.now }
    ensures exact { IfOk result (λ keys. (test : ℕ → Bool) → list_any test keys.items ≡ any_below (passes_key (plain_view file.now.view.now) test) (length (plain_view file.now.view.now).symbols)) }
    ensures few { IfOk result (λ keys. length keys.items ≤ length (plain_view file.now.view.now).symbols) }
{
    let mut keys = Vec::new(alloc);
    for k in 0..file.view.symbols.len() {
        push_function(&mut keys, file, k)?;
    }
    Ok(keys)
}

/// The key of a function.
fn key_of(start: u32, size: u32, name: usize) -> u128
    ensures { result ≡ key_of start size name }
{
    (u128::from(start) * WORDS + u128::from(u32::MAX - size)) * WORDS + name as u128
}

/// Sorts the keys, and keeps each once.
fn arrange(keys: &mut Vec<u128>)
    ensures ascending { IsStrictlyIncreasing keys.new.items }
    ensures same { (test : ℕ → Bool) → list_any test keys.new.items ≡ list_any test keys.old.items }
    ensures few { length keys.new.items ≤ length keys.old.items }
{
    keys.sort_unstable();
    keys.dedup();
}

/// Symbol `k` is of a function that has a size and lies in a code range.
fn is_function(file: &LoadedFile, k: usize) -> bool
    requires below { k < length file.now.view.now.symbols.items }
    ensures { result ≡ is_function (plain_view file.now.view.now) k }
{
    let symbol = &file.view.symbols[k];
    symbol.kind == STT_FUNC && symbol.size > 0 && lies_in_code(file, k)
}

/// The whole range of symbol `k` lies in some code range.
fn lies_in_code(file: &LoadedFile, k: usize) -> bool
    requires below { k < length file.now.view.now.symbols.items }
    ensures { result ≡ any_below (lies_in_range (plain_view file.now.view.now) k) (length (plain_view file.now.view.now).sections) }
{
    let symbol = &file.view.symbols[k];
    match file.section_over(SectionKind::Code, symbol.value, symbol.size) {
        Some(_) => true,
        None => false,
    }
}
