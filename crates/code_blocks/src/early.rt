ghost use Rattle.std.specs.Prelude.{◌≡◌, ℕ, ◌<◌, ◌==◌, ◌&&◌, ◌||◌, length, OnOk, IfOk};
ghost use Rattle.std.specs.List.Sorted.{IsStrictlyIncreasing};
ghost use Rattle.list_checks.specs.Tests.{any_below};
ghost use Rattle.elf_reader.specs.File.{plain_view};
ghost use Rattle.loaded_file.specs.{Code.{is_code_word}, Records.{symbol_at}, Read.{IsRead}};
ghost use Rattle.code_blocks.specs.{Leaders.{is_function_at, makes_no_address, makes_address, is_named, is_early}, Early.{has}};

use crate::flow::{FlowRule, add_flow};
use crate::search::arrange;
use elf_reader::STT_FUNC;
use loaded_file::{LoadedFile, counts, is_code_word, target};
use std::alloc::{AllocError, Global};

/// The addresses at which basic blocks begin by the rules that rest on no call pair, in ascending order and
/// each once. It fails only where no memory was left.
pub fn early_leaders(alloc: Global, file: &LoadedFile) -> Result<Vec<u32>, AllocError>
    requires read { IsRead file.now.view.now }
    ensures ascending { IfOk result (λ leaders. IsStrictlyIncreasing leaders.items) }
    ensures exact { IfOk result (λ leaders. (a : ℕ) → has leaders.items a ≡ is_early (plain_view file.now.view.now) a) }
{
    let mut leaders = Vec::new(alloc);
    add_named(&mut leaders, file)?;
    add_flow(&mut leaders, file, FlowRule::All)?;
    arrange(&mut leaders);
    Ok(leaders)
}

/// Adds an address where it is a word of code.
pub(crate) fn add_leader(
    leaders: &mut Vec<u32>,
    file: &LoadedFile,
    address: u32,
) -> Result<(), AllocError>
    ensures { OnOk result ((a : ℕ) → has leaders.new.items a ≡ has leaders.old.items a || is_code_word (plain_view file.now.view.now) a && (address == a)) }
{
    if !is_code_word(file, address) {
        return Ok(());
    }
    leaders.push(address)?;
    Ok(())
}

/// Adds the entry, the addresses of functions, and those that relocations make.
pub(crate) fn add_named(leaders: &mut Vec<u32>, file: &LoadedFile) -> Result<(), AllocError>
    ensures { OnOk result ((a : ℕ) → has leaders.new.items a ≡ has leaders.old.items a || is_code_word (plain_view file.now.view.now) a && is_named (plain_view file.now.view.now) a) }
{
    add_leader(leaders, file, file.view.entry)?;
    add_functions(leaders, file)?;
    add_addresses(leaders, file)
}

fn add_functions(leaders: &mut Vec<u32>, file: &LoadedFile) -> Result<(), AllocError>
    ensures { OnOk result ((a : ℕ) → has leaders.new.items a ≡ has leaders.old.items a || is_code_word (plain_view file.now.view.now) a && any_below (is_function_at (plain_view file.now.view.now) a) (length (plain_view file.now.view.now).symbols)) }
{
    for k in 0..file.view.symbols.len() {
        add_function(leaders, file, k)?;
    }
    Ok(())
}

/// Adds the address of symbol `k` where it is of a function.
fn add_function(leaders: &mut Vec<u32>, file: &LoadedFile, k: usize) -> Result<(), AllocError>
    requires below { k < length file.now.view.now.symbols.items }
    ensures { OnOk result ((a : ℕ) → has leaders.new.items a ≡ has leaders.old.items a || is_code_word (plain_view file.now.view.now) a && is_function_at (plain_view file.now.view.now) a k) }
{
    let symbol = &file.view.symbols[k];
    if symbol.kind == STT_FUNC {
        add_leader(leaders, file, symbol.value)
    } else {
        Ok(())
    }
}

/// Adds the address that relocation `i` makes.
fn add_address(leaders: &mut Vec<u32>, file: &LoadedFile, i: usize) -> Result<(), AllocError>
    requires below { i < length file.now.view.now.relocs.items }
    ensures { OnOk result ((a : ℕ) → has leaders.new.items a ≡ has leaders.old.items a || is_code_word (plain_view file.now.view.now) a && makes_address (plain_view file.now.view.now) a i) }
{
    let reloc = &file.view.relocs[i];
    if counts(file, reloc) && !makes_no_address(reloc.kind) {
        add_leader(leaders, file, target(file.view, reloc))
    } else {
        Ok(())
    }
}

fn add_addresses(leaders: &mut Vec<u32>, file: &LoadedFile) -> Result<(), AllocError>
    ensures { OnOk result ((a : ℕ) → has leaders.new.items a ≡ has leaders.old.items a || is_code_word (plain_view file.now.view.now) a && any_below (makes_address (plain_view file.now.view.now) a) (length (plain_view file.now.view.now).relocs)) }
{
    for i in 0..file.view.relocs.len() {
        add_address(leaders, file, i)?;
    }
    Ok(())
}

/// Relocations of this kind make no address: NONE, BRANCH, JAL, CALL, CALL_PLT, PCREL_LO12_I, PCREL_LO12_S,
/// ALIGN and RELAX (RISC-V psABI, "Relocations").
fn makes_no_address(kind: u32) -> bool
    ensures { result ≡ makes_no_address kind }
{
    matches!(kind, 0 | 16..=19 | 24 | 25 | 43 | 51)
}
