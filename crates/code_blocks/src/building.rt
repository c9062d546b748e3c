ghost use Rattle.std.specs.Prelude.{◌≡◌, ◌^◌, ◌<◌, nat_le, min, length, map, IfOk};
ghost use Rattle.std.specs.List.{All};
ghost use Rattle.list_checks.specs.First.{◌or_else◌, unless, Reports, ReportsUnless};
ghost use Rattle.elf_reader.specs.File.{plain_view};
ghost use Rattle.loaded_file.specs.{Code.{is_code_word}, Read.{IsRead}};
ghost use Rattle.code_blocks.specs.{Words.{any_code_word}, AllLeaders.{IsLeaders}, Blocks.{start_of, IsBlock, IsFunctionOf, IsCode, is_any, block_count, code_fault}, Kept.{AreKept, AreDisjoint}};

use crate::fault::CodeFault;
use crate::functions_kept::{function_of, kept_functions};
use crate::lists::Leaders;
use crate::parts::{Block, Code, Function};
use crate::strata::leaders;
use crate::texts::has_text;
use crate::walking::walk_from;
use elf_reader::ElfView;
use loaded_file::{LoadedFile, is_code_word};
use std::alloc::{AllocError, Global};

/// The most blocks that a program may have.
const MOST_BLOCKS: usize = 65_536;

/// The blocks of a program's code, its functions, and the leaders that a jump to an address in a register may
/// reach. A word that means no instruction refuses nothing: its block ends there.
///
/// The time grows with n log n, where n is the number of words of code, sections, symbols and relocations.
pub fn blocks(alloc: Global, view: &ElfView) -> Result<Code, CodeFault>
    requires { IsRead view.now }
    ensures fault { ReportsUnless CodeFault.Memory result (code_fault (plain_view view.now)) }
    ensures code { IfOk result (IsCode (plain_view view.now)) }
{
    let Ok(file) = LoadedFile::of(alloc, view) else {
        return Err(CodeFault::Memory);
    };
    check_entry(&file)?;
    let Ok(leaders) = leaders(alloc, &file) else {
        return Err(CodeFault::Memory);
    };
    check_count(view, &leaders)?;
    match code_from(alloc, &file, leaders) {
        Ok(code) => Ok(code),
        Err(_) => Err(CodeFault::Memory),
    }
}

/// There is code, and the entry is a word of it.
fn check_entry(file: &LoadedFile) -> Result<(), CodeFault>
    ensures { Reports result (unless (any_code_word (plain_view file.now.view.now) is_any) CodeFault.NoText or_else unless (is_code_word (plain_view file.now.view.now) (plain_view file.now.view.now).entry) CodeFault.EntryNotLeader) }
{
    if !has_text(file) {
        return Err(CodeFault::NoText);
    }
    if !is_code_word(file, file.view.entry) {
        return Err(CodeFault::EntryNotLeader);
    }
    Ok(())
}

/// There are not too many blocks.
fn check_count(view: &ElfView, leaders: &Leaders) -> Result<(), CodeFault>
    requires read { IsRead view.now }
    requires leaders { IsLeaders (plain_view view.now) leaders.now }
    ensures { Reports result (unless (nat_le (block_count (plain_view view.now)) 65536) (CodeFault.TooManyBlocks (min (block_count (plain_view view.now)) 4294967295))) }
{
    let count = count_blocks(view, leaders);
    if count > MOST_BLOCKS {
        return Err(CodeFault::TooManyBlocks {
            count: u32::try_from(count).unwrap_or(u32::MAX),
        });
    }
    Ok(())
}

/// How many blocks begin.
fn count_blocks(view: &ElfView, leaders: &Leaders) -> usize
    requires read { IsRead view.now }
    requires leaders { IsLeaders (plain_view view.now) leaders.now }
    ensures { result ≡ block_count (plain_view view.now) }
{
    leaders.all.len()
}

/// The code of which these are the leaders.
fn code_from(alloc: Global, file: &LoadedFile, leaders: Leaders) -> Result<Code, AllocError>
    requires read { IsRead file.now.view.now }
    requires leaders { IsLeaders (plain_view file.now.view.now) leaders }
    ensures { IfOk result (IsCode (plain_view file.now.view.now)) }
{
    let functions = kept_functions(alloc, file)?;
    let blocks = all_blocks(alloc, file, &leaders, &functions)?;
    Ok(Code {
        functions,
        blocks,
        indirect: leaders.indirect,
        entry: file.view.entry,
    })
}

/// The block at each leader.
fn all_blocks(
    alloc: Global,
    file: &LoadedFile,
    leaders: &Leaders,
    functions: &[Function],
) -> Result<Vec<Block>, AllocError>
    requires read { IsRead file.now.view.now }
    requires leaders { IsLeaders (plain_view file.now.view.now) leaders.now }
    requires disjoint { AreDisjoint functions.now }
    requires few { length functions.now < 2 ^ 32 }
    ensures starts { IfOk result (λ blocks. map start_of blocks.items ≡ leaders.now.all.items) }
    ensures blocks { IfOk result (λ blocks. All (IsBlock (plain_view file.now.view.now) functions.now) blocks.items) }
{
    let mut blocks = Vec::new(alloc);
    for start in &leaders.all {
        let block = block_from(alloc, file, leaders, functions, *start)?;
        blocks.push(block)?;
    }
    Ok(blocks)
}

/// The block that begins at `start`.
fn block_from(
    alloc: Global,
    file: &LoadedFile,
    leaders: &Leaders,
    functions: &[Function],
    start: u32,
) -> Result<Block, AllocError>
    requires read { IsRead file.now.view.now }
    requires leaders { IsLeaders (plain_view file.now.view.now) leaders.now }
    requires disjoint { AreDisjoint functions.now }
    requires few { length functions.now < 2 ^ 32 }
    ensures start { IfOk result (λ block. block.start ≡ start) }
    ensures block { IfOk result (IsBlock (plain_view file.now.view.now) functions.now) }
{
    let walk = walk_from(alloc, file, leaders, start)?;
    Ok(Block {
        start,
        units: walk.units,
        end: walk.end,
        function: owner_of(functions, start),
    })
}

/// The number of the function in whose range an address lies.
fn owner_of(functions: &[Function], address: u32) -> Option<u32>
    requires disjoint { AreDisjoint functions.now }
    requires few { length functions.now < 2 ^ 32 }
    ensures { IsFunctionOf functions.now address result }
{
    match function_of(functions, address) {
        Some(place) => Some(place as u32),
        None => None,
    }
}
