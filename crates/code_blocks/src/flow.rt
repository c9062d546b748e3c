ghost use Rattle.std.specs.Prelude.{◌≡◌, ℕ, IsTrue, ◌+◌, ◌*◌, ◌^◌, ◌/◌, ◌<◌, ◌≤◌, true, false, ◌&&◌, ◌||◌, length, MatchOption, OnOk};
ghost use Rattle.list_checks.specs.Tests.{any_below, lies_in};
ghost use Rattle.elf_reader.specs.{File.{plain_view}, Loaded.{section_at}};
ghost use Rattle.loaded_file.specs.{Code.{is_code_range, holds_code, is_code_word, image_word}, Read.{IsRead}};
ghost use Rattle.code_blocks.specs.{Words.{is_branch, is_jal, is_jalr, links, code_word, passes_at, passes_in, any_code_word}, Leaders.{goes_to, comes_back, link_comes_back}, Early.{has, flows_to}, Flow.{leads_by}};

use crate::early::add_leader;
use crate::meanings::{is_branch, is_jal, is_jalr, links};
use crate::targets::{branch_target, jal_target};
use elf_reader::{ElfView, Section};
use loaded_file::{LoadedFile, is_code_range, word_in};
use std::alloc::AllocError;

/// Which leaders the words of code make.
#[derive(Clone, Copy)]
pub(crate) enum FlowRule {
    /// Where branches and JALs go, and what is behind branches and jumps that link.
    All,
    /// What is behind jumps that link.
    Links,
}

/// Adds the leaders that words of code make by a rule.
pub(crate) fn add_flow(
    leaders: &mut Vec<u32>,
    file: &LoadedFile,
    rule: FlowRule,
) -> Result<(), AllocError>
    requires read { IsRead file.now.view.now }
    ensures { OnOk result ((a : ℕ) → has leaders.new.items a ≡ has leaders.old.items a || is_code_word (plain_view file.now.view.now) a && any_code_word (plain_view file.now.view.now) (leads_by rule (plain_view file.now.view.now) a)) }
{
    for k in 0..file.view.sections.len() {
        add_range(leaders, file, rule, k)?;
    }
    Ok(())
}

/// Adds those of section `k`, if it is a code range.
fn add_range(
    leaders: &mut Vec<u32>,
    file: &LoadedFile,
    rule: FlowRule,
    k: usize,
) -> Result<(), AllocError>
    requires read { IsRead file.now.view.now }
    requires below { k < length file.now.view.now.sections.items }
    ensures { OnOk result ((a : ℕ) → has leaders.new.items a ≡ has leaders.old.items a || is_code_word (plain_view file.now.view.now) a && passes_in (plain_view file.now.view.now) (leads_by rule (plain_view file.now.view.now) a) k) }
{
    if is_code_range(file, k) {
        add_words(leaders, file, rule, k)
    } else {
        Ok(())
    }
}

fn add_words(
    leaders: &mut Vec<u32>,
    file: &LoadedFile,
    rule: FlowRule,
    k: usize,
) -> Result<(), AllocError>
    requires read { IsRead file.now.view.now }
    requires below { k < length file.now.view.now.sections.items }
    requires range { is_code_range (plain_view file.now.view.now) k ≡ true }
    ensures { OnOk result ((a : ℕ) → has leaders.new.items a ≡ has leaders.old.items a || is_code_word (plain_view file.now.view.now) a && any_below (passes_at (plain_view file.now.view.now) (leads_by rule (plain_view file.now.view.now) a) k) ((section_at (plain_view file.now.view.now) k).size / 4 + 1)) }
{
    for i in 0..word_bound(file.view, k) {
        add_word(leaders, file, rule, k, i)?;
    }
    Ok(())
}

/// How many words section `k` has at most, and one more.
fn word_bound(view: &ElfView, k: usize) -> u32
    requires { k < length view.now.sections.items }
    ensures { result ≡ (section_at (plain_view view.now) k).size / 4 + 1 }
{
    view.sections[k].size / 4 + 1
}

/// Adds those of word `i` of code range `k`, if the range has that word.
fn add_word(
    leaders: &mut Vec<u32>,
    file: &LoadedFile,
    rule: FlowRule,
    k: usize,
    i: u32,
) -> Result<(), AllocError>
    requires read { IsRead file.now.view.now }
    requires below { k < length file.now.view.now.sections.items }
    requires range { is_code_range (plain_view file.now.view.now) k ≡ true }
    ensures { OnOk result ((a : ℕ) → has leaders.new.items a ≡ has leaders.old.items a || is_code_word (plain_view file.now.view.now) a && passes_at (plain_view file.now.view.now) (leads_by rule (plain_view file.now.view.now) a) k i) }
{
    match code_word(file.view, k, i) {
        Some(address) => add_flow_at(leaders, file, rule, k, address),
        None => Ok(()),
    }
}

/// The address of word `i` of section `k`, if the section has that word: its words begin at multiples of 4.
fn code_word(view: &ElfView, k: usize, i: u32) -> Option<u32>
    requires read { IsRead view.now }
    requires below { k < length view.now.sections.items }
    requires range { is_code_range (plain_view view.now) k ≡ true }
    ensures { MatchOption result (lies_in (section_at (plain_view view.now) k).addr (section_at (plain_view view.now) k).size (code_word (plain_view view.now) k i) 4 ≡ false) (λ address. (address ≡ code_word (plain_view view.now) k i) × (holds_code (plain_view view.now) address k ≡ true)) }
{
    let section = &view.sections[k];
    let address = word_place(section.addr, i);
    if holds_word(section, address) {
        Some(address as u32)
    } else {
        None
    }
}

/// Where word `i` stands, counted from the first multiple of 4 that isn't below `start`.
fn word_place(start: u32, i: u32) -> u64
    ensures place { result ≡ (start + 3) / 4 * 4 + 4 * i }
    ensures bound { result < 2 ^ 36 }
{
    (u64::from(start) + 3) / 4 * 4 + 4 * u64::from(i)
}

/// The four bytes at an address lie in a section.
fn holds_word(section: &Section, address: u64) -> bool
    requires { address < 2 ^ 36 }
    ensures lies { result ≡ lies_in section.now.addr section.now.size address 4 }
    ensures end { IsTrue result → address + 4 ≤ section.now.addr + section.now.size }
{
    let start = u64::from(section.addr);
    start <= address && address + 4 <= start + u64::from(section.size)
}

/// Adds the leaders that the word at `address` of code range `k` makes.
fn add_flow_at(
    leaders: &mut Vec<u32>,
    file: &LoadedFile,
    rule: FlowRule,
    k: usize,
    address: u32,
) -> Result<(), AllocError>
    requires read { IsRead file.now.view.now }
    requires holds { holds_code (plain_view file.now.view.now) address k ≡ true }
    ensures { OnOk result ((a : ℕ) → has leaders.new.items a ≡ has leaders.old.items a || is_code_word (plain_view file.now.view.now) a && leads_by rule (plain_view file.now.view.now) a address) }
{
    let word = word_in(file.view, k, address);
    match rule {
        FlowRule::All => add_flow_of(leaders, file, address, word),
        FlowRule::Links => add_link_return(leaders, file, address, word),
    }
}

/// Adds where `word`, which stands at `address`, goes, and what is behind it.
fn add_flow_of(
    leaders: &mut Vec<u32>,
    file: &LoadedFile,
    address: u32,
    word: u32,
) -> Result<(), AllocError>
    requires word { word ≡ image_word (plain_view file.now.view.now) address }
    requires fits { address + 4 < 2 ^ 32 }
    ensures { OnOk result ((a : ℕ) → has leaders.new.items a ≡ has leaders.old.items a || is_code_word (plain_view file.now.view.now) a && flows_to (plain_view file.now.view.now) a address) }
{
    add_target(leaders, file, address, word)?;
    add_return(leaders, file, address, word)?;
    Ok(())
}

/// Adds where `word`, which stands at `address`, goes if it is a branch or a JAL.
fn add_target(
    leaders: &mut Vec<u32>,
    file: &LoadedFile,
    address: u32,
    word: u32,
) -> Result<(), AllocError>
    requires word { word ≡ image_word (plain_view file.now.view.now) address }
    ensures { OnOk result ((a : ℕ) → has leaders.new.items a ≡ has leaders.old.items a || is_code_word (plain_view file.now.view.now) a && goes_to (plain_view file.now.view.now) a address) }
{
    if is_branch(word) {
        add_leader(leaders, file, branch_target(address, word))
    } else if is_jal(word) {
        add_leader(leaders, file, jal_target(address, word))
    } else {
        Ok(())
    }
}

/// Adds what is behind `word`, which stands at `address`, if that comes back.
fn add_return(
    leaders: &mut Vec<u32>,
    file: &LoadedFile,
    address: u32,
    word: u32,
) -> Result<(), AllocError>
    requires word { word ≡ image_word (plain_view file.now.view.now) address }
    requires fits { address + 4 < 2 ^ 32 }
    ensures { OnOk result ((a : ℕ) → has leaders.new.items a ≡ has leaders.old.items a || is_code_word (plain_view file.now.view.now) a && comes_back (plain_view file.now.view.now) a address) }
{
    if comes_back(word) {
        add_leader(leaders, file, address + 4)
    } else {
        Ok(())
    }
}

/// A branch, or a JAL or JALR that links.
fn comes_back(word: u32) -> bool
    ensures { result ≡ is_branch word || (is_jal word || is_jalr word) && links word }
{
    is_branch(word) || is_linking_jump(word)
}

/// Adds what is behind `word`, which stands at `address`, if it is a jump that links.
fn add_link_return(
    leaders: &mut Vec<u32>,
    file: &LoadedFile,
    address: u32,
    word: u32,
) -> Result<(), AllocError>
    requires word { word ≡ image_word (plain_view file.now.view.now) address }
    requires fits { address + 4 < 2 ^ 32 }
    ensures { OnOk result ((a : ℕ) → has leaders.new.items a ≡ has leaders.old.items a || is_code_word (plain_view file.now.view.now) a && link_comes_back (plain_view file.now.view.now) a address) }
{
    if is_linking_jump(word) {
        add_leader(leaders, file, address + 4)
    } else {
        Ok(())
    }
}

/// A JAL or JALR that links.
fn is_linking_jump(word: u32) -> bool
    ensures { result ≡ (is_jal word || is_jalr word) && links word }
{
    (is_jal(word) || is_jalr(word)) && links(word)
}
