// Leaders come in two strata: those by rules that rest on no call pair, and those that rest on the pairs.
ghost use Rattle.std.specs.Prelude.{◌≡◌, ℕ, ◌&&◌, ◌||◌, IfOk, OnOk};
ghost use Rattle.std.specs.List.{list_any};
ghost use Rattle.elf_reader.specs.File.{plain_view};
ghost use Rattle.loaded_file.specs.{Code.{is_code_word}, Read.{IsRead}};
ghost use Rattle.code_blocks.specs.{Leaders.{is_early, is_call_pair, is_leader, is_indirect}, Early.{has}, Pairs.{AreThose, leads_to, returns_to}, PairLeaders.{pair_leads}, AllLeaders.{IsLeaders}};

use crate::early::{add_leader, add_named, early_leaders};
use crate::flow::{FlowRule, add_flow};
use crate::lists::Leaders;
use crate::meanings::links;
use crate::pairs::{call_pairs, pair_words};
use crate::search::arrange;
use crate::targets::pair_target;
use loaded_file::LoadedFile;
use std::alloc::{AllocError, Global};

/// Which leaders the call pairs make.
#[derive(Clone, Copy)]
enum PairRule {
    /// Where they go.
    Target,
    /// What is behind those that link.
    Return,
}

/// Where the blocks of a program's code begin, and which words are calls of two instructions.
/// It fails only where no memory was left.
///
/// The time grows with n log n, where n is the number of words of code, sections, symbols and relocations.
pub fn leaders(alloc: Global, file: &LoadedFile) -> Result<Leaders, AllocError>
    requires read { IsRead file.now.view.now }
    ensures { IfOk result (IsLeaders (plain_view file.now.view.now)) }
{
    let early = early_leaders(alloc, file)?;
    let pairs = call_pairs(alloc, file, &early)?;
    let all = all_leaders(early, file, &pairs)?;
    let indirect = indirect_leaders(alloc, file, &pairs)?;
    Ok(Leaders {
        all,
        indirect,
        pairs,
    })
}

/// All leaders, from the early ones and the call pairs.
fn all_leaders(early: Vec<u32>, file: &LoadedFile, pairs: &[u32]) -> Result<Vec<u32>, AllocError>
    requires read { IsRead file.now.view.now }
    requires early { (a : ℕ) → has early.items a ≡ is_early (plain_view file.now.view.now) a }
    requires pairs { (p : ℕ) → has pairs.now p ≡ is_call_pair (plain_view file.now.view.now) p }
    ensures { IfOk result (λ all. AreThose (is_leader (plain_view file.now.view.now)) all.items) }
{
    let mut all = early;
    add_pair_leaders(&mut all, PairRule::Target, pairs, file)?;
    add_pair_leaders(&mut all, PairRule::Return, pairs, file)?;
    arrange(&mut all);
    Ok(all)
}

/// The leaders that a jump to an address in a register may reach.
fn indirect_leaders(alloc: Global, file: &LoadedFile, pairs: &[u32]) -> Result<Vec<u32>, AllocError>
    requires read { IsRead file.now.view.now }
    requires pairs { (p : ℕ) → has pairs.now p ≡ is_call_pair (plain_view file.now.view.now) p }
    ensures { IfOk result (λ indirect. AreThose (is_indirect (plain_view file.now.view.now)) indirect.items) }
{
    let mut indirect = Vec::new(alloc);
    add_named(&mut indirect, file)?;
    add_flow(&mut indirect, file, FlowRule::Links)?;
    add_pair_leaders(&mut indirect, PairRule::Return, pairs, file)?;
    arrange(&mut indirect);
    Ok(indirect)
}

/// Adds the leaders that pairs make by a rule.
fn add_pair_leaders(
    leaders: &mut Vec<u32>,
    rule: PairRule,
    pairs: &[u32],
    file: &LoadedFile,
) -> Result<(), AllocError>
    requires read { IsRead file.now.view.now }
    ensures { OnOk result ((a : ℕ) → has leaders.new.items a ≡ has leaders.old.items a || is_code_word (plain_view file.now.view.now) a && list_any (pair_leads rule (plain_view file.now.view.now) a) pairs.now) }
{
    for pair in pairs {
        add_pair_leader(leaders, rule, *pair, file)?;
    }
    Ok(())
}

/// Adds the leader that one pair makes, if it makes one.
fn add_pair_leader(
    leaders: &mut Vec<u32>,
    rule: PairRule,
    pair: u32,
    file: &LoadedFile,
) -> Result<(), AllocError>
    requires read { IsRead file.now.view.now }
    ensures { OnOk result ((a : ℕ) → has leaders.new.items a ≡ has leaders.old.items a || is_code_word (plain_view file.now.view.now) a && pair_leads rule (plain_view file.now.view.now) a pair) }
{
    match rule {
        PairRule::Target => add_pair_target(leaders, file, pair),
        PairRule::Return => add_pair_return(leaders, file, pair),
    }
}

/// Adds where a pair goes.
fn add_pair_target(leaders: &mut Vec<u32>, file: &LoadedFile, pair: u32) -> Result<(), AllocError>
    requires read { IsRead file.now.view.now }
    ensures { OnOk result ((a : ℕ) → has leaders.new.items a ≡ has leaders.old.items a || is_code_word (plain_view file.now.view.now) a && leads_to (plain_view file.now.view.now) a pair) }
{
    match pair_words(file, pair) {
        Some((first, second)) => { add_leader(leaders, file, pair_target(pair, first, second)) }
        None => Ok(()),
    }
}

/// Adds what is behind a pair that links.
fn add_pair_return(leaders: &mut Vec<u32>, file: &LoadedFile, pair: u32) -> Result<(), AllocError>
    requires read { IsRead file.now.view.now }
    ensures { OnOk result ((a : ℕ) → has leaders.new.items a ≡ has leaders.old.items a || is_code_word (plain_view file.now.view.now) a && returns_to (plain_view file.now.view.now) a pair) }
{
    match pair_words(file, pair) {
        Some((_, second)) if links(second) => add_leader(leaders, file, pair + 8),
        _ => Ok(()),
    }
}
