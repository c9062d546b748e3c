ghost use Rattle.std.specs.Prelude.{◌≡◌, ◌<◌, ◌↔◌, min, true, false, length};
ghost use Rattle.std.specs.List.{All};
ghost use Rattle.code_blocks.specs.{Early.{has}, Blocks.{IsSomeCode}, Edges.{successors}, Numbers.{starts_of, Ascends}, declared.parts.Code.{Code}};
ghost use Rattle.object_graph.specs.Lookups.{IsSomeGraph};
ghost use Rattle.dataflow.specs.Tables.{IsTableOf};
ghost use Rattle.block_splitter.specs.{Forms.{body_of, kind_of}, Pieces.{HasTemporary, CanCall, is_stop, IsCopyable}, Facts.{block_count, may_copy, leaving_words, last_leaving, target_of, next_of, full_size, LinksRegister, IsExit, IsFormAt}};

use crate::block_form::{BlockForm, Exit};
use crate::kinds::{copy_size, kind_of};
use crate::measuring::MOST_WORDS;
use crate::registers::has_temporary;
use crate::unit_kind::UnitKind;
use code_blocks::{Block, Code, End, Unit};
use dataflow::LiveTable;
use object_graph::Graph;

/// What the pieces that hold block `b` depend on, if a piece may hold it.
pub(crate) fn form_of(code: &Code, live: &LiveTable, graph: &Graph, b: usize) -> Option<BlockForm>
    requires code { IsSomeCode code.now }
    requires live { IsTableOf code.now live.now }
    requires graph { IsSomeGraph graph.now }
    requires below { b < block_count code.now }
    ensures { IsFormAt code.now graph.now b result }
{
    let block = &code.blocks[b];
    if !is_copyable(code, live, b) {
        return None;
    }
    let words = full_size(graph, block);
    if u64::from(words) > MOST_WORDS {
        return None;
    }
    Some(BlockForm {
        words,
        target: target_exit(live, &block.end, last_leaving(graph, block)),
        next: next_exit(live, &block.end),
        has_dead: has_temporary(live, block.start, 0),
    })
}

/// Whether a block may be copied.
fn is_copyable(code: &Code, live: &LiveTable, b: usize) -> bool
    requires code { IsSomeCode code.now }
    requires live { IsTableOf code.now live.now }
    requires below { b < block_count code.now }
    ensures { (result ≡ true) ↔ IsCopyable code.now b }
{
    let block = &code.blocks[b];
    if !may_copy_all(&block.units) {
        return false;
    }
    if !leads_to_blocks(code, &block.end) {
        return false;
    }
    goes_on(live, &block.end)
}

/// Whether each unit may be copied.
fn may_copy_all(units: &[Unit]) -> bool
    ensures { (result ≡ true) ↔ All (λ u. may_copy u ≡ true) units.now }
{
    for k in 0..units.len() {
        if !may_copy(&units[k]) {
            return false;
        }
    }
    true
}

/// A unit means something, and doesn't link in its own base.
fn may_copy(unit: &Unit) -> bool
    ensures { result ≡ may_copy unit.now }
{
    unit.instr.is_some() && !unit.links_base()
}

/// Whether all that an end leads to begins a block.
fn leads_to_blocks(code: &Code, end: &End) -> bool
    requires { Ascends code.now }
    ensures { (result ≡ true) ↔ All (λ a. has (starts_of code.now) a ≡ true) (successors end.now) }
{
    match *end {
        End::Branch { target, next } => begins_block(code, target) && begins_block(code, next),
        End::Fall { next } => begins_block(code, next),
        End::Jump { target } => begins_block(code, target),
        End::Call { target, .. } => begins_block(code, target),
        End::Tail { target } => begins_block(code, target),
        End::Indirect { .. } => true,
        End::Stop => true,
    }
}

/// Whether a block begins at an address.
fn begins_block(code: &Code, address: u32) -> bool
    requires { Ascends code.now }
    ensures { result ≡ has (starts_of code.now) address }
{
    match code.block_at(address) {
        Some(_) => true,
        None => false,
    }
}

/// Whether a block doesn't stop, and has a register to write if it calls.
fn goes_on(live: &LiveTable, end: &End) -> bool
    requires { LinksRegister end.now }
    ensures { (c : Code) → IsTableOf c live.now → (result ≡ true) ↔ ((is_stop end.now ≡ false) × CanCall c end.now) }
{
    match *end {
        End::Stop => false,
        End::Call { target, link, .. } => has_temporary(live, target, link),
        _ => true,
    }
}

/// How many words a block has where all that it leads to is of the same copy, up to one more than a copy may have.
fn full_size(graph: &Graph, block: &Block) -> u32
    requires { IsSomeGraph graph.now }
    ensures { result ≡ min (full_size graph.now (body_of block.now)) 1025 }
{
    let mut words = 0;
    for k in 0..block.units.len() {
        words = (words + copy_size(&kind_of(graph, block, k), true)).min(MOST_WORDS as u32 + 1);
    }
    words
}

/// How many words more the last unit of a block has where its target is not of the same copy.
fn last_leaving(graph: &Graph, block: &Block) -> u32
    requires { IsSomeGraph graph.now }
    ensures { result ≡ last_leaving graph.now (body_of block.now) (length block.now.units.items) }
{
    let count = block.units.len();
    if count == 0 {
        return 0;
    }
    leaving_words(&kind_of(graph, block, count - 1))
}

fn leaving_words(kind: &UnitKind) -> u32
    ensures { result ≡ leaving_words kind.now }
{
    match *kind {
        UnitKind::Branch { .. } => 2,
        UnitKind::Jump { .. } => 1,
        _ => 0,
    }
}

/// The exit to where a branch or a jump goes.
fn target_exit(live: &LiveTable, end: &End, words: u32) -> Option<Exit>
    ensures { (c : Code) → IsTableOf c live.now → IsExit c words (target_of end.now) result }
{
    match *end {
        End::Branch { target, .. } => Some(exit_to(live, target, words)),
        End::Jump { target } => Some(exit_to(live, target, words)),
        _ => None,
    }
}

/// The exit to where a block falls: a jump of two words.
fn next_exit(live: &LiveTable, end: &End) -> Option<Exit>
    ensures { (c : Code) → IsTableOf c live.now → IsExit c 2 (next_of end.now) result }
{
    match *end {
        End::Fall { next } => Some(exit_to(live, next, 2)),
        End::Branch { next, .. } => Some(exit_to(live, next, 2)),
        _ => None,
    }
}

fn exit_to(live: &LiveTable, at: u32, words: u32) -> Exit
    ensures at { result.at ≡ at }
    ensures words { result.words ≡ words }
    ensures dead { (c : Code) → IsTableOf c live.now → (result.has_dead ≡ true) ↔ HasTemporary c at 0 }
{
    Exit {
        at,
        words,
        has_dead: has_temporary(live, at, 0),
    }
}
