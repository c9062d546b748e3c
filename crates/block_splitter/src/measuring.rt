ghost use Rattle.std.specs.Prelude.{◌≡◌, ◌⊎◌, ◌+◌, ◌^◌, ◌<◌, ◌≤◌, nat_lt, ◌&&◌, ◌||◌, length, IfSome, MatchOption};
ghost use Rattle.std.specs.List.Sorted.{IsStrictlyIncreasing};
ghost use Rattle.code_blocks.specs.{Numbers.{starts_of, Ascends}, declared.parts.Code.{Code}};
ghost use Rattle.object_graph.specs.declared.parts.Graph.{Graph};
ghost use Rattle.block_splitter.specs.{Forms.{is_site, copy_words}, Pieces.{IsRange, is_entry, most_words}, Facts.{is_within, extra_words, IsBarred, IsTable, IsExtent, MayStand, size_in, IsFit}};

use crate::block_form::{BlockForm, Exit, Sources};
use crate::block_range::BlockRange;
use crate::table::Table;
use code_blocks::Code;

/// The greatest size of a copy, in words.
pub(crate) const MOST_WORDS: u64 = 1024;

/// Where the first and the last block of a range begin.
#[derive(Clone, Copy)]
pub struct Extent {
    pub from: u32,
    pub to: u32,
}

impl Extent {
    ghost use Rattle.std.specs.Prelude.{◌≡◌};
    ghost use Rattle.block_splitter.specs.Facts.{is_within};

    /// An address lies between the two, or is one of them.
    pub fn holds(&self, address: u32) -> bool
        ensures { result ≡ is_within self.now address }
    {
        self.from <= address && address <= self.to
    }
}

/// How many words the copy of a range takes, if all its blocks may stand in it and it isn't too large.
pub(crate) fn measure(code: &Code, table: &Table, range: &BlockRange) -> Option<u64>
    requires ascending { Ascends code.now }
    requires range { IsRange code.now range.now }
    requires table { (g : Graph) × IsTable code.now g table.now }
    ensures few { IfSome result (λ w. w ≤ most_words) }
    ensures words { (g : Graph) → IsTable code.now g table.now → MatchOption result (IsFit code.now g range.now → ⊥) (λ w. IsFit code.now g range.now × (w ≡ copy_words (is_site g) code.now.blocks.items range.now)) }
{
    let extent = extent_of(code, range);
    let mut words = 0;
    for b in range.first as usize..range.last as usize + 1 {
        match add_block(table, range, &extent, b, words) {
            Some(more) => words = more,
            None => return None,
        }
    }
    Some(words)
}

/// Where the first and the last block of a range begin.
pub fn extent_of(code: &Code, range: &BlockRange) -> Extent
    requires { IsRange code.now range.now }
    ensures { IsExtent code.now range.now result }
{
    Extent {
        from: code.blocks[range.first as usize].start,
        to: code.blocks[range.last as usize].start,
    }
}

/// So many words and those of block `b`, if it may stand in the copy of a range and they are not too many.
fn add_block(
    table: &Table,
    range: &BlockRange,
    extent: &Extent,
    b: usize,
    words: u64,
) -> Option<u64>
    requires from { range.now.first ≤ b }
    requires to { b ≤ range.now.last }
    requires below { b < length table.now.forms.items }
    requires few { words ≤ most_words }
    ensures { (c : Code) (g : Graph) → IsStrictlyIncreasing (starts_of c) → IsRange c range.now → IsExtent c range.now extent.now → IsTable c g table.now → MatchOption result (MayStand c range.now b → words + size_in c g range.now b ≤ most_words → ⊥) (λ w. MayStand c range.now b × (w ≡ words + size_in c g range.now b) × (w ≤ most_words)) }
{
    let Some(form) = table.forms[b] else {
        return None;
    };
    if is_entry(table, range, b) && !form.has_dead {
        return None;
    }
    let Some(more) = words_within(&form, extent) else {
        return None;
    };
    if words + more > MOST_WORDS {
        return None;
    }
    Some(words + more)
}

/// How many words a block takes, unless it leads out where no register is dead.
fn words_within(form: &BlockForm, extent: &Extent) -> Option<u64>
    ensures words { MatchOption result (IsBarred (is_within extent.now) form.now.target ⊎ IsBarred (is_within extent.now) form.now.next) (λ w. (w ≡ form.now.words + extra_words (is_within extent.now) form.now.target + extra_words (is_within extent.now) form.now.next) × (IsBarred (is_within extent.now) form.now.target → ⊥) × (IsBarred (is_within extent.now) form.now.next → ⊥)) }
    ensures few { IfSome result (λ w. w < 2 ^ 34) }
{
    let target = extra_words(&form.target, extent)?;
    let next = extra_words(&form.next, extent)?;
    Some(u64::from(form.words) + u64::from(target) + u64::from(next))
}

/// How many words more an exit takes, unless it leads out where no register is dead.
fn extra_words(exit: &Option<Exit>, extent: &Extent) -> Option<u32>
    ensures { MatchOption result (IsBarred (is_within extent.now) exit.now) (λ w. (w ≡ extra_words (is_within extent.now) exit.now) × (IsBarred (is_within extent.now) exit.now → ⊥)) }
{
    match *exit {
        None => Some(0),
        Some(exit) if extent.holds(exit.at) => Some(0),
        Some(exit) if exit.has_dead => Some(exit.words),
        Some(_) => None,
    }
}

/// Whether control may come to block `b` of a range from outside.
pub(crate) fn is_entry(table: &Table, range: &BlockRange, b: usize) -> bool
    requires from { range.now.first ≤ b }
    requires to { b ≤ range.now.last }
    requires below { b < length table.now.forms.items }
    ensures { (c : Code) (g : Graph) → IsTable c g table.now → result ≡ is_entry c range.now b }
{
    table.indirect[b] || leads_from_outside(&table.sources[b], range)
}

/// Whether a block outside a range is the least or the greatest source of one of its blocks.
fn leads_from_outside(sources: &Sources, range: &BlockRange) -> bool
    ensures { result ≡ (nat_lt sources.now.least range.now.first || nat_lt range.now.last sources.now.greatest) }
{
    sources.least < range.first || range.last < sources.greatest
}
