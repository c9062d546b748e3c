//! Tables of blocks and functions.
ghost use Rattle.std.specs.Prelude.{◌<◌, length};
ghost use Rattle.std.specs.List.Sorted.{IsStrictlyIncreasing};
ghost use Rattle.code_blocks.specs.Numbers.{starts_of};

use crate::listing::Listing;
use anyhow::Result;
use code_blocks::{Block, Code, End, Function, Unit};
use relink_core::Analysis;

/// The entry, the indirect leaders, the functions, and the first blocks with their numbers.
pub(crate) fn list_blocks(listing: &mut Listing, code: &Code, most: usize)
    requires { IsStrictlyIncreasing (starts_of code.now) }
{
    listing.text("entry");
    listing.addresses(&[code.entry]);
    listing.text("indirect");
    listing.addresses(&code.indirect);
    for (k, function) in code.functions.iter().enumerate() {
        list_function(listing, k as u64, function);
    }
    for block in code.blocks.iter().take(most) {
        list_block(listing, code, block);
    }
}

fn list_function(listing: &mut Listing, number: u64, function: &Function) {
    listing.number("function ", number);
    listing.address(" ", function.start);
    listing.number(" ", u64::from(function.size));
    listing.number_line(" symbol ", u64::from(function.name));
}

/// A block: its number, where it starts, how many units it has, its function, its end, and the blocks behind it.
fn list_block(listing: &mut Listing, code: &Code, block: &Block)
    requires { IsStrictlyIncreasing (starts_of code.now) }
{
    if let Some(number) = code.block_at(block.start) {
        listing.number("block ", u64::from(number));
        listing.address(" ", block.start);
        listing.number(" units ", block.units.len() as u64);
        if let Some(function) = block.function {
            listing.number(" function ", u64::from(function));
        }
        list_end(listing, block.end);
        list_successors(listing, code, number);
    }
}

fn list_end(listing: &mut Listing, end: End) {
    match end {
        End::Fall { next } => listing.address(" falls to ", next),
        End::Branch { target, next } => {
            listing.address(" branches to ", target);
            listing.address(" or ", next)
        }
        End::Jump { target } => listing.address(" jumps to ", target),
        End::Call { target, back, link } => {
            listing.address(" calls ", target);
            listing.number(" by x", u64::from(link));
            listing.address(", back at ", back)
        }
        End::Tail { target } => {
            listing.address(" calls ", target);
            listing.text(" last")
        }
        End::Indirect { back: Some(back) } => {
            listing.address(" calls by a register, back at ", back)
        }
        End::Indirect { back: None } => listing.text(" jumps by a register"),
        End::Stop => listing.text(" stops"),
    }
}

/// The end of a line with the numbers of the blocks that one leads to without a register.
fn list_successors(listing: &mut Listing, code: &Code, number: u32)
    requires ascending { IsStrictlyIncreasing (starts_of code.now) }
{
    listing.text(", then");
    if (number as usize) < code.blocks.len() {
        for next in &code.successors(number) {
            listing.number(" ", u64::from(*next));
        }
    }
    listing.end_line();
}

/// A line for each of the first blocks with the words of its units, `*` behind the first of two words, and `!` behind one
/// that means nothing.
pub(crate) fn list_units(listing: &mut Listing, code: &Code, most: usize) {
    for block in code.blocks.iter().take(most) {
        listing.address("units ", block.start);
        list_block_words(listing, block);
    }
}

/// The words of the units of a block, where they stand one behind the other.
fn list_block_words(listing: &mut Listing, block: &Block) {
    let mut at = block.start;
    for unit in &block.units {
        if unit.at != at {
            listing.address(" at ", unit.at);
        }
        listing.word(" ", unit.raw);
        listing.text(mark_of(unit));
        at = unit.at.wrapping_add(unit.words.wrapping_mul(4));
    }
    listing.end_line();
}

/// What stands behind the first word of a unit.
fn mark_of(unit: &Unit) -> &'static str {
    match unit.instr {
        None => "!",
        Some(_) if unit.words == 2 => "*",
        Some(_) => "",
    }
}

/// How many there are of what the analyses find.
pub(crate) fn list_counts(listing: &mut Listing, analysis: &Analysis<'_>) {
    let (code, graph) = (&analysis.code, &analysis.graph);
    listing.number_line("functions ", code.functions.len() as u64);
    listing.number_line("blocks ", code.blocks.len() as u64);
    listing.number_line("objects ", graph.objects.len() as u64);
    listing.number_line("sites ", graph.sites.len() as u64);
    listing.number_line("words ", graph.data_words.len() as u64);
    listing.number_line("regions ", u64::from(analysis.regions.count));
}
