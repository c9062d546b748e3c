ghost use Rattle.std.specs.Prelude.{◌≡◌};
ghost use Rattle.rv32im.specs.Memory.{zeros};
ghost use Rattle.board_config.specs.Board.{IsLawful};

use crate::cases::Case;
use crate::listing::Listing;
use crate::texts::number;
use anyhow::Result;
use board_config::{Board, read_board};
use code_blocks::blocks;
use elf_reader::read;
use flat_machine::Flat;
use object_graph::graph;
use object_machine::Source;
use paged_store::{ByteStore, ListStore, PageStore};
use std::alloc::Global;
use std::fmt::Debug;

/// Runs a file on the flat machine, with its memory in pages: `step` tells the event of one step, and a number the outcome
/// after as many steps, and the pc; then what was written is told.
pub(crate) fn tell_flat(listing: &mut Listing, case: &Case, text: &str) -> Result<()> {
    tell_over(listing, case, text, PageStore::new(listing.alloc()))
}

/// The same with its memory in a list.
pub(crate) fn tell_listed(listing: &mut Listing, case: &Case, text: &str) -> Result<()> {
    tell_over(listing, case, text, ListStore::new(listing.alloc()))
}

/// The flat machine of a file, with its memory in a store.
pub(crate) fn flat_of<S: ByteStore + Drop>(
    alloc: Global,
    file: &[u8],
    input: &[u8],
    store: S,
) -> Result<Flat<S>>
    requires { S.byte_at store ≡ zeros }
{
    let board = read_board(alloc, b"")?;
    let view = read(alloc, file)?;
    Ok(Flat::new(alloc, &view, &board, input, store)?)
}

/// The same with its memory in a store.
fn tell_over<S: ByteStore + Drop>(
    listing: &mut Listing,
    case: &Case,
    text: &str,
    store: S,
) -> Result<()>
    requires { S.byte_at store ≡ zeros }
{
    let file = case.built(listing.alloc())?;
    let mut machine = flat_of(listing.alloc(), &file, &case.input, store)?;
    tell_runs(listing, &mut machine, text)
}

/// The steps and runs of a flat machine, and what it wrote.
fn tell_runs<S: ByteStore + Drop>(
    listing: &mut Listing,
    machine: &mut Flat<S>,
    text: &str,
) -> Result<()> {
    for word in text.split_whitespace() {
        if word == "step" {
            listing.value_line("  ", &machine.step()?);
        } else {
            let steps = number(word)?;
            let outcome = machine.run(u64::from(steps))?;
            tell_end(listing, steps, &outcome, machine.at());
        }
    }
    listing.value_line("  wrote ", &machine.output());
    Ok(())
}

/// How a run of at most `steps` steps ended, and the pc.
fn tell_end(listing: &mut Listing, steps: u32, outcome: &impl Debug, at: u32) {
    listing.number("  ", u64::from(steps));
    listing.value(": ", outcome);
    listing.hex(", at ", at);
    listing.end_line();
}

/// The machine of a file whose objects have no addresses.
fn started(alloc: Global, file: &[u8], board: &Board, input: &[u8]) -> Result<Source>
    requires { IsLawful board.now }
{
    let view = read(alloc, file)?;
    let graph = graph(alloc, &view, board)?;
    let code = blocks(alloc, &view)?;
    Ok(Source::new(alloc, &view, &graph, &code, board, input)?)
}

/// The same on that machine. `step` also tells what the step asks of memory.
pub(crate) fn tell_object(listing: &mut Listing, case: &Case, text: &str) -> Result<()> {
    let file = case.built(listing.alloc())?;
    let board = read_board(listing.alloc(), b"")?;
    let mut machine = started(listing.alloc(), &file, &board, &case.input)?;
    tell_object_runs(listing, &mut machine, text)
}

/// The steps and runs of that machine, and what it wrote.
fn tell_object_runs(listing: &mut Listing, machine: &mut Source, text: &str) -> Result<()> {
    for word in text.split_whitespace() {
        if word == "step" {
            listing.value("  ", &machine.footprint());
            listing.value_line(", ", &machine.step()?);
        } else {
            let steps = number(word)?;
            let outcome = machine.run(u64::from(steps))?;
            tell_end(listing, steps, &outcome, machine.at());
        }
    }
    listing.value_line("  wrote ", &machine.output());
    Ok(())
}
