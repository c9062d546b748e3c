//! Runs of programs that go to the pads of stubs. In front of each pad such a program has written words of its memory: the
//! first control word, twelve words of slots and twelve of homes, registers as they were in front of the last pad and behind
//! its stub, and the words that no switch changes.
ghost use Rattle.std.specs.Prelude.{◌≤◌, length, IfOk};

use crate::cases::Case;
use crate::listing::Listing;
use crate::machines::flat_of;
use crate::texts::{number, numbers};
use anyhow::{Context, Result, bail};
use flat_machine::{Flat, FlatAccess};
use paged_store::PageStore;
use rv32im::word4;
use std::alloc::{AllocError, Global};

/// More steps than lead from one of these addresses to the next.
const LIMIT: u64 = 10_000;

/// How many words stand in front of those that no switch changes.
const TOLD: usize = 89;

/// How many steps, loads and stores led to an address.
#[derive(Clone, Copy)]
struct Counts {
    steps: u64,
    reads: u64,
    writes: u64,
}

impl Counts {
    /// With one step more.
    fn with_step(self, access: Option<FlatAccess>) -> Counts {
        let (read, write) = match access {
            Some(access) => (!access.write, access.write),
            None => (false, false),
        };
        Counts {
            steps: self.steps.saturating_add(1),
            reads: self.reads.saturating_add(u64::from(read)),
            writes: self.writes.saturating_add(u64::from(write)),
        }
    }
}

/// Runs up to an address, and at least one step.
fn run_to(machine: &mut Flat<PageStore>, to: u32) -> Result<Counts> {
    let mut counts = Counts {
        steps: 0,
        reads: 0,
        writes: 0,
    };
    for _ in 0..LIMIT {
        counts = counts.with_step(machine.step()?.access);
        if machine.at() == to {
            return Ok(counts);
        }
    }
    bail!("a run does not come to its address")
}

/// The words that are written on the way to an address.
fn words_up_to(alloc: Global, machine: &mut Flat<PageStore>, to: u32) -> Result<Vec<u32>>
    ensures { IfOk result (λ words. 89 ≤ length words.items) }
{
    let from = machine.output().len();
    run_to(machine, to)?;
    let mut words = Vec::new(alloc);
    let written = machine.output().get(from..).context("an output shrank")?;
    for chunk in written.chunks(4) {
        let &[first, second, third, last] = chunk else {
            bail!("a part of a word was written");
        };
        words.push(word4([first, second, third, last]))?;
    }
    if words.len() < TOLD {
        bail!("too few words were written");
    }
    Ok(words)
}

/// The numbers of the words that differ.
fn differing(alloc: Global, first: &[u32], second: &[u32]) -> Result<Vec<u64>, AllocError> {
    let mut numbers = Vec::new(alloc);
    for (number, (one, other)) in first.iter().zip(second).enumerate() {
        if one != other {
            numbers.push(number as u64)?;
        }
    }
    Ok(numbers)
}

/// Tells of slots and homes.
fn tell_memory(listing: &mut Listing, words: &[u32])
    requires { 89 ≤ length words.now }
{
    listing.text("  slots");
    listing.words(&words[1..13]);
    listing.text("  homes");
    listing.words(&words[13..25]);
}

/// Tells which registers differ behind a stub, and whether the words that stay are those that were written before.
fn tell_rest(listing: &mut Listing, old: &[u32], new: &[u32]) -> Result<()>
    requires { 89 ≤ length new.now }
{
    let differ = differing(listing.alloc(), &new[25..57], &new[57..89])?;
    listing.text("  all registers same but");
    listing.numbers(&differ);
    let kept = old.get(TOLD..).context("no words stay")?;
    let same = kept == &new[89..];
    listing.value_line("  memory same: ", &same);
    Ok(())
}

/// Tells of a run from a pad to a body, and of the region that is current then.
fn tell_counts(listing: &mut Listing, pad: u32, counts: Counts, region: u32) {
    listing.address("from pad ", pad);
    listing.number(": region ", u64::from(region));
    listing.number(", steps ", counts.steps);
    listing.number(", reads ", counts.reads);
    listing.number_line(", writes ", counts.writes);
}

/// Runs from where words were written to a pad, from there to a body, and up to `next`. Tells of it, and gives the words that
/// are written there.
fn told_switch(
    listing: &mut Listing,
    machine: &mut Flat<PageStore>,
    old: &[u32],
    pair: &[u32],
    next: u32,
) -> Result<Vec<u32>>
    ensures { IfOk result (λ words. 89 ≤ length words.items) }
{
    let &[pad, body] = pair else {
        bail!("a pad has no body");
    };
    run_to(machine, pad)?;
    let counts = run_to(machine, body)?;
    let new = words_up_to(listing.alloc(), machine, next)?;
    tell_counts(listing, pad, counts, new[0]);
    tell_memory(listing, &new);
    tell_rest(listing, old, &new)?;
    Ok(new)
}

/// Runs from each pad to its body, between which the words at `next` are written.
fn tell_pads(
    listing: &mut Listing,
    machine: &mut Flat<PageStore>,
    next: u32,
    ends: &[u32],
) -> Result<()> {
    let mut words = words_up_to(listing.alloc(), machine, next)?;
    tell_memory(listing, &words);
    for pair in ends.chunks(2) {
        words = told_switch(listing, machine, &words, pair, next)?;
    }
    Ok(())
}

/// Runs the file of a case on the flat machine. `NEXT PAD BODY PAD BODY ..`: at `NEXT` its words are written. It goes from
/// there to a pad, from the pad to the body of a stub, which is told, and to `NEXT` again.
pub(crate) fn tell_switches(listing: &mut Listing, case: &Case, text: &str) -> Result<()> {
    let (next, ends) = text.split_once(' ').context("no pads")?;
    let next = number(next)?;
    let ends = numbers(listing.alloc(), ends)?;
    let file = case.built(listing.alloc())?;
    let store = PageStore::new(listing.alloc());
    let mut machine = flat_of(listing.alloc(), &file, &case.input, store)?;
    tell_pads(listing, &mut machine, next, &ends)
}
