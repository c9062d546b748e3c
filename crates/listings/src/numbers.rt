ghost use Rattle.std.specs.Prelude.{◌+◌, ◌^◌, ◌<◌};
ghost use Rattle.list_checks.specs.Sorted.{IsSorted};

use crate::listing::Listing;
use crate::texts::{number, two_numbers};
use anyhow::{Context, Result};
use list_checks::{arrange, arrange_once, count_under, has, has_inside, place_of, repeats};
use std::alloc::Global;

fn numbers(alloc: Global, text: &str) -> Result<Vec<u64>> {
    let mut numbers = Vec::new(alloc);
    for word in text.split_whitespace() {
        numbers.push(u64::from(number(word)?))?;
    }
    Ok(numbers)
}

/// `NUMBER SIZE: NUMBERS`: of the numbers, sorted, how many are under the first, whether it is one of them, more than
/// once, and whether one of SIZE numbers from it on is; and its place among them where each is kept once.
pub(crate) fn tell_sorted(listing: &mut Listing, text: &str) -> Result<()> {
    let (asked, all) = text.split_once(": ").context("no numbers")?;
    let (from, size) = two_numbers(asked)?;
    let (from, size) = (u64::from(from), u64::from(size));
    let mut sorted = numbers(listing.alloc(), all)?;
    arrange(&mut sorted);
    tell_searches(listing, &sorted, from, size);
    arrange_once(&mut sorted);
    listing.value("  ", &sorted);
    listing.value_line(": ", &place_of(&sorted, from));
    Ok(())
}

/// What searches find in sorted numbers.
fn tell_searches(listing: &mut Listing, sorted: &[u64], from: u64, size: u64)
    requires sorted { IsSorted sorted.now }
    requires fits { from + size < 2 ^ 64 }
{
    listing.number("", from);
    listing.value(" in ", &sorted);
    listing.number(": ", count_under(sorted, from) as u64);
    listing.value(" under, ", &has(sorted, from));
    listing.value(", ", &has_inside(sorted, from, size));
    listing.number(" within ", size);
    listing.value(", ", &repeats(sorted, from));
    listing.line(" again");
}
