// What functions give for the lines of a text.
use crate::cases::Case;
use crate::listing::Listing;
use crate::machines::{tell_flat, tell_listed, tell_object};
use crate::numbers::tell_sorted;
use crate::stub_plans::tell_stub;
use crate::switch_plans::code_words;
use crate::switch_runs::tell_switches;
use crate::values::{tell_address, tell_cells, tell_operation};
use crate::words::{tell_extension, tell_word};
use crate::writing::tell_written;
use anyhow::{Context, Result};

/// Tells what a line asks for, or takes it into the case. A line that begins with `#` is told as it is.
fn tell_line(listing: &mut Listing, case: &mut Case, line: &str) -> Result<()> {
    let (key, rest) = line.split_once(' ').unwrap_or((line, ""));
    match key {
        "" => Ok(()),
        "#" => {
            listing.line(line);
            Ok(())
        }
        "word" => tell_word(listing, rest),
        "extend" => tell_extension(listing, rest),
        "operate" => tell_operation(listing, rest),
        "address" => tell_address(listing, rest),
        "cells" => tell_cells(listing, rest),
        "sorted" => tell_sorted(listing, rest),
        "stub" => tell_stub(listing, rest),
        "file" => {
            *case = Case::empty(listing.alloc());
            listing.line(line);
            Ok(())
        }
        _ => tell_case(listing, case, key, rest),
    }
}

/// Tells what a line asks of the file of the case, or takes it into the case.
fn tell_case(listing: &mut Listing, case: &mut Case, key: &str, rest: &str) -> Result<()> {
    match key {
        "built" => case.tell_built(listing, rest),
        "code" => case.take_words(&code_words(listing, rest)?),
        "switches" => tell_switches(listing, case, rest),
        "flat" => tell_flat(listing, case, rest),
        "listed" => tell_listed(listing, case, rest),
        "object" => tell_object(listing, case, rest),
        "write" => tell_written(listing, case, rest),
        _ => case.take_line(listing.alloc(), key, rest),
    }
}

/// Tells of the lines of a text.
pub(crate) fn tell_text(listing: &mut Listing, text: &str) -> Result<()> {
    let mut case = Case::empty(listing.alloc());
    for line in text.lines() {
        tell_line(listing, &mut case, line).context("a line does not read")?;
    }
    Ok(())
}
