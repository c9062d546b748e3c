//! Lists what the analyses find in files, and what functions give for lines of text: the tables that the first text asks
//! for, and then what the other texts ask of functions on words, instructions, values and sorted numbers, of the machines and
//! the writer, of the code of stubs and of switches between regions. docs/LISTING.md describes the lines.
#![tactic(auto)]

mod cases;
mod code_tables;
mod file_tables;
mod flow_tables;
mod functions;
mod graph_tables;
mod large;
mod listing;
mod machines;
mod moved;
mod numbers;
mod piece_table;
mod points_table;
mod profile_table;
mod programme_table;
mod stub_plans;
mod switch_plans;
mod switch_runs;
mod tables;
mod texts;
mod values;
mod words;
mod writing;

use crate::functions::tell_text;
use crate::listing::Listing;
use crate::tables::list_all;
use anyhow::{Context, Result};
use std::{env, fs};

/// Lists the tables that a text asks for (`first`), or what the functions give for its lines.
fn list_text(rt: &HostRuntime, listing: &mut Listing, name: &str, first: bool) -> Result<()> {
    let text = fs::read_to_string(rt, name)?;
    if first {
        list_all(rt, listing, &text)
    } else {
        tell_text(listing, &text)
    }
}

/// Lists what the texts ask for that the words of the program name: tables, and behind the first functions.
fn list_texts(rt: &HostRuntime, listing: &mut Listing) -> Result<()> {
    let mut first = true;
    for name in env::args(rt)?.skip(1) {
        list_text(rt, listing, &name, first)?;
        first = false;
    }
    Ok(())
}

fn main(rt: HostRuntime) -> Result<()> {
    let mut listing = Listing::new(rt.alloc());
    let listed = list_texts(&rt, &mut listing);
    rt.print(listing.whole().context("no memory is left")?)?;
    listed
}
