//! Solves placement programmes that are written as text, and answers what is asked of them.
#![tactic(auto)]

mod asking;
mod certificates;
mod reading;
mod solving;

use crate::asking::tell_answers;
use crate::reading::read_programme;
use anyhow::Result;
use std::rt::Files;
use std::{env, fs};

/// Answers what the lines `ask ..` of a programme's text ask of it.
fn tell_programme(rt: &(impl Files + Print + AllocGlobal), text: &str) -> Result<()> {
    match read_programme(rt.alloc(), text) {
        Ok(programme) => tell_answers(rt, &programme, text),
        Err(error) => {
            println!(rt; "no programme: {error}")?;
            Ok(())
        }
    }
}

/// Answers of the programmes of a file, which blank lines separate.
fn tell_file(rt: &(impl Files + Print + AllocGlobal), name: &str) -> Result<()> {
    let text = fs::read_to_string(rt, name)?;
    for programme in text.split("\n\n") {
        tell_programme(rt, programme)?;
    }
    Ok(())
}

fn main(rt: HostRuntime) -> Result<()> {
    for name in env::args(&rt)?.skip(1) {
        tell_file(&rt, &name)?;
    }
    Ok(())
}
