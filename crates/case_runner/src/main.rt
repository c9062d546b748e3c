//! Runs lists of cases, each of them command lines of spmlink over files in memory, and tells where what comes out is not what
//! the case says.
//!
//! The words name lists, which are TOML files; without words the list is `cases.toml`. docs/CASES.md tells of their keys:
//!
//! ```toml
//! [[case]]
//! name = "a board that is none"
//! files = { prog = { file = "ok.elf" }, board = "grain = 8", input = "" }
//! calls = [{ words = "run prog board input out", status = 4, prints = "error 4 out-of-range 8 0\n" }]
//! ```
//!
//! A line is printed for each case, and then how many passed. The status is 0 where all passed, 1 where one failed, and 2 where a
//! list or a file that it names can't be read.
#![tactic(auto)]

mod clap_words;
mod contents;
mod lists;
mod outside;
mod pieces;
mod running;

use crate::lists::{Case, List, read_list};
use crate::running::first_difference;
use anyhow::{Context, Result};
use std::env;
use std::process::ExitCode;
use std::rt::{Env, Files};

/// The list that is run where the words name none.
const DEFAULT_LIST: &str = "cases.toml";

/// How many cases passed, and how many failed.
#[derive(Clone, Copy)]
struct Tally {
    passed: u64,
    failed: u64,
}

impl Tally {
    fn count(&mut self, passed: bool) {
        if passed {
            self.passed = self.passed.saturating_add(1);
        } else {
            self.failed = self.failed.saturating_add(1);
        }
    }
}

/// Runs a case of the list with this name, and tells on a line whether it passed.
fn run_case(
    rt: &(impl Files + Print + AllocGlobal),
    name: &str,
    list: &List,
    case: &Case,
    tally: &mut Tally,
) -> Result<()> {
    let difference = first_difference(rt, name, list, case).with_context(|| &case.name)?;
    tally.count(difference.is_none());
    match difference {
        None => println!(rt; "ok {}", case.name)?,
        Some(difference) => println!(rt; "differs {}: {difference}", case.name)?,
    }
    Ok(())
}

/// Runs the cases of a list.
fn run_list(rt: &(impl Files + Print + AllocGlobal), name: &str, tally: &mut Tally) -> Result<()> {
    let list = read_list(rt, name)?;
    for case in &list.cases {
        run_case(rt, name, &list, case, tally)?;
    }
    Ok(())
}

/// Runs the cases of all lists that the words name.
fn run_lists(rt: &(impl Env + Files + Print + AllocGlobal)) -> Result<Tally> {
    let mut tally = Tally {
        passed: 0,
        failed: 0,
    };
    let mut names = Vec::new(rt.alloc());
    for name in env::args(rt)?.skip(1) {
        names.push(name)?;
    }
    if names.is_empty() {
        run_list(rt, DEFAULT_LIST, &mut tally)?;
    }
    for name in &names {
        run_list(rt, name, &mut tally)?;
    }
    println!(rt; "{} passed, {} failed", tally.passed, tally.failed)?;
    Ok(tally)
}

fn main(rt: HostRuntime) -> ExitCode {
    match run_lists(&rt) {
        Ok(tally) if tally.failed == 0 => ExitCode::from(0),
        Ok(_) => ExitCode::from(1),
        Err(error) => {
            let _ = eprintln!(rt; "case_runner: {error:#}");
            ExitCode::from(2)
        }
    }
}
