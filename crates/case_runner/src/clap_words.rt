//! The words of a command line, as `clap` reads them.

use clap::{Arg, ArgAction, Command, Error};
use std::alloc::Global;

/// The commands as `clap` has them: subcommands with required positional words.
fn commands<'a>(alloc: Global) -> Result<Command<'a>, Error> {
    let all: [(&'static str, &'static [&'static str]); 13] = [
        ("run", &["FILE", "BOARD", "INPUT", "OUT"]),
        ("relink", &["FILE", "BOARD", "INPUT", "OUT", "CERT"]),
        ("profile", &["FILE", "BOARD", "INPUT"]),
        ("compare", &["FILE", "RESULT", "BOARD", "INPUT"]),
        ("check", &["FILE", "BOARD", "INPUT", "CERT"]),
        ("paid", &["FILE", "BOARD", "INPUT", "CERT"]),
        ("trace", &["FILE", "BOARD", "INPUT", "CERT", "COUNT", "OUT"]),
        ("mix", &["FILE", "BOARD", "MIX", "OUT", "CERT"]),
        ("checkmix", &["FILE", "BOARD", "MIX", "CERT"]),
        ("show", &["FILE", "BOARD"]),
        ("gen", &["SEED", "KERNELS", "OUT"]),
        ("hex", &["FILE", "OUT"]),
        ("hexcheck", &["FILE", "HEX"]),
    ];
    let mut program = Command::new(alloc, "spmlink").subcommand_required(true);
    for (name, words) in all {
        program = program.subcommand(command(alloc, name, words)?)?;
    }
    Ok(program)
}

/// A command with required words.
fn command<'a>(
    alloc: Global,
    name: &'static str,
    words: &[&'static str],
) -> Result<Command<'a>, Error> {
    let mut command = Command::new(alloc, name);
    for word in words {
        command = command.arg(Arg::new(alloc, word).required(true).action(ArgAction::Set))?;
    }
    Ok(command)
}

/// Whether `clap` takes the words of a command line.
pub fn clap_takes(alloc: Global, line: &str) -> Result<bool, Error> {
    let mut words = vec![in alloc; "spmlink"]?;
    for word in line.split_whitespace() {
        words.push(word)?;
    }
    Ok(commands(alloc)?.try_get_matches_from(&words).is_ok())
}
