//! Prints what stands where in the file that relinks a program: copies of code, displaced words, stubs, and objects by region.
#![tactic(auto)]

mod code_rows;
mod lines;
mod mapping;
mod rows;

use command_files::Diagnostic;
use command_language::CommandFault;
use mapping::map_file;
use shelf_io::{DirShelf, OutSink, Shelf, ShelfFault, Sink, words};
use std::alloc::Global;
use std::process::ExitCode;

/// The bytes under the name that stands at a place of the words, counted from 1.
fn read<S: Shelf>(
    alloc: Global,
    shelf: &mut S,
    name: &str,
    place: u32,
) -> Result<Vec<u8>, CommandFault> {
    match shelf.read(alloc, name) {
        Ok(bytes) => Ok(bytes),
        Err(ShelfFault::Failed) => Err(CommandFault::Read { place }),
        Err(ShelfFault::Memory) => Err(CommandFault::Memory),
    }
}

/// The map that the words FILE BOARD INPUT CERT ask for.
fn map_of_words<S: Shelf>(
    alloc: Global,
    shelf: &mut S,
    words: &[String],
) -> Result<Vec<u8>, CommandFault> {
    let [file, board, input, cert] = words else {
        return Err(CommandFault::Usage);
    };
    let file = read(alloc, shelf, file, 1)?;
    let board = read(alloc, shelf, board, 2)?;
    let input = read(alloc, shelf, input, 3)?;
    let cert = read(alloc, shelf, cert, 4)?;
    map_file(alloc, &file, &board, &input, &cert)
}

/// Prints the map, or why there is none, and gives the status.
fn print_map<S: Shelf, K: Sink>(alloc: Global, shelf: &mut S, words: &[String], out: &mut K) -> u8 {
    match map_of_words(alloc, shelf, words) {
        Ok(text) => match out.put(&text) {
            Ok(()) => 0,
            Err(_) => Diagnostic::new(alloc, &CommandFault::Write { place: 0 }).tell(out),
        },
        Err(fault) => Diagnostic::new(alloc, &fault).tell(out),
    }
}

fn main(rt: HostRuntime) -> ExitCode {
    let mut out = OutSink::new(rt.stdout());
    let status = match words(&rt) {
        Ok(words) => {
            let mut shelf = DirShelf::new(&rt, rt.alloc());
            print_map(rt.alloc(), &mut shelf, &words, &mut out)
        }
        Err(_) => Diagnostic::Memory.tell(&mut out),
    };
    ExitCode::from(status)
}
