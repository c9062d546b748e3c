//! Runs RV32IM programs on a model of a board with a scratchpad memory, shows what of them may move, measures them,
//! relinks them for it, compares them with what that made, and checks its certificates; generates workloads, and
//! writes and checks Intel HEX.
#![tactic(auto)]

use explanations::{Explainer, Terminal, run_command};
use shelf_io::{DirShelf, OutSink, Sink, words};
use std::alloc::AllocError;
use std::io::IsTerminal;
use std::process::ExitCode;

fn main(rt: HostRuntime) -> ExitCode {
    let host: Result<HostRuntime, AllocError> = rt.clone();
    let (Ok(words), Ok(host)) = (words(&rt), host) else {
        let _ = rt.print("error 9 memory 0 0\n");
        return ExitCode::from(9);
    };
    let terminal = Terminal::new(host, rt.stderr().is_terminal());
    let mut shelf = DirShelf::new(&rt, rt.alloc());
    let mut out = OutSink::new(rt.stdout());
    let mut explainer = Explainer::new(rt.alloc(), &words);
    let outcome = run_command(
        rt.alloc(),
        &words,
        &mut shelf,
        &mut out,
        &mut explainer,
        &terminal,
    );
    let failed = shelf.take_failed_write();
    let text = explainer.into_text(outcome.status, failed.as_ref());
    terminal.clear();
    let _ = OutSink::new(rt.stderr()).put(&text);
    terminal.tell_times();
    ExitCode::from(outcome.status)
}
